// The move on a session by value.
ghost use Rattle.std.specs.Prelude.{◌≡◌, ◌&&◌, ◌++◌, ◌+◌, ◌-◌, ◌≤◌, length, take, replicate};
ghost use Rattle.game.specs.Game.{PushdownGame, word_of};
ghost use Rattle.game.specs.Held.{Held};
ghost use Rattle.game.specs.Limits.{max_stack};
ghost use Rattle.game.specs.Questions.{bottom_last};
ghost use Rattle.game.specs.Stored.{rule_at, padded};
ghost use Rattle.game.specs.Win.{letters_below, successor};
ghost use Rattle.session.specs.Session.{
  top_first,
  bottom_first,
  session_in_form,
  Playable,
  fitting,
  moving,
  moved,
  move,
  told,
  handed,
};

use crate::playing::Session;
use game::{Game, Question, Refusal, Sizes, is_rule_of};

// What a move answers, and the session afterwards, which a refused move leaves as it was.
#[derive(Clone, Copy, Debug, PartialEq, Eq)]
pub struct Played {
    pub answer: Result<(), Refusal>,
    pub session: Session,
}

// The rule of a number played in a session of the game that a file describes. The session is handed back as it was where a
// question is answered no; after a move its cells from the height up are 0.
pub fn play_move(file: &[u8], session: Session, rule: u32) -> Played
    ensures { handed result ≡ move file.now session rule }
{
    match after_move(file, session, rule) {
        Ok(after) => Played {
            answer: Ok(()),
            session: after,
        },
        Err(refusal) => Played {
            answer: Err(refusal),
            session,
        },
    }
}

// The session after the move.
pub fn after_move(file: &[u8], session: Session, rule: u32) -> Result<Session, Refusal>
    ensures { told session result ≡ move file.now session rule }
{
    let game = Game::read(file)?;
    let rules = game.rules;
    move_in(game.sizes(), &rules, session, rule)
}

// 14 and 16 in a game that was read, then the rule is played.
fn move_in(sizes: Sizes, rules: &[u8], session: Session, rule: u32) -> Result<Session, Refusal>
    requires { (g : PushdownGame) × Held g sizes rules.now }
    ensures { (g : PushdownGame) → Held g sizes rules.now → told session result ≡ moved session (moving g session rule) }
{
    if !is_session(sizes.control, sizes.letters, session) {
        return Err(Question::Position.at(0));
    }
    let n = rule as usize;
    if sizes.rulecount <= n {
        return Err(Question::Head.at(0));
    }
    let at = n * Game::RULE_STRIDE;
    if !is_rule_of(rules, at, session.state, session.stack[session.height - 1]) {
        return Err(Question::Head.at(0));
    }
    replace_top(rules, at, session)
}

// 17. Is the new stack at most 256 letters? Then the rule stored at an offset replaces the top letter by its word.
fn replace_top(rules: &[u8], at: usize, session: Session) -> Result<Session, Refusal>
    requires { Playable rules.now at session.height }
    ensures { told session result
        ≡ moved session (fitting (successor (rule_at rules.now at 0) (top_first (session.height - 1) session.stack))) }
{
    let below = session.height - 1;
    let count = rules[at + 3];
    let top = below + (count as usize);
    if Game::MAX_STACK < top {
        return Err(Question::Height.at(0));
    }
    let cells = written(session.stack, below, count, rules[at + 4], rules[at + 5]);
    Ok(Session {
        state: rules[at + 2],
        stack: cells,
        height: top,
    })
}

// 14. Is the session in form?
fn is_session(control: u8, letters: u8, session: Session) -> bool
    ensures { (g : PushdownGame) → control ≡ g.control → letters ≡ g.letters → result ≡ session_in_form g session }
{
    if session.height < 1 {
        return false;
    }
    if Game::MAX_STACK < session.height {
        return false;
    }
    if control <= session.state {
        return false;
    }
    is_stack(letters, &session.stack, session.height)
}

// The letters below the height are in range, the lowest is the bottom letter and no other is.
fn is_stack(letters: u8, stack: &[u8], height: usize) -> bool
    requires { (1 ≤ height) × (height ≤ length stack.now) }
    ensures { result ≡ letters_below letters (top_first height stack.now) && bottom_last (top_first height stack.now) }
{
    for i in (1..height).rev() {
        let a = stack[i];
        if a == 0 {
            return false;
        }
        if letters <= a {
            return false;
        }
    }
    if stack[0] != 0 {
        return false;
    }
    0 < letters
}

// The lowest `below` cells with a rule's word over them, and zeros above.
fn written(
    stack: [u8; Game::MAX_STACK],
    below: usize,
    count: u8,
    upper: u8,
    lower: u8,
) -> [u8; Game::MAX_STACK]
    requires { (count ≤ 2) × (below + count ≤ max_stack) }
    ensures { result ≡ padded max_stack (take below stack ++ bottom_first (word_of count upper lower)) }
{
    let mut cells = cleared(stack, below);
    if count == 0 {
        return cells;
    }
    if count == 1 {
        cells[below] = upper;
        return cells;
    }
    cells[below] = lower;
    cells[below + 1] = upper;
    cells
}

// The lowest `below` cells, and zeros above.
fn cleared(stack: [u8; Game::MAX_STACK], below: usize) -> [u8; Game::MAX_STACK]
    requires { below ≤ max_stack }
    ensures { result ≡ take below stack ++ replicate (max_stack - below) 0 }
{
    let mut cells = stack;
    cells[below..].fill(0);
    cells
}
