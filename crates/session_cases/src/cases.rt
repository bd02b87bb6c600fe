// Cases of a move, each in its two forms: on a session by value, and on one that is lent. A case that fails prints one line, which starts
// with its number.
ghost use Rattle.std.specs.Prelude.{◌≡◌};
ghost use Rattle.session.specs.Session.{move, left};

use crate::sessions::Shown;
use game::Refusal;
use output::Tally;
use session::{Played, Session, play, play_move};

// One case: the rule is played and leads to this session. The session is printed before and after.
pub fn shows(t: &mut Tally, file: &[u8], before: Session, rule: u32, after: Session) {
    let played = play_lent(file, before, rule).session;
    let _ = t.out.println(format_args!("{} rule {rule}: {}", Shown(before), Shown(played)));
    plays(t, file, before, rule, after);
}

// One case: the rule is played and leads to this session.
pub fn plays(t: &mut Tally, file: &[u8], before: Session, rule: u32, after: Session) {
    ends(t, file, before, rule, Ok(()), after);
}

// One case: the move is refused, and the session is as it was.
pub fn refuses(t: &mut Tally, file: &[u8], s: Session, rule: u32, refusal: Refusal) {
    ends(t, file, s, rule, Err(refusal), s);
}

fn ends(
    t: &mut Tally,
    file: &[u8],
    before: Session,
    rule: u32,
    answer: Result<(), Refusal>,
    session: Session,
) {
    let expected = Played { answer, session };
    let valued = play_move(file, before, rule);
    let lent = play_lent(file, before, rule);
    let question = answer.map_or_else(|refusal| refusal.question.number(), |()| 0);
    check(t, valued == expected && lent == expected, rule, question);
}

// One case, which holds or not. Question 0 stands for done.
pub fn check(t: &mut Tally, holds: bool, rule: u32, question: u8) {
    let number = t.next();
    t.check(
        holds,
        format_args!("case {number} fails: rule {rule}, expected {question}"),
    );
}

pub fn play_lent(file: &[u8], before: Session, rule: u32) -> Played
    ensures { left result.answer result.session ≡ move file.now before rule }
{
    let mut session = before;
    let answer = play(file, &mut session, rule);
    Played { answer, session }
}
