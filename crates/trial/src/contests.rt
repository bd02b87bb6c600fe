// Contests from positions that are judged lost: Abelard plays the rule that the judge reports, Éloise a rule of her head that is drawn.
// After every move the position must be judged lost again, and the plain solver must find it outside the target.
//
// It leaves out play against every choice of Éloise's.
use crate::games::{Rule, drawn};
use crate::plain::{Letters, Position, bit, turned};
use crate::plays::Trial;
use judge::{Verdict, judge};

// How a contest went: its moves, Abelard's among them, the letters of its highest stack, and whether it failed.
#[derive(Clone, Copy, Debug, Default, PartialEq, Eq)]
pub struct Contested {
    pub moves: usize,
    pub turns: usize,
    pub letters: usize,
    pub failed: bool,
}

// The position is kept at the end of a buffer, control state first, so that a move alters its first bytes only and the stack may
// take a letter at every move.
#[derive(Drop)]
struct Board {
    bytes: [u8; Board::ROOM],
    at: usize,
}

// The moves of a contest.
const MOVES: usize = 30;

impl Trial<'_> {
    // A contest from a position that is judged lost, by this rule of Abelard's if it has one.
    pub fn contest(&self, from: Position, reported: Option<u32>) -> Contested {
        let mut board = Board::of(from);
        let mut reported = reported;
        let mut c = Contested::default();
        for moves in 0..MOVES {
            let abelards = self.game.is_abelards(board.state());
            let rule = if abelards {
                self.reported_rule(reported)
            } else {
                self.drawn_rule(choice_of(from, moves), &board)
            };
            let lost = self.lost_by(rule, &mut board);
            c.moves = c.moves.saturating_add(1);
            c.turns = c.turns.saturating_add(usize::from(abelards));
            c.letters = c.letters.max(board.letters());
            let Some(next) = lost else {
                c.failed = true;
                return c;
            };
            reported = next;
        }
        c
    }

    fn reported_rule(&self, reported: Option<u32>) -> Option<Rule> {
        self.game.rules.as_slice().get(reported? as usize).copied()
    }

    // A rule of the board's head that is drawn: of the rules seen up to now each is as likely as another.
    fn drawn_rule(&self, choice: usize, board: &Board) -> Option<Rule> {
        let mut chosen = None;
        let mut seen = 0usize;
        for rule in self.game.rules.as_slice().iter() {
            if rule.is_of_head(board.state(), board.letter()) {
                seen = seen.saturating_add(1);
                if drawn(self.game.sizes.number, choice, seen) == 0 {
                    chosen = Some(*rule);
                }
            }
        }
        chosen
    }

    // Plays a rule, if it is one of the head, and answers what the judge reports of the position after it. None where that does not count
    // as lost: where it is not judged so, or where the plain solver finds it in the target.
    fn lost_by(&self, rule: Option<Rule>, board: &mut Board) -> Option<Option<u32>> {
        let rule = rule?;
        if !rule.is_of_head(board.state(), board.letter()) {
            return None;
        }
        board.play(rule);
        match judge(self.game.file.as_slice(), self.table, board.as_slice()) {
            Ok(Verdict::Lost { rule }) if !self.is_in_target(board) => Some(rule),
            _ => None,
        }
    }

    // The position is in the target. The states that accept are found from the bottom up.
    fn is_in_target(&self, board: &Board) -> bool {
        let Some((state, stack)) = board.as_slice().split_first() else {
            return false;
        };
        let mut accepting = self.game.finals;
        for letter in stack.iter().rev() {
            accepting = self.game.states_on(*letter, accepting);
        }
        accepting & bit(*state) != 0
    }
}

// The number of the draw at a move, by the contest's first position. The numbers below 1,024 are those of other draws.
fn choice_of(from: Position, moves: usize) -> usize {
    let first = from.stack % 4096 * 4 + usize::from(from.state) % 4;
    1024 + (first * MOVES + moves % MOVES) % 3072
}

impl Board {
    const ROOM: usize = 300;

    fn of(p: Position) -> Board {
        let mut board = Board {
            bytes: [0; Board::ROOM],
            at: Board::ROOM,
        };
        board.push(0);
        for letter in Letters(turned(p.stack)) {
            board.push(letter);
        }
        board.push(p.state);
        board
    }

    fn as_slice(&self) -> &[u8] {
        self.bytes.get(self.at..).unwrap_or(&self.bytes)
    }

    // The control state.
    fn state(&self) -> u8 {
        self.as_slice().first().copied().unwrap_or(0)
    }

    // The top letter.
    fn letter(&self) -> u8 {
        self.as_slice().get(1).copied().unwrap_or(0)
    }

    // The letters of the stack, the bottom with them.
    fn letters(&self) -> usize {
        self.as_slice().len().saturating_sub(1)
    }

    // One byte before the others.
    fn push(&mut self, x: u8) {
        self.at = self.at.saturating_sub(1);
        if let Some(byte) = self.bytes.get_mut(self.at) {
            *byte = x;
        }
    }

    // The rule's word in place of the top letter, and its control state.
    fn play(&mut self, rule: Rule) {
        self.at = self.at.saturating_add(2);
        if 1 < rule.count {
            self.push(rule.below);
        }
        if 0 < rule.count {
            self.push(rule.above);
        }
        self.push(rule.to);
    }
}
