// Random small games, judged and played, against the plain solver. Of each game every position with at most two letters above
// the bottom is tried, and some of three to six:
//   - it is judged target exactly where the plain solver finds it in the target;
//   - it is judged won wherever the plain solver finds a win within the depth;
//   - the plain solver finds a win wherever the bound is within the depth;
//   - where it is judged lost, all rules of Éloise's head lead to positions judged lost, and no rule is reported; of Abelard's the rule
//     that is reported is the lowest that leads to a position judged lost, and there is one;
//   - where it is judged lost, it stays lost while Abelard plays the rules that are reported, and Éloise any;
//   - where it is judged won, it is played to the target within the bound.
use crate::cases::Areas;
use crate::counts::Counts;
use crate::games::{Made, drawn};
use crate::plain::{Letters, Position, above};
use crate::plays::{Bound, End, Place, Trial};
use crate::samples::words_of;
use judge::Verdict;
use script::{byte_of, front};
use std::io::Stdout;

const GAMES: usize = 320;

// The depth to which the plain solver tries moves.
const DEPTH: usize = 7;

// The stacks of numbers below this have at most two letters above the bottom.
const LOW: usize = 64;

// So many more stacks are drawn for each game.
const DRAWN: usize = 4;

// More than any of the games has control states.
const STATES: u8 = 3;

pub fn every_game(out: Stdout, areas: &mut Areas) -> Counts {
    let mut c = Counts::default();
    for number in 0..GAMES {
        let game = Made::new(number);
        match areas.solve(game.file.as_slice()) {
            Ok(solved) => {
                c.solved(solved.rounds);
                // With an unused entry after those that are used.
                let words = words_of(solved.entries.saturating_add(1));
                let trial = Trial {
                    game: &game,
                    table: front(&areas.table, words),
                };
                trial.every_position(out, &mut c);
            }
            Err(refusal) => c.refused(out, number, refusal),
        }
    }
    c
}

impl Trial<'_> {
    fn every_position(&self, out: Stdout, c: &mut Counts) {
        for i in 0..LOW + DRAWN {
            let stack = self.game.stack(i);
            for state in 0..STATES {
                let at = Position { state, stack };
                if self.game.is_position(at) {
                    self.one_position(out, c, at);
                }
            }
        }
    }

    fn one_position(&self, out: Stdout, c: &mut Counts, at: Position) {
        let number = self.game.sizes.number;
        let place = self.judge(at);
        let plain = self.game.wins(at, DEPTH);
        c.judged(place, plain);
        c.check(out, self.does_agree(place, plain), number, at);
        if let Ok(Verdict::Lost { rule }) = place.judged {
            c.reported(self.game.is_abelards(at.state));
            c.check(out, self.is_kept(at, rule), number, at);
            let went = self.contest(at, rule);
            c.contested(went);
            c.check(out, !went.failed, number, at);
        } else {
            let played = self.play(place);
            c.played(played);
            c.check(out, played.end != End::Wrong, number, at);
        }
    }

    // The verdict agrees with what the plain solver found.
    fn does_agree(&self, place: Place, plain: bool) -> bool {
        if let Ok(Verdict::Lost { .. }) = place.judged {
            return !plain;
        }
        if self.game.is_target(place.at) {
            return matches!(place.judged, Ok(Verdict::Target));
        }
        let abelards = self.game.is_abelards(place.at.state);
        let is_owners = match place.judged {
            Ok(Verdict::Abelard { .. }) => abelards,
            Ok(Verdict::Eloise { .. }) => !abelards,
            _ => false,
        };
        is_owners && (plain || Bound::Within(DEPTH as u64) < place.bound())
    }

    // Abelard can keep a position lost: the lowest rule of his head that leads to one judged lost is reported, or every rule of Éloise's
    // leads to one, and none is reported.
    fn is_kept(&self, at: Position, reported: Option<u32>) -> bool {
        let s = self.spread_of(at);
        match reported {
            Some(rule) => self.game.is_abelards(at.state) && s.losing == Some(rule as usize),
            None => !self.game.is_abelards(at.state) && s.least == Bound::Never,
        }
    }
}

impl Made {
    // The stack of a number, or one that is drawn.
    fn stack(&self, i: usize) -> usize {
        if i < LOW {
            return i;
        }
        let number = self.sizes.number;
        let letters = usize::from(self.sizes.letters).saturating_sub(1);
        let choice = 512 + i % 64 * 8;
        let mut stack = 0;
        for j in 0..drawn(number, choice + 7, 4) + 3 {
            stack = above(stack, byte_of(drawn(number, choice + j % 7, letters) + 1));
        }
        stack
    }

    // The control state is one of the game's, and so is every letter above the bottom.
    fn is_position(&self, p: Position) -> bool {
        p.state < self.sizes.control && Letters(p.stack).all(|l| l != 0 && l < self.sizes.letters)
    }
}
