// Sessions, what the judge says of them, and what the rules at their head lead to.
//
// It leaves out the move on a session that is lent: here sessions are handed over by value.
use game::{Game, Refusal};
use judge::{Verdict, judge};
use script::{File, front, word_of};
use session::{Session, play_move};

// A game file and the table that the solver leaves of it.
#[derive(Clone, Copy)]
pub struct Solution<'a> {
    pub file: &'a [u8],
    pub table: &'a [u32],
}

// A session with what the judge says of it.
#[derive(Clone, Copy, Debug, PartialEq, Eq)]
pub struct Place {
    pub session: Session,
    pub judged: Result<Verdict, Refusal>,
}

// Of the positions that the rules of a head lead to: how many are won, how many are lost, the largest bound, and a rule that
// leads to a position with that.
#[derive(Clone, Copy, Debug, PartialEq, Eq)]
pub struct Spread {
    pub won: usize,
    pub lost: usize,
    pub largest: u64,
    pub worst: u32,
}

impl Place {
    // The bound, where the position is won.
    pub fn bound(&self) -> Option<u64> {
        match self.judged {
            Ok(Verdict::Target) => Some(0),
            Ok(Verdict::Eloise { bound, .. } | Verdict::Abelard { bound }) => Some(bound),
            Ok(Verdict::Lost { .. }) | Err(_) => None,
        }
    }

    // The same as a number, which is larger than any bound where there is none.
    pub fn worth(&self) -> u64 {
        self.bound().unwrap_or(u64::MAX)
    }
}

impl Solution<'_> {
    // The judge on a session: control state and stack, the uppermost letter first.
    pub fn judge(&self, session: Session) -> Place {
        let mut position = File::<300>::new();
        position.push(session.state);
        for letter in front(&session.stack, session.height).iter().rev() {
            position.push(*letter);
        }
        Place {
            session,
            judged: judge(self.file, self.table, position.as_slice()),
        }
    }

    // What the rules of a session's head lead to. Every rule of the game is tried, and those of another head are refused.
    pub fn spread_of(&self, s: Session) -> Spread {
        let count = Game::read(self.file).map_or(0, |game| game.sizes.rulecount);
        let mut spread = Spread {
            won: 0,
            lost: 0,
            largest: 0,
            worst: 0,
        };
        for i in 0..count {
            let rule = word_of(i);
            let played = play_move(self.file, s, rule);
            if played.answer.is_ok() {
                spread.add(rule, self.judge(played.session));
            }
        }
        spread
    }
}

impl Spread {
    fn add(&mut self, rule: u32, place: Place) {
        if matches!(place.judged, Ok(Verdict::Lost { .. })) {
            self.lost = self.lost.saturating_add(1);
        }
        if place.bound().is_some() {
            self.won = self.won.saturating_add(1);
        }
        if self.largest <= place.worth() {
            self.largest = place.worth();
            self.worst = rule;
        }
    }
}
