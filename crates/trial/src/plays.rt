// Plays under the judge's advice: Éloise plays the advised rule, Abelard the rule whose position has the largest bound. Each move
// must make the bound smaller, and the target must be reached within the first bound.
//
// It leaves out play against every choice of Abelard's.
use crate::games::{Made, Rule};
use crate::plain::{Letters, Position, TALL};
use game::Refusal;
use judge::{Verdict, judge};
use script::File;

// A game with the table that the solver leaves.
#[derive(Clone, Copy)]
pub struct Trial<'a> {
    pub game: &'a Made,
    pub table: &'a [u32],
}

// The bound of a position for Éloise. A position that is not won has a larger one than any that is.
#[derive(Clone, Copy, Debug, PartialEq, Eq, PartialOrd, Ord)]
pub enum Bound {
    Within(u64),
    Never,
}

// A position with what the judge says of it.
#[derive(Clone, Copy, Debug, PartialEq, Eq)]
pub struct Place {
    pub at: Position,
    pub judged: Result<Verdict, Refusal>,
}

// How a play ended: in the target within the bound, otherwise, or given up as too long.
#[derive(Clone, Copy, Debug, PartialEq, Eq)]
pub enum End {
    Right,
    Wrong,
    Long,
}

#[derive(Clone, Copy, Debug, PartialEq, Eq)]
pub struct Played {
    pub moves: usize,
    pub end: End,
}

// Of the positions that a head's rules lead to: the least bound, the largest one and the last rule that leads to that, and the lowest rule
// that leads to a lost one.
#[derive(Clone, Copy)]
pub struct Spread {
    pub least: Bound,
    pub largest: Bound,
    pub worst: Option<Rule>,
    pub losing: Option<usize>,
}

// A play of more moves is given up.
const MOST_MOVES: usize = 3000;

impl Place {
    pub fn bound(&self) -> Bound {
        match self.judged {
            Ok(Verdict::Target) => Bound::Within(0),
            Ok(Verdict::Eloise { bound, .. } | Verdict::Abelard { bound }) => Bound::Within(bound),
            Ok(Verdict::Lost { .. }) | Err(_) => Bound::Never,
        }
    }
}

impl Trial<'_> {
    // The judge on a position, over the solver's table.
    pub fn judge(&self, at: Position) -> Place {
        let mut position = File::<300>::new();
        position.push(at.state);
        for letter in Letters(at.stack) {
            position.push(letter);
        }
        position.push(0);
        Place {
            at,
            judged: judge(self.game.file.as_slice(), self.table, position.as_slice()),
        }
    }

    // A play from a position that is judged won.
    pub fn play(&self, from: Place) -> Played {
        let mut place = from;
        for moves in 0..MOST_MOVES {
            if matches!(place.judged, Ok(Verdict::Target)) {
                let within = Bound::Within(moves as u64) <= from.bound();
                return ended(moves, within && self.game.is_target(place.at));
            }
            if TALL < place.at.stack {
                return Played {
                    moves,
                    end: End::Long,
                };
            }
            let next = self.after(place);
            if place.bound() <= next.bound() {
                return ended(moves + 1, false);
            }
            place = next;
        }
        Played {
            moves: MOST_MOVES,
            end: End::Long,
        }
    }

    // The position after one move, by Éloise's advised rule or Abelard's worst for her; the same one where no rule of the head is advised.
    fn after(&self, place: Place) -> Place {
        let advised = match place.judged {
            Ok(Verdict::Eloise { rule, .. }) => self
                .game
                .rules
                .as_slice()
                .get(rule as usize)
                .copied(),
            _ => self.spread_of(place.at).worst,
        };
        match advised {
            Some(rule) if rule.is_of(place.at) => self.judge(rule.played(place.at)),
            _ => place,
        }
    }

    // What the rules of a head lead to.
    pub fn spread_of(&self, at: Position) -> Spread {
        let mut s = Spread {
            least: Bound::Never,
            largest: Bound::Within(0),
            worst: None,
            losing: None,
        };
        for (i, rule) in self.game.rules.as_slice().iter().enumerate() {
            if rule.is_of(at) {
                s.add(i, *rule, self.judge(rule.played(at)).bound());
            }
        }
        s
    }
}

fn ended(moves: usize, right: bool) -> Played {
    Played {
        moves,
        end: if right { End::Right } else { End::Wrong },
    }
}

impl Spread {
    // Rules come in their order, so the first that leads to a lost position stays.
    fn add(&mut self, i: usize, rule: Rule, bound: Bound) {
        if bound < self.least {
            self.least = bound;
        }
        if self.largest <= bound {
            self.largest = bound;
            self.worst = Some(rule);
        }
        if bound == Bound::Never && self.losing.is_none() {
            self.losing = Some(i);
        }
    }
}
