// Random small games: 1 to 3 control states, 1 or 2 further ones, 2 to 4 letters. They pass the file's questions: every head has a
// rule, no rule removes the bottom, and no command is equal to another, by the way they are chosen.
//
// A choice depends on the game's number and on a number of its own alone, so a game can be made again from its number.
ghost use Rattle.std.specs.Prelude.{◌≤◌};

use crate::plain::bit;
use arrayvec::ArrayVec;
use script::byte_of;

#[derive(Clone, Copy, Debug, Default, PartialEq, Eq)]
pub struct Rule {
    pub from: u8,
    pub top: u8,
    pub to: u8,
    pub count: u8,
    pub above: u8,
    pub below: u8,
}

#[derive(Clone, Copy, Debug, Default, PartialEq, Eq)]
pub struct Target {
    pub state: u8,
    pub letter: u8,
    pub set: u8,
}

// What the plain solver and the plays know of a game: its sizes, Abelard's states and the final ones as sets, its rules and its target
// transitions. And its file. All have room in the game itself, so that a trial needs no memory of its own.
#[derive(Drop)]
pub struct Made {
    pub sizes: Sizes,
    pub abelard: u8,
    pub finals: u8,
    pub rules: ArrayVec<Rule, RULES>,
    pub targets: ArrayVec<Target, TRANSITIONS>,
    pub file: ArrayVec<u8, BYTES>,
}

// A game's number and its sizes.
#[derive(Clone, Copy, Debug, PartialEq, Eq)]
pub struct Sizes {
    pub number: usize,
    pub control: u8,
    pub further: u8,
    pub letters: u8,
}

// Heads are numbered with room for this many letters, and transitions with room for this many sets.
const LETTERS: usize = 4;

const SETS: usize = 3;

// The numbers of heads and of transitions end here.
const HEADS: usize = 12;

const TRANSITIONS: usize = 60;

// Three rules of each head, and the bytes of a file with all of them, with all transitions, and with eight states in each set.
const RULES: usize = 3 * HEADS;

const BYTES: usize = 4 + 2 * 8 + 2 * 8 + 7 * RULES + 7 * TRANSITIONS + 1;

// A number below n, chosen by a game's number and the choice's own.
pub fn drawn(number: usize, choice: usize, n: usize) -> usize
    ensures { result ≤ n }
{
    if n == 0 {
        return 0;
    }
    let x = (number % 65536 * 4096 + choice % 4096 + 1) as u32;
    mixed(mixed(mixed(x))) as usize / 16 % n
}

// A number that shows little of the one that it is made of.
fn mixed(x: u32) -> u32 {
    (x ^ (x >> 16)).wrapping_mul(73244475)
}

// Bytes at a file's end. There is room for those of any game.
fn put(file: &mut ArrayVec<u8, BYTES>, bytes: &[u8]) {
    let _ = file.try_extend_from_slice(bytes);
}

impl Made {
    // The game of a number.
    pub fn new(number: usize) -> Made {
        let sizes = Sizes::of(number);
        let mut game = Made {
            sizes,
            abelard: byte_of(drawn(number, 3, usize::from(bit(sizes.control)))),
            finals: sizes.finals(),
            rules: sizes.rules(),
            targets: sizes.targets(),
            file: ArrayVec::new(),
        };
        game.put_file();
        game
    }

    fn put_file(&mut self) {
        let Sizes {
            control,
            further,
            letters,
            ..
        } = self.sizes;
        put(
            &mut self.file,
            &[1, control, control.saturating_add(further), letters],
        );
        self.put_members(2, self.abelard);
        self.put_members(3, self.finals);
        for rule in self.rules.as_slice().iter() {
            let Rule {
                from,
                top,
                to,
                count,
                above,
                below,
            } = *rule;
            put(&mut self.file, &[4, from, top, to, count, above, below]);
        }
        for target in self.targets.as_slice().iter() {
            let Target { state, letter, set } = *target;
            put(&mut self.file, &[5, state, letter, set, 0, 0, 0]);
        }
        put(&mut self.file, &[255]);
    }

    // A command of one operand for each member of a set of states below 8.
    fn put_members(&mut self, code: u8, set: u8) {
        for q in 0..8 {
            if set & bit(q) != 0 {
                put(&mut self.file, &[code, q]);
            }
        }
    }
}

impl Sizes {
    fn of(number: usize) -> Sizes {
        Sizes {
            number,
            control: byte_of(drawn(number, 0, 3) + 1),
            further: byte_of(drawn(number, 1, 2) + 1),
            letters: byte_of(drawn(number, 2, 3) + 2),
        }
    }

    fn drawn(&self, choice: usize, n: usize) -> usize {
        drawn(self.number, choice, n)
    }

    // The first further state is final, and of two perhaps the second.
    fn finals(&self) -> u8 {
        let first = bit(self.control);
        if self.further < 2 || self.drawn(4, 2) == 0 {
            return first;
        }
        first | bit(self.control.saturating_add(1))
    }

    // One to three rules of every head.
    fn rules(&self) -> ArrayVec<Rule, RULES> {
        let mut rules = ArrayVec::new();
        for p in 0..self.control {
            for a in 0..self.letters {
                let head = (usize::from(p) * LETTERS + usize::from(a)) % HEADS;
                for j in 0..self.drawn(16 + head, 3).saturating_add(1) {
                    if let Some(rule) = self.rule(p, a, head, j) {
                        let _ = rules.try_push(rule);
                    }
                }
            }
        }
        rules
    }

    // The rule j of a head, if the head can have so many. Its rules differ in control state or in how many letters they write: there are 2
    // numbers on the bottom, 3 elsewhere. The step from one rule to the next has no divisor in common with 2, 3, 4, 6 and 9, so that no way
    // is met twice before all are met.
    fn rule(&self, p: u8, a: u8, head: usize, j: usize) -> Option<Rule> {
        let control = usize::from(self.control);
        let ways = control * if a == 0 { 2 } else { 3 };
        if ways <= j {
            return None;
        }
        let step = match self.drawn(48 + head % HEADS, 3) {
            0 => 1,
            1 => 5,
            _ => 7,
        };
        let x = (self.drawn(32 + head % HEADS, 9) % 9) + step * (j % 9);
        let way = x % ways;
        let above = self.letter(head, j, 0);
        let below = self.letter(head, j, 1);
        let (count, above, below) = match (a, way.checked_div(control)?) {
            (0, 0) => (1, 0, 0),
            (0, _) => (2, above, 0),
            (_, 0) => (0, 0, 0),
            (_, 1) => (1, above, 0),
            _ => (2, above, below),
        };
        Some(Rule {
            from: p,
            top: a,
            to: byte_of(way.checked_rem(control)?),
            count,
            above,
            below,
        })
    }

    // A letter above the bottom that a rule writes.
    fn letter(&self, head: usize, j: usize, place: usize) -> u8 {
        if self.letters < 2 {
            return 1;
        }
        let choice = 64 + head % HEADS * 8 + j % 4 * 2 + place % 2;
        byte_of(self.drawn(choice, usize::from(self.letters) - 1) % 8 + 1)
    }

    // The target transitions: one on the bottom for some control state, and others by chance.
    fn targets(&self) -> ArrayVec<Target, TRANSITIONS> {
        let mut targets = ArrayVec::new();
        for i in 0..TRANSITIONS {
            if let Some(target) = self.target(i) {
                let _ = targets.try_push(target);
            }
        }
        targets
    }

    // The transition of a number, if the game has its state, letter and set and it is chosen. Its set is one of further states.
    fn target(&self, i: usize) -> Option<Target> {
        let state = byte_of(i / SETS / LETTERS);
        let letter = byte_of(i / SETS % LETTERS);
        let set = byte_of(i % SETS + 1);
        let there = state < self.control.saturating_add(self.further)
            && letter < self.letters
            && set < bit(self.further);
        if !there || !self.is_chosen(i, state) {
            return None;
        }
        Some(Target {
            state,
            letter,
            set: set << (self.control % 4),
        })
    }

    fn is_chosen(&self, i: usize, state: u8) -> bool {
        let odds = if state < self.control { 20 } else { 3 };
        i == self.drawn(5, usize::from(self.control)) % 8 * (SETS * LETTERS)
            || self.drawn(256 + i % TRANSITIONS, odds) == 0
    }
}
