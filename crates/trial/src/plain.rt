// The plain solver, written apart from the library: it tries moves up to a depth, Éloise some rule and Abelard every rule, and
// reads the target automaton as document 01 has it. It uses nothing of solver and judge.
ghost use Rattle.std.specs.Iterator.{at_most};
ghost use Rattle.std.specs.Prelude.{◌<◌};

use crate::games::{Made, Rule};
use std::fmt;

const BASE: usize = 8;

// Stacks up to this number can take two letters more.
pub const TALL: usize = 1000000000000000;

// A control state and a stack. A stack is a number: its digits of base 8 are the letters above the bottom, the top one lowest. No letter
// above the bottom is 0, so the number 0 is the bottom alone.
#[derive(Clone, Copy, Debug, Default, PartialEq, Eq)]
pub struct Position {
    pub state: u8,
    pub stack: usize,
}

impl fmt::Display for Position {
    fn fmt<W: fmt::Write>(&self, f: &mut fmt::Formatter<W>) -> fmt::Result {
        write!(f, "state {} stack {}", self.state, self.stack)
    }
}

// The letters of a stack above the bottom, from the top down.
#[derive(Clone, Copy)]
pub struct Letters(pub usize);

impl Iterator for Letters {
    type Item = u8;

    ghost remaining = { λ s. at_most s.0 };

    fn next(&mut self) -> Option<u8> {
        if self.0 == 0 {
            return None;
        }
        let letter = self.0 % BASE;
        self.0 /= BASE;
        Some(letter as u8)
    }
}

// A stack with a letter more. One that is too tall stays.
pub fn above(stack: usize, letter: u8) -> usize {
    if TALL * BASE < stack {
        return stack;
    }
    stack * BASE + usize::from(letter) % BASE
}

// The letters above the bottom in the other order.
pub fn turned(stack: usize) -> usize {
    Letters(stack).fold(0, above)
}

// The set of one state below 8.
pub fn bit(state: u8) -> u8
    ensures { 0 < result }
{
    1 << (state % 8)
}

impl Rule {
    pub fn is_of_head(&self, state: u8, letter: u8) -> bool {
        self.from == state && self.top == letter
    }

    pub fn is_of(&self, p: Position) -> bool {
        self.is_of_head(p.state, (p.stack % BASE) as u8)
    }

    // The position that the rule leads to.
    pub fn played(&self, p: Position) -> Position {
        let rest = p.stack / BASE;
        let stack = match self.count {
            0 => rest,
            1 => above(rest, self.above),
            _ => above(above(rest, self.below), self.above),
        };
        Position {
            state: self.to,
            stack,
        }
    }
}

impl Made {
    pub fn is_abelards(&self, state: u8) -> bool {
        self.abelard & bit(state) != 0
    }

    // The position is won in so many moves.
    pub fn wins(&self, p: Position, depth: usize) -> bool {
        if self.is_target(p) {
            return true;
        }
        if depth == 0 {
            return false;
        }
        let all = self.is_abelards(p.state);
        for rule in self.rules.as_slice().iter() {
            if rule.is_of(p) && self.wins(rule.played(p), depth - 1) != all {
                return !all;
            }
        }
        all
    }

    // The position is in the target: its control state accepts its stack. The states that accept are found from the bottom up.
    pub fn is_target(&self, p: Position) -> bool {
        let mut accepting = self.states_on(0, self.finals);
        for letter in Letters(turned(p.stack)) {
            accepting = self.states_on(letter, accepting);
        }
        accepting & bit(p.state) != 0
    }

    // The states that have a transition on the letter all of whose set accepts the rest.
    pub fn states_on(&self, letter: u8, accepting: u8) -> u8 {
        let mut states = 0;
        for target in self.targets.as_slice().iter() {
            if target.letter == letter && target.set & accepting == target.set {
                states |= bit(target.state);
            }
        }
        states
    }
}
