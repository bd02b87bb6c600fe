// The edges of heights, letters, states and rule numbers.
use crate::cases::{plays, refuses};
use crate::sessions::{filled, of, tall, with};
use game::{Game, Question};
use output::Tally;
use script::{SAMPLE_A, SAMPLE_C};

pub fn every_edge(t: &mut Tally) {
    at_the_top(t, SAMPLE_A);
    up_to_the_top(t, SAMPLE_C);
    every_height(t, SAMPLE_A);
    every_cell(t, SAMPLE_A);
    every_state(t, SAMPLE_A);
    every_head(t, SAMPLE_A);
}

// Heights 255 to 257: a pop, a letter rewritten, and none.
fn at_the_top(t: &mut Tally, file: &[u8]) {
    plays(t, file, tall(1, 255, 1), 4, filled(0, 254, 1));
    plays(t, file, tall(1, 256, 1), 4, filled(0, 255, 1));
    plays(t, file, tall(1, 256, 1), 5, filled(0, 256, 1));
    refuses(t, file, tall(1, 257, 1), 5, Question::Position.at(0));
}

// A word of two letters at heights 254 and 255.
fn up_to_the_top(t: &mut Tally, file: &[u8]) {
    let low = with(with(filled(0, 255, 1), 253, 2), 254, 2);
    plays(t, file, tall(0, 254, 1), 1, low);
    let high = with(with(filled(0, 256, 1), 254, 2), 255, 2);
    plays(t, file, tall(0, 255, 1), 1, high);
}

// Every height from 0 to 300, with rule 5 of A, which keeps the stack: 14 outside 1 to 256, and 16 at the bottom.
fn every_height(t: &mut Tally, file: &[u8]) {
    for h in 0..301 {
        let s = tall(1, h, 1);
        match h {
            1 => refuses(t, file, s, 5, Question::Head.at(0)),
            2..=Game::MAX_STACK => plays(t, file, s, 5, filled(0, h, 1)),
            _ => refuses(t, file, s, 5, Question::Position.at(0)),
        }
    }
}

// Every cell of a whole stack with a letter that may not be there: 14. The cells from the height up are not looked at.
fn every_cell(t: &mut Tally, file: &[u8]) {
    for i in 0..Game::MAX_STACK {
        for wrong in [u8::from(i == 0), 2] {
            let s = with(tall(1, 256, 1), i, wrong);
            refuses(t, file, s, 5, Question::Position.at(0));
        }
        if 2 <= i {
            plays(t, file, with(tall(1, i, 1), i, 77), 5, filled(0, i, 1));
        }
    }
}

// Every state: those of the game are 0 and 1.
fn every_state(t: &mut Tally, file: &[u8]) {
    for p in 2..=u8::MAX {
        refuses(t, file, tall(p, 9, 1), 5, Question::Position.at(0));
    }
}

// Every rule number from 0 to 300 at the four heads of A: 16 for each but the head's own.
fn every_head(t: &mut Tally, file: &[u8]) {
    every_rule(t, file, 0, 1, 0, 0);
    every_rule(t, file, 0, 2, 1, 2);
    every_rule(t, file, 1, 1, 3, 3);
    every_rule(t, file, 1, 2, 4, 5);
}

fn every_rule(t: &mut Tally, file: &[u8], p: u8, height: usize, first: u32, last: u32) {
    let s = of(p, height, [0, 1, 1, 1], 1);
    for n in 0..301 {
        if n < first || last < n {
            refuses(t, file, s, n, Question::Head.at(0));
        }
    }
}
