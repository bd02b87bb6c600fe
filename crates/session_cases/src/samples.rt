// The moves of the samples, with the session printed before and after each. The cells above the height hold what a move must
// not look at.
use crate::cases::shows;
use crate::sessions::of;
use output::Tally;
use script::{SAMPLE_A, SAMPLE_B, SAMPLE_C};

// As C, with words of two letters that differ: 0: (0,0) to (0,[1,0]); 1: (0,1) to (0,[1,2]).
const UNLIKE: &[u8; 28] =
    b"\x01\x01\x02\x03\x03\x01\x04\x00\x00\x00\x02\x01\x00\x04\x00\x01\x00\x02\x01\x02\x04\x00\x02\x00\x00\x00\x00\xff";

pub fn every_sample(t: &mut Tally) {
    eloise_in_a(t, SAMPLE_A);
    abelard_in_a(t, SAMPLE_A);
    moves_of_b(t, SAMPLE_B);
    moves_of_c(t, SAMPLE_C);
    moves_of_unlike(t, UNLIKE);
}

// A1 and A2.
fn eloise_in_a(t: &mut Tally, file: &[u8]) {
    let bottom = of(0, 1, [0, 0, 0, 0], 0);
    shows(t, file, of(0, 1, [0, 9, 9, 9], 9), 0, bottom);
    shows(
        t,
        file,
        of(0, 2, [0, 1, 0, 0], 7),
        1,
        of(1, 2, [0, 1, 0, 0], 0),
    );
    shows(t, file, of(0, 2, [0, 1, 1, 1], 1), 2, bottom);
}

// A3 to A5.
fn abelard_in_a(t: &mut Tally, file: &[u8]) {
    let bottom = of(0, 1, [0, 0, 0, 0], 0);
    let one = of(0, 2, [0, 1, 0, 0], 0);
    let two = of(1, 3, [0, 1, 1, 200], 200);
    shows(t, file, of(1, 2, [0, 1, 5, 5], 255), 4, bottom);
    shows(t, file, of(1, 2, [0, 1, 0, 0], 0), 5, one);
    shows(t, file, two, 4, one);
    shows(t, file, two, 5, of(0, 3, [0, 1, 1, 0], 0));
    shows(t, file, of(1, 1, [0, 0, 0, 0], 1), 3, bottom);
}

// B1 and B2.
fn moves_of_b(t: &mut Tally, file: &[u8]) {
    let bottom = of(0, 1, [0, 0, 0, 0], 0);
    let lost = of(1, 2, [0, 1, 0, 0], 0);
    shows(t, file, lost, 5, lost);
    shows(t, file, lost, 4, bottom);
    let won = of(0, 2, [0, 1, 8, 0], 8);
    shows(t, file, won, 1, lost);
    shows(t, file, won, 2, bottom);
}

// C1, down to the target.
fn moves_of_c(t: &mut Tally, file: &[u8]) {
    let two = of(0, 3, [0, 2, 2, 0], 0);
    let one = of(0, 2, [0, 2, 0, 0], 0);
    let none = of(0, 1, [0, 0, 0, 0], 0);
    shows(t, file, of(0, 2, [0, 1, 1, 1], 1), 1, two);
    shows(t, file, two, 2, one);
    shows(t, file, one, 2, none);
    shows(t, file, none, 0, none);
}

// The upper letter of a word comes to lie on top.
fn moves_of_unlike(t: &mut Tally, file: &[u8]) {
    let one = of(0, 2, [0, 1, 0, 0], 0);
    shows(t, file, of(0, 1, [0, 2, 2, 2], 2), 0, one);
    shows(t, file, one, 1, of(0, 3, [0, 2, 1, 0], 0));
    shows(
        t,
        file,
        of(0, 3, [0, 2, 1, 2], 2),
        1,
        of(0, 4, [0, 2, 2, 1], 0),
    );
}
