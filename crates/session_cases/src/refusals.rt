// Every refusal, with the session as it was.
use crate::cases::{check, refuses};
use crate::sessions::{of, tall};
use game::{Game, Question};
use output::Tally;
use script::{File, SAMPLE_A, SAMPLE_C, byte_of, front};
use session::Session;

pub fn every_refusal(t: &mut Tally) {
    refused_lengths(t);
    refused_files(t);
    refused_many(t);
    cuts(t, SAMPLE_A);
    refused_heights(t, SAMPLE_A);
    refused_letters(t, SAMPLE_A);
    refused_rules(t, SAMPLE_A);
    too_high(t, SAMPLE_C);
}

// 1, and 2 to 9 with 19 in a session that could be played.
fn refused_lengths(t: &mut Tally) {
    let s = of(0, 1, [0, 3, 3, 3], 3);
    let long = [1u8; Game::MAX_FILE + 1];
    let full = [1u8; Game::MAX_FILE];
    refuses(t, b"", s, 0, Question::Length.at(0));
    refuses(t, &long, s, 0, Question::Length.at(0));
    refuses(t, &full, s, 0, Question::Range.at(0));
}

fn refused_files(t: &mut Tally) {
    let s = of(0, 1, [0, 3, 3, 3], 3);
    refuses(t, b"\x09", s, 0, Question::Known.at(0));
    refuses(t, b"\x01\x01", s, 0, Question::Operands.at(0));
    refused_cut(t, s);
    refuses(t, b"\xff", s, 0, Question::Order.at(0));
    refuses(t, b"\x01\x00\x02\x01\xff", s, 0, Question::Range.at(0));
    let bare = b"\x01\x01\x02\x01\x04\x00\x00\x00\x00\x00\x00\xff";
    refuses(t, bare, s, 0, Question::Bottom.at(4));
    let twice = b"\x01\x01\x02\x01\x04\x00\x00\x00\x01\x00\x00\x04\x00\x00\x00\x01\x00\x00\xff";
    refuses(t, twice, s, 0, Question::New.at(11));
    refuses(t, b"\x01\x01\x02\x01\xff\xff", s, 0, Question::Last.at(4));
    refuses(t, b"\x01\x01\x02\x01\xff", s, 0, Question::Heads.at(4));
}

// 19 and 2 after a whole command: a rule that is cut, with operands out of range; a second 01 that is cut; an unknown byte.
fn refused_cut(t: &mut Tally, s: Session) {
    refuses(
        t,
        b"\x01\x02\x03\x02\x04\x63\x01\x00\x01\x01",
        s,
        0,
        Question::Operands.at(4),
    );
    refuses(
        t,
        b"\x01\x02\x03\x02\x01\x02\x03",
        s,
        0,
        Question::Operands.at(4),
    );
    refuses(
        t,
        b"\x01\x02\x03\x02\x06\x02\x03",
        s,
        0,
        Question::Known.at(4),
    );
}

// 7 at the 257th rule. P 1, S 2 and L 64, and 257 rules of control state 0 that write one letter: each of the 63 above the bottom on the
// first of them, then on the next.
fn refused_many(t: &mut Tally) {
    let mut file = File::<1803>::new();
    file.extend(&[1, 1, 2, 64]);
    for i in 0..257 {
        let top = byte_of(i / 63 + 1);
        let letter = byte_of(i % 63 + 1);
        file.command(4, [0, top, 0, 1, letter, 0]);
    }
    let s = of(0, 1, [0, 3, 3, 3], 3);
    refuses(t, file.as_slice(), s, 0, Question::Room.at(1796));
}

// Each cut of a file is refused as the reader refuses it, in a session that is out of form too.
fn cuts(t: &mut Tally, file: &[u8]) {
    let s = of(7, 999, [9, 9, 9, 9], 9);
    for n in 0..file.len() {
        let cut = front(file, n);
        match Game::read(cut) {
            Ok(_) => check(t, false, 0, 1),
            Err(refusal) => refuses(t, cut, s, 77, refusal),
        }
    }
}

// 14 by the height and the state, before 16.
fn refused_heights(t: &mut Tally, file: &[u8]) {
    refuses(
        t,
        file,
        of(0, 0, [0, 1, 0, 0], 0),
        0,
        Question::Position.at(0),
    );
    refuses(
        t,
        file,
        of(0, 300, [0, 1, 1, 1], 1),
        1,
        Question::Position.at(0),
    );
    refuses(t, file, tall(0, usize::MAX, 1), 1, Question::Position.at(0));
    refuses(
        t,
        file,
        of(2, 1, [0, 0, 0, 0], 0),
        0,
        Question::Position.at(0),
    );
    refuses(
        t,
        file,
        of(255, 2, [0, 1, 0, 0], 0),
        u32::MAX,
        Question::Position.at(0),
    );
}

// 14 by the letters: another letter at the bottom, a bottom letter above it, a letter that the game has not.
fn refused_letters(t: &mut Tally, file: &[u8]) {
    refuses(
        t,
        file,
        of(0, 1, [1, 0, 0, 0], 0),
        1,
        Question::Position.at(0),
    );
    refuses(
        t,
        file,
        of(0, 2, [1, 1, 0, 0], 0),
        1,
        Question::Position.at(0),
    );
    refuses(
        t,
        file,
        of(0, 3, [0, 0, 1, 4], 4),
        1,
        Question::Position.at(0),
    );
    refuses(
        t,
        file,
        of(0, 2, [0, 0, 1, 4], 4),
        0,
        Question::Position.at(0),
    );
    refuses(
        t,
        file,
        of(0, 2, [0, 2, 0, 0], 0),
        1,
        Question::Position.at(0),
    );
    refuses(
        t,
        file,
        of(0, 3, [0, 255, 1, 0], 0),
        1,
        Question::Position.at(0),
    );
}

// 16: a rule of another head, and numbers that no rule has.
fn refused_rules(t: &mut Tally, file: &[u8]) {
    let s = of(0, 2, [0, 1, 6, 6], 6);
    refuses(t, file, s, 0, Question::Head.at(0));
    refuses(t, file, s, 4, Question::Head.at(0));
    refuses(t, file, s, 6, Question::Head.at(0));
    refuses(t, file, s, 256, Question::Head.at(0));
    refuses(t, file, s, 257, Question::Head.at(0));
    refuses(t, file, s, u32::MAX, Question::Head.at(0));
}

// 17, after 16.
fn too_high(t: &mut Tally, file: &[u8]) {
    let s = tall(0, 256, 1);
    refuses(t, file, s, 1, Question::Height.at(0));
    refuses(t, file, s, 2, Question::Head.at(0));
}
