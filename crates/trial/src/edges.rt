// The edges: the longest file and one byte more, 256 and 257 rules, heights 256 and 257, and areas of every wrong length.
use crate::cases::{Areas, Judging, Solving, abelard, eloise, solved};
use game::{Question, Refusal};
use output::Tally;
use script::{File, SAMPLE_A, byte_of, front};
use std::io::Stdout;

// The letters above the bottom in the game of many rules.
const LETTERS: usize = 16;

pub fn every_edge(out: Stdout, areas: &mut Areas) -> Tally {
    let mut t = Tally::new(out);
    every_length(&mut t, areas);
    every_cut(&mut t, areas);
    every_height(&mut t, areas);
    every_size(&mut t, areas);
    most_rules(&mut t, areas);
    one_rule_more(&mut t, areas);
    t
}

// Areas of unequal length, of lengths that are no multiple of 3, and too short or too long.
fn every_length(t: &mut Tally, areas: &mut Areas) {
    let refused = Err(Question::Areas.at(0));
    let solving = [
        Solving(12, 9, refused),
        Solving(9, 12, refused),
        Solving(6144, 6141, refused),
        Solving(13, 13, refused),
        Solving(14, 14, refused),
        Solving(6143, 6143, refused),
        Solving(0, 0, refused),
        Solving(1, 1, refused),
        Solving(2, 2, refused),
        Solving(6145, 6145, refused),
        Solving(6147, 6147, refused),
        Solving(0, 12, refused),
        Solving(15, 15, solved(4, 2)),
    ];
    areas.every_solve(t, SAMPLE_A, &solving);
}

// A file that is cut between two commands, and one that is cut within a command. It is refused first, whatever the lengths.
fn every_cut(t: &mut Tally, areas: &mut Areas) {
    refused_cut(t, areas, 57, Question::Last.at(57));
    refused_cut(t, areas, 55, Question::Operands.at(50));
}

fn refused_cut(t: &mut Tally, areas: &mut Areas, n: usize, refusal: Refusal) {
    let solving = [
        Solving(5, 7, Err(refusal)),
        Solving(12, 12, Err(refusal)),
        Solving(0, 0, Err(refusal)),
    ];
    areas.every_solve(t, front(SAMPLE_A, n), &solving);
}

// 256 letters are judged, 257 are not.
fn every_height(t: &mut Tally, areas: &mut Areas) {
    let refused = Err(Question::Position.at(0));
    let judging = [
        Judging(0, 1, 254, eloise(2, 254)),
        Judging(0, 1, 255, eloise(2, 255)),
        Judging(1, 1, 255, abelard(257)),
        Judging(0, 1, 256, refused),
        Judging(1, 1, 256, refused),
        Judging(0, 1, 298, refused),
    ];
    areas.every_judge(t, SAMPLE_A, &judging);
}

// Sample A with bytes after its end: 4,096 bytes, which a later question refuses, and 4,097. And no bytes.
fn every_size(t: &mut Tally, areas: &mut Areas) {
    let mut file = File::<5000>::new();
    file.extend(SAMPLE_A);
    file.set_len(4096);
    whole_refused(t, areas, file.as_slice(), Question::Last.at(57));
    file.set_len(4097);
    whole_refused(t, areas, file.as_slice(), Question::Length.at(0));
    whole_refused(t, areas, b"", Question::Length.at(0));
}

fn whole_refused(t: &mut Tally, areas: &mut Areas, file: &[u8], refusal: Refusal) {
    areas.every_solve(t, file, &[Solving(6144, 6144, Err(refusal))]);
}

// 256 rules, the last of which is advised.
fn most_rules(t: &mut Tally, areas: &mut Areas) {
    let solving = [
        Solving(6144, 6144, solved(17, 1)),
        Solving(51, 51, solved(17, 1)),
        Solving(48, 48, Err(Question::Entries.at(1))),
    ];
    let file = game_of_pairs(239);
    areas.every_solve(t, file.as_slice(), &solving);
    areas.every_judge(t, file.as_slice(), &[Judging(0, 1, 1, eloise(255, 1))]);
}

// 257 rules, the last of which is refused at its offset.
fn one_rule_more(t: &mut Tally, areas: &mut Areas) {
    let file = game_of_pairs(240);
    whole_refused(t, areas, file.as_slice(), Question::Room.at(1798));
}

// A game of one control state with n + 17 rules: (0,0) to (0,[0]), the letters from 2 on popped, n pairs of letters in place
// of letter 1, and at last letter 1 popped.
fn game_of_pairs(n: usize) -> File<5000> {
    let mut file = File::new();
    file.extend(b"\x01\x01\x02\x11\x03\x01\x04\x00\x00\x00\x01\x00\x00");
    for a in 2..=LETTERS {
        file.command(4, [0, byte_of(a), 0, 0, 0, 0]);
    }
    for i in 0..n {
        let above = byte_of(i / LETTERS % LETTERS + 1);
        let below = byte_of(i % LETTERS + 1);
        file.command(4, [0, 1, 0, 2, above, below]);
    }
    file.command(4, [0, 1, 0, 0, 0, 0]);
    file.command(5, [0, 0, 2, 0, 0, 0]);
    file.push(255);
    file
}
