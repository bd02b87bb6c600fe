// Samples A, B, C and D: their tables, verdicts, and tables that just hold them or lack one entry.
use crate::cases::{Areas, Judging, Solving, WHOLE, abelard, eloise, solved};
use crate::told::{Told, same};
use game::{Game, Question};
use judge::{Verdict, judge};
use output::Tally;
use script::{File, SAMPLE_A, SAMPLE_B, SAMPLE_C, word_of};
use std::io::Stdout;
use table::EntryWords;

// Sample D goes from 1 letter above the bottom to this number, the first at which the rounds are too many.
const MOST_LETTERS: usize = 41;

// Samples A, B and C.
pub fn every_small(out: Stdout, areas: &mut Areas) -> Tally {
    let mut t = Tally::new(out);
    sample_a(&mut t, areas);
    sample_b(&mut t, areas);
    sample_c(&mut t, areas);
    t
}

// Round 0 has 1 entry, round 1 has 3 and round 2 has 4.
fn sample_a(t: &mut Tally, areas: &mut Areas) {
    let solving = [
        Solving(6144, 6144, solved(4, 2)),
        Solving(12, 12, solved(4, 2)),
        Solving(9, 9, Err(Question::Entries.at(2))),
        Solving(6, 6, Err(Question::Entries.at(1))),
        Solving(3, 3, Err(Question::Entries.at(1))),
    ];
    let judging = [
        Judging(0, 1, 0, Ok(Verdict::Target)),
        Judging(0, 1, 1, eloise(2, 1)),
        Judging(1, 1, 1, abelard(3)),
        Judging(1, 1, 2, abelard(4)),
        Judging(1, 1, 0, abelard(1)),
    ];
    areas.every_solve(t, SAMPLE_A, &solving);
    areas.every_judge(t, SAMPLE_A, &judging);
}

// As A, but rule 5 is (1,1) to (1,[1]). Round 0 has 1 entry and round 1 has 3.
fn sample_b(t: &mut Tally, areas: &mut Areas) {
    let solving = [
        Solving(6144, 6144, solved(3, 1)),
        Solving(9, 9, solved(3, 1)),
        Solving(6, 6, Err(Question::Entries.at(1))),
    ];
    let lost = Verdict::Lost { rule: Some(5) };
    let judging = [
        Judging(1, 1, 1, Ok(lost)),
        Judging(1, 1, 2, Ok(lost)),
        Judging(1, 1, 255, Ok(lost)),
        Judging(0, 1, 1, eloise(2, 1)),
    ];
    areas.every_solve(t, SAMPLE_B, &solving);
    areas.every_judge(t, SAMPLE_B, &judging);
}

// Round 0 has 1 entry, round 1 has 2 and round 2 has 3.
fn sample_c(t: &mut Tally, areas: &mut Areas) {
    let solving = [
        Solving(6144, 6144, solved(3, 2)),
        Solving(9, 9, solved(3, 2)),
        Solving(6, 6, Err(Question::Entries.at(2))),
    ];
    areas.every_solve(t, SAMPLE_C, &solving);
    areas.every_judge(t, SAMPLE_C, &[Judging(0, 1, 1, eloise(1, 3))]);
}

// Sample D with 1 letter above the bottom and more, each with its bound at (0,[1,0]), 2^n - 1.
pub fn every_d(out: Stdout, areas: &mut Areas) -> Tally {
    let mut t = Tally::new(out);
    let mut file = File::<512>::new();
    let mut bound = 1u64;
    for n in 1..MOST_LETTERS {
        file.sample_d(n);
        one_d(&mut t, n, bound, file.as_slice(), areas);
        bound = bound.saturating_mul(2).saturating_add(1);
    }
    file.sample_d(MOST_LETTERS);
    last_d(&mut t, file.as_slice(), areas);
    t
}

// With n letters each round adds one entry, the last of them round n: a table that just holds it, one that lacks an entry, and a whole one
// with the bound over it.
fn one_d(t: &mut Tally, n: usize, bound: u64, file: &[u8], areas: &mut Areas) {
    let entries = n.saturating_add(1);
    let exact = words_of(entries);
    let short = words_of(n);
    let done = solved(entries, word_of(n));
    let solving = [
        Solving(exact, exact, done),
        Solving(short, short, Err(Question::Entries.at(n))),
        Solving(WHOLE, WHOLE, done),
    ];
    areas.every_solve(t, file, &solving);
    let judged = judge(file, areas.table(), b"\x00\x01\x00");
    same(t, Told::from(eloise(1, bound)), Told::from(judged));
}

// Rounds 0 to 40 fit 41 entries, and round 41 adds one, with room for it or without.
fn last_d(t: &mut Tally, file: &[u8], areas: &mut Areas) {
    let solving = [
        Solving(6144, 6144, Err(Question::Rounds.at(41))),
        Solving(126, 126, Err(Question::Rounds.at(41))),
        Solving(123, 123, Err(Question::Rounds.at(41))),
        Solving(120, 120, Err(Question::Entries.at(40))),
    ];
    areas.every_solve(t, file, &solving);
}

// The words of so many entries.
pub fn words_of(entries: usize) -> usize {
    EntryWords::STRIDE * entries.min(Game::MAX_ENTRIES)
}
