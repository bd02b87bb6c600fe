// Cases of one file: of solving it over areas of such lengths, and of judging positions over the table that solving leaves.
use crate::told::{Told, held, same};
use game::{Game, Refusal};
use judge::{Verdict, judge};
use output::Tally;
use script::{File, front, lent};
use solver::{Solved, solve};
use table::EntryWords;

// The words of a whole table.
pub const WHOLE: usize = EntryWords::STRIDE * Game::MAX_ENTRIES;

// There is room for more words than may be lent.
const ROOM: usize = 6150;

// What is lent for a table and for work.
#[derive(Drop)]
pub struct Areas {
    pub table: [u32; ROOM],
    pub work: [u32; ROOM],
}

// The words of the table, those of the work area, and the answer.
#[derive(Clone, Copy)]
pub struct Solving(pub usize, pub usize, pub Result<Solved, Refusal>);

// A control state, a letter, how often it stands above the bottom, and the verdict.
#[derive(Clone, Copy)]
pub struct Judging(pub u8, pub u8, pub usize, pub Result<Verdict, Refusal>);

pub fn solved(entries: usize, rounds: u32) -> Result<Solved, Refusal> {
    Ok(Solved { entries, rounds })
}

pub fn eloise(rule: u32, bound: u64) -> Result<Verdict, Refusal> {
    Ok(Verdict::Eloise { rule, bound })
}

pub fn abelard(bound: u64) -> Result<Verdict, Refusal> {
    Ok(Verdict::Abelard { bound })
}

impl Areas {
    pub fn new() -> Areas {
        Areas {
            table: [0; ROOM],
            work: [0; ROOM],
        }
    }

    // Solving over whole areas.
    pub fn solve(&mut self, file: &[u8]) -> Result<Solved, Refusal> {
        solve(
            file,
            lent(&mut self.table, WHOLE),
            lent(&mut self.work, WHOLE),
        )
    }

    // The whole table.
    pub fn table(&self) -> &[u32] {
        front(&self.table, WHOLE)
    }

    // The cases of solving.
    pub fn every_solve(&mut self, t: &mut Tally, file: &[u8], cases: &[Solving]) {
        for Solving(table, work, expected) in cases {
            let table = lent(&mut self.table, *table);
            let work = lent(&mut self.work, *work);
            does_solve(t, Told::from(*expected), file, table, work);
        }
    }

    // The cases of judging, over the table that solving leaves.
    pub fn every_judge(&mut self, t: &mut Tally, file: &[u8], cases: &[Judging]) {
        let _ = self.solve(file);
        for Judging(state, letter, n, expected) in cases {
            let mut position = File::<300>::new();
            position.high(*state, *letter, *n);
            let judged = judge(file, self.table(), position.as_slice());
            same(t, Told::from(*expected), Told::from(judged));
        }
    }
}

// Solving answers as expected over areas that held other words before, and leaves the same words again.
fn does_solve(t: &mut Tally, expected: Told, file: &[u8], table: &mut [u32], work: &mut [u32]) {
    solve_over(t, expected, file, table, work, u32::MAX);
    let mut first = [0; ROOM];
    for (to, from) in first.iter_mut().zip(table.iter()) {
        *to = *from;
    }
    solve_over(t, expected, file, table, work, 1);
    held(t, first.starts_with(table));
}

// The same once, over areas that held this word everywhere. The work area is zero afterwards, and after a refusal the table too.
fn solve_over(
    t: &mut Tally,
    expected: Told,
    file: &[u8],
    table: &mut [u32],
    work: &mut [u32],
    before: u32,
) {
    table.fill(before);
    work.fill(before);
    let got = Told::from(solve(file, table, work));
    same(t, expected, got);
    held(t, work.iter().all(|x| *x == 0));
    if matches!(got, Told::Refused(_)) {
        held(t, table.iter().all(|x| *x == 0));
    }
}
