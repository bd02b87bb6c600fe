// What is lent to the solver for a table and for work: room for a whole table.
use game::{Game, Refusal};
use script::{front, lent};
use solver::{Solved, solve};
use table::EntryWords;

#[derive(Drop)]
pub struct Areas {
    pub table: [u32; Areas::WHOLE],
    pub work: [u32; Areas::WHOLE],
}

impl Areas {
    pub const WHOLE: usize = EntryWords::STRIDE * Game::MAX_ENTRIES;

    // The words of small areas: 64 entries.
    const SMALL: usize = 192;

    pub fn new() -> Areas {
        Areas {
            table: [0; Areas::WHOLE],
            work: [0; Areas::WHOLE],
        }
    }

    // Solving, over areas that held these words everywhere.
    pub fn solve_over(&mut self, file: &[u8], table: u32, work: u32) -> Result<Solved, Refusal> {
        self.table.fill(table);
        self.work.fill(work);
        solve(file, &mut self.table, &mut self.work)
    }

    pub fn is_work_zero(&self) -> bool {
        self.work.iter().all(|x| *x == 0)
    }

    pub fn is_table_zero(&self) -> bool {
        self.table.iter().all(|x| *x == 0)
    }

    // The table of a game, solved over small areas.
    pub fn small_table(&mut self, file: &[u8]) -> &[u32] {
        let table = lent(&mut self.table, Areas::SMALL);
        let _ = solve(file, table, lent(&mut self.work, Areas::SMALL));
        front(&self.table, Areas::SMALL)
    }
}
