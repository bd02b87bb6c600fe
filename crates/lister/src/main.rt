// The lister: reads a game file from standard input, solves it, and prints rounds and entries, then a line for each entry:
// state, letter, set, birthdate, and rule number, or "-" where the entry has none. A refusal prints one line.
//
// It leaves out positions: those are the business of the program `verdicts`.
#![tactic(auto)]

use game::Game;
use output::read_full;
use solver::{Solved, solve};
use std::{fmt, io};
use table::EntryWords;

// One byte more than a file may have is enough to know that it is too long, so no more is read.
fn main(rt: HostRuntime) -> io::Result<()> {
    let mut buffer = [0u8; Game::MAX_FILE + 1];
    let mut table = [0u32; EntryWords::STRIDE * Game::MAX_ENTRIES];
    let mut work = [0u32; EntryWords::STRIDE * Game::MAX_ENTRIES];
    let file = read_full(&mut rt.stdin(), &mut buffer)?;
    match solve(file, &mut table, &mut work) {
        Ok(Solved { entries, rounds }) => {
            println!(rt; "rounds {rounds} entries {entries}")?;
            print_entries(&rt, &table)
        }
        Err(refusal) => println!(rt; "{refusal}"),
    }
}

// The entries of a table, up to the first unused one.
fn print_entries(rt: &impl Print, table: &[u32]) -> io::Result<()> {
    for i in 0..table.len() / EntryWords::STRIDE {
        let entry = EntryWords::at(table, i);
        if entry.is_unused() {
            break;
        }
        println!(rt; "{}", Row(entry))?;
    }
    Ok(())
}

// The line of an entry. Its rule field is the rule's number plus 1, or 0.
#[derive(Clone, Copy)]
struct Row(EntryWords);

impl fmt::Display for Row {
    fn fmt<W: fmt::Write>(&self, f: &mut fmt::Formatter<W>) -> fmt::Result {
        let entry = self.0;
        let (state, letter, birthdate) = (entry.state(), entry.letter(), entry.birthdate());
        write!(f, "{state} {letter} {} {birthdate} ", entry.set)?;
        match entry.rule.checked_sub(1) {
            Some(rule) => write!(f, "{rule}"),
            None => f.write_str("-"),
        }
    }
}
