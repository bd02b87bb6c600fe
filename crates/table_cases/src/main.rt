// A test program over question 13 in parts: the table of sample D is cut after every entry and checked part by part, sound and with one
// entry damaged, and parts of it are checked by direct calls. It prints what was tried, how often, and how many checks failed, with a line
// for each that did. What is expected is worked out from document 01.
//
// That two calls answer as one, whatever the table, is the contract of `form_of_parts`; these are cases. It leaves out tables of a length
// out of form, which have no parts, and damage to two entries at once.
#![tactic(auto)]

mod calls;
mod cases;
mod cuts;
mod damage;
mod entries;
mod expected;
mod parts;

use crate::calls::every_call;
use crate::cases::{Case, What};
use crate::cuts::every_group;
use crate::entries::{ENTRIES, LETTERS, Sample, WORDS, entry_at, fields_of};
use game::Game;
use output::Tally;
use script::File;
use solver::solve;
use std::io;
use std::io::Stdout;

// Solves the sample.
fn main(rt: HostRuntime) -> io::Result<()> {
    let mut file = File::<512>::new();
    file.sample_d(LETTERS);
    let mut table = [0; WORDS];
    let mut work = [0; WORDS];
    let _ = solve(file.as_slice(), &mut table, &mut work);
    over_file(rt.stdout(), file.as_slice(), &table)
}

// Reads the file, for its sizes and rules, and makes all checks over its table.
fn over_file(out: Stdout, file: &[u8], table: &[u32; WORDS]) -> io::Result<()> {
    let game = match Game::read(file) {
        Ok(game) => game,
        Err(refusal) => return println!(out; "{refusal}"),
    };
    let rules = game.rules;
    let sample = Sample {
        sizes: game.sizes(),
        rules: &rules,
        table,
    };
    every_check(out, &sample)
}

fn every_check(out: Stdout, sample: &Sample<'_>) -> io::Result<()> {
    let mut t = every_entry(out, sample.table);
    println!(out;
        "entries of sample D: {} checks, {} failed",
        t.tried, t.failed
    )?;
    every_group(&mut t, sample);
    every_call(&mut t, sample);
    println!(out; "in all: {} checks, {} failed", t.tried, t.failed)
}

// The table's entries are those that the kinds of damage start from.
fn every_entry(out: Stdout, table: &[u32; WORDS]) -> Tally {
    let mut t = Tally::new(out);
    for i in 0..ENTRIES {
        let case = Case {
            what: What::Entry,
            entry: i,
            cut: 0,
        };
        let same = entry_at(table, i) == fields_of(i).words();
        t.check(same, format_args!("failed: {case}"));
    }
    t
}
