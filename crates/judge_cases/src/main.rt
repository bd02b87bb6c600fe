// A test program over `judge`. Its input is a script of cases: game files, tables and positions, built in buffers, each with
// the verdict, or the number and place, that documents 01 and 02 demand. It prints a line for each case that fails, and then how many
// were tried and how many failed. `words.rt` lists the words of a script.
//
// It leaves out what the contracts say for all inputs: these are cases.
#![tactic(auto)]

mod build;
mod told;
mod words;

use crate::words::run;
use output::read_full;
use script::{Cases, Script};
use std::io;

fn main(rt: HostRuntime) -> io::Result<()> {
    let mut buffer = [0u8; 65536];
    let text = read_full(&mut rt.stdin(), &mut buffer)?;
    let mut t = Cases::new(rt.stdout());
    run(&mut t, Script::new(text));
    t.print("judge")
}
