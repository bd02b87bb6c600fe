// A test program over `session`: moves of samples A, B and C with the session before and after, every refusal, and the edges of
// heights, letters and rule numbers, each by value and lent, against what documents 01 and 02 demand. It prints the moves of the samples, a line for each
// case that fails, and then how many were tried and how many failed.
//
// It leaves out what the contracts say for all inputs: these are cases.
#![tactic(auto)]

mod cases;
mod edges;
mod refusals;
mod samples;
mod sessions;

use crate::edges::every_edge;
use crate::refusals::every_refusal;
use crate::samples::every_sample;
use output::Tally;
use std::io;

fn main(rt: HostRuntime) -> io::Result<()> {
    let mut t = Tally::new(rt.stdout());
    every_sample(&mut t);
    every_refusal(&mut t);
    every_edge(&mut t);
    println!(rt; "session cases: {} tried, {} failed", t.tried, t.failed)
}
