// The trial of solver and judge: sample D with 1 to 41 letters above the bottom, the edges of document 01, and random small
// games from a fixed seed against a plain solver written apart from this one, which tries moves up to a depth. From positions that are
// won Éloise plays as advised, from those that are lost Abelard. It prints what was tried, how often, and how many checks failed, with
// a line for each that did.
//
// It leaves out what the contracts say for all inputs: these are cases. It leaves out the reader's own cases, which are those
// of `game_cases`.
#![tactic(auto)]

mod cases;
mod contests;
mod counts;
mod edges;
mod games;
mod plain;
mod plays;
mod samples;
mod told;
mod trials;

use crate::cases::Areas;
use crate::edges::every_edge;
use crate::samples::{every_d, every_small};
use crate::trials::every_game;
use std::io;

fn main(rt: HostRuntime) -> io::Result<()> {
    let out = rt.stdout();
    let mut areas = Areas::new();
    let small = every_small(out, &mut areas);
    println!(rt;
        "samples A, B and C: {} checks, {} failed",
        small.tried, small.failed
    )?;
    let d = every_d(out, &mut areas);
    println!(rt;
        "sample D with 1 to 41 letters: {} checks, {} failed",
        d.tried, d.failed
    )?;
    let edges = every_edge(out, &mut areas);
    println!(rt; "edges: {} checks, {} failed", edges.tried, edges.failed)?;
    every_game(out, &mut areas).print(&rt)
}
