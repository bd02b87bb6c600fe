// The checklist of a field engineer, as text: cut game files, told from files with an unknown command; the same game solved twice;
// positions where a branch of Abelard's loses; and Abelard playing worst. Each line says what was tried, how often, and passed or
// failed; the last line has the totals. A file or a play that fails prints a line of its own before that.
//
// It leaves out what the contracts say for all inputs: these are cases. It leaves out files that are damaged in another way, which
// are those of `game_cases`, and random games, which are those of `trial`.
#![tactic(auto)]

mod areas;
mod branches;
mod cuts;
mod digest;
mod ending;
mod plays;
mod samples;
mod sessions;
mod twice;

use crate::areas::Areas;
use crate::branches::every_case;
use crate::cuts::every_file;
use crate::ending::Ending;
use crate::plays::every_game;
use crate::twice::every_solve;
use output::Tally;
use std::io;

fn main(rt: HostRuntime) -> io::Result<()> {
    println!(rt;
        "Games A to D are the samples of document 01, D40 with 40 letters; E1 to E4 and F are made here."
    )?;
    let mut areas = Areas::new();
    let mut t = Tally::new(rt.stdout());
    every_file(&mut t, &mut areas);
    every_solve(&mut t, &mut areas);
    every_case(&mut t, &mut areas);
    every_game(&mut t, &mut areas);
    println!(rt;
        "checklist: {} tries, {} failed: {}",
        t.tried,
        t.failed,
        Ending(t)
    )
}
