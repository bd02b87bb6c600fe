// The solver: from a game file to the table of the rounds, in lent areas.
//
// Rounds are taken in one of two ways: where sets have few states, over families of sets that are kept over all rounds, the work area
// having the entries in the order in which they came; else by the walk of their runs, the work area being the old round. Both leave the
// same table. It leaves out how a round is taken, which is below it.
#![tactic(auto)]

mod areas;
mod saturating;
mod solving;

pub use solving::{Solved, solve};
