// The rounds: what they are, what solving is, and the theorems about both, in `specs/`; and the code that every way of taking a
// round uses: one entry added to a table, the next rule of a head, the highest state of a set.
//
// It leaves out how a round is taken, which is above it.
#![tactic(auto)]

mod adding;
mod scan;

pub use adding::{insert, put};
pub use scan::{highest, next_rule};
