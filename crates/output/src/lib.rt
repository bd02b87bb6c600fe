// What the programs share: input read into a buffer, and the tally of the test programs.
#![tactic(auto)]

mod input;
mod tally;

pub use input::read_full;
pub use tally::Tally;
