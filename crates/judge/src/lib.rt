// The judge: worths of all states on a stack, the bound, the advised rule, the rule of a lost position, and the verdict on a position
// over a table.
//
// It asks nothing of where the table comes from: any words of the right form are judged by the bound's definition.
// It leaves out solving.
#![tactic(auto)]

mod judging;
mod losing;
mod verdict;
mod worth;

pub use judging::judge;
pub use verdict::{Verdict, verdict_on};
pub use worth::{letter_step, worths};
