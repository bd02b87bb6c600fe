// A round by the walk of its runs: head by head, rule by rule and run by run, each run's entry added at its place. Runs that have no
// entry of the last round are left out: what they give is in the table already.
//
// It has the jobs of a round and the lists of ends of Abelard's later rules. It leaves out the enumeration of a job's runs with its memo,
// which is that of `enumeration`, what a round is, which is below both, and the order of rounds and their end, which are the solver's.
#![tactic(auto)]

mod ends;
mod round;

pub use round::take_wide;
