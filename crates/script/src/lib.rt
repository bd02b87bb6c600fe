// What test programs share: the words and values of the scripts that they read, the tally of a script's cases, files built in a buffer,
// the samples of document 01, and parts and numbers made to fit.
#![tactic(auto)]

mod areas;
mod cases;
mod file;
mod numbers;
mod samples;
mod words;

pub use areas::{front, lent};
pub use cases::Cases;
pub use file::File;
pub use numbers::{byte_of, word_of};
pub use samples::{SAMPLE_A, SAMPLE_B, SAMPLE_C};
pub use words::Script;
