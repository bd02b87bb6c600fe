// Playing a move in a session: questions 14, 16 and 17 of document 01, after the file's.
//
// It leaves out tables, judging and advice: whoever plays names the rule.
#![tactic(auto)]

mod moving;
mod playing;

pub use moving::{Played, play_move};
pub use playing::{Session, play};
