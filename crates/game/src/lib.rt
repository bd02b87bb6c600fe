// Reading a game file: the limits and the game, the command reader, the file's questions (1 to 9 of document 01, and 19 of document
// 02, which is put right after 2), and the form of a position (question 14).
//
// It leaves out tables, judging, moving and solving, which stand in crates above this one.
#![tactic(auto)]

mod command;
mod filter;
mod game;
mod position;
mod question;
mod reader;
mod reading;
mod refusal;
mod rule;

pub use command::{Command, Unread, command_at};
pub use game::{Game, Limits, Sizes};
pub use position::position_form;
pub use question::{has_state, is_rule_of, is_within};
pub use reader::{CommandReader, read_command};
pub use refusal::{Question, Refusal};
pub use rule::{RuleBytes, TargetWords};
