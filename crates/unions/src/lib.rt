// Runs over sets of few states: the families of unions that they go through, kept over all rounds, and what their ends have more.
//
// It has the few states that can be in a set and their numbers, by which a set is a small number; the families of unions over a set and a
// letter, kept in lines and brought up to a table; what the ends of the runs over a rule's word have more than before; and the table written
// from the entries in the order in which they came. It leaves out who takes these ends and the rounds, which are those of `saturation`.
#![tactic(auto)]

mod elements;
mod ends;
mod families;
mod lines;
mod pairs;
mod writing;

pub use elements::{Numbering, element_set, elements_of};
pub use ends::{lowest_set, more_ends, more_of_rule};
pub use families::Frame;
pub use lines::{Found, family_of, renew_lines};
pub use writing::{put_entry, sets_in, write_entries};
