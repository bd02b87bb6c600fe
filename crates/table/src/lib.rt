// Tables: the three words of an entry, the order of entries, the check of a whole table (question 13 of document 01),
// the place of a key, of a head's entries and of the first unused entry.
//
// It leaves out what an entry is worth, which is the judge's, and how entries come about, which is the solver's.
#![tactic(auto)]

mod check;
mod entry;
mod search;

pub use check::{entries_form, is_length, is_rule_numbered, table_form};
pub use entry::EntryWords;
pub use search::{end_of, place_of, start_of, used_part};
