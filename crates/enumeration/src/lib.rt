// The enumeration of the runs of a job, which is a rule by itself or one run for each rule of a head: the entry of each union that they end
// in is added to a table at its place. Runs that have no entry of the last round are left out: what they give is in the table already.
//
// It has the memo of what was enumerated before, the places of heads in the old round, the marks of entries of the last round, and lists of
// the ends of rules. It leaves out which jobs a round has and which rules are listed, which is what `walk` finds.
#![tactic(auto)]

mod fresh;
mod lists;
mod memo;
mod places;
mod runs;

pub use fresh::{LETTERS, last_fresh, late_of, set_fresh};
pub use lists::{LISTED, Lists, SPANS, keep_list};
pub use memo::{LINE, LINES};
pub use places::{PLACES, end_at, set_places, start_at};
pub use runs::{Job, Task, joined, rules_after, runs_with};
