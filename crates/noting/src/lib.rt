// What a round notes: the sets that a head is given, as entries, and marks of what has something new.
//
// It has round 0, whose entries are the target's; sets offered to a head, of which those that it neither has nor was given are noted; the
// marks of heads and letters, and the rules that have something new to read; and the end of a round, at which the heads take what they were
// given. It leaves out which sets are offered, which is what the rules and Abelard's heads of `saturation` find.
#![tactic(auto)]

mod closing;
mod marks;
mod masks;
mod offers;
mod readers;
mod signs;
mod targets;

pub use closing::close_heads;
pub use marks::Marks;
pub use masks::set_masks;
pub use offers::give;
pub use readers::{find_active, mark_rules};
pub use signs::keep_more;
pub use targets::note_targets;
