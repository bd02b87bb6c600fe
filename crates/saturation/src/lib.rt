// A round over families of sets as bits that are kept over all rounds: what it adds is found from what the last one added.
//
// It is made of the families of unions over a set and a letter, which `unions` brings up to the table, of the rules and Abelard's heads,
// which give what is new, and of the heads, which take it by `noting`; rules and heads are passed over by marks of what has something new. It
// leaves out the unions, the ends of runs and the table written at last, which are those of `unions`, round 0 and the marks, which are those
// of `noting`, and the order of rounds and their end, which are the solver's.
//
// The order of rounds is compiled once for each size of arrays, a round once for all, since it takes its areas as slices. What a round calls
// is marked to be inlined, here and below.
#![tactic(auto)]

mod heads;
mod kept;
mod linking;
mod round;
mod rules;

pub use kept::{Kept, Rules};
pub use linking::link;
pub use round::take_round;
