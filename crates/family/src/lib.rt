// Families of sets of states, as bits: what many unions at once are formed with.
//
// It leaves out where families come from and what they are for, which is the solver's.
#![tactic(auto)]

mod area;
mod mask_table;
mod raising;
mod uniting;

pub use area::{
    clear_at, copy_at, has_at, is_empty_at, join_at, put_at, remove_at, take_in, take_more,
};
pub use raising::{RAISING, raising_table, subsets_at};
pub use uniting::{unite_by, unite_into};
