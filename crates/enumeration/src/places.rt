// Where the entries of each head stand in the old round: looked up once for each head of a round, then read.
ghost use Rattle.std.specs.Prelude.{◌≡◌, true, false, List, ℕ, ◌+◌, ◌*◌, ◌<◌, ◌≤◌, length};
ghost use Rattle.table.specs.Table.{key};
ghost use Rattle.table.specs.Rows.{Placed};
ghost use Rattle.enumeration.specs.Places.{place_at, PlacedHead, PlacedTo, Blocked};

use rounds::highest;
use table::{end_of, start_of};

// Two places for each of 32 states and 64 letters: a head's first entry, and after its last.
pub const PLACES: usize = 4096;

// The place of a head's first entry, or `count` where the head is none.
pub fn start_at(places: &[usize], count: usize, q: u8, a: u8) -> usize
    ensures upper_bound { result ≤ count }
    ensures by_index { (work : List ℕ) → PlacedHead work count places.now q a → Placed work count (key q a 0) result }
{
    let at = place_at(q, a);
    if places.len() <= at {
        return count;
    }
    places[at].min(count)
}

// The place after its last, or `count`.
pub fn end_at(places: &[usize], count: usize, q: u8, a: u8) -> usize
    ensures upper_bound { result ≤ count }
    ensures by_index { (work : List ℕ) → PlacedHead work count places.now q a → Placed work count (key q a 4294967296) result }
{
    let at = place_at(q, a) + 1;
    if places.len() <= at {
        return count;
    }
    places[at].min(count)
}

// No run passes a set on a letter: it is empty, or a state of it has no entry on the letter.
pub fn is_blocked(places: &[usize], count: usize, set: u32, a: u8) -> bool
    ensures blocked { result ≡ true → 0 < set → Blocked set count places.now a }
    ensures set_nonzero { result ≡ false → 0 < set }
{
    if set == 0 {
        return true;
    }
    let mut left = set;
    while left != 0 {
        let q = highest(left);
        if end_at(places, count, q, a) <= start_at(places, count, q, a) {
            return true;
        }
        left = left % (1u32 << q);
    }
    false
}

// Where a head's places are.
fn place_at(q: u8, a: u8) -> usize
    ensures { result ≡ place_at q a }
{
    2 * ((q as usize) * 64 + (a as usize))
}

// Looks up the places of every head of states below `states` and letters below `letters`.
pub fn set_places(places: &mut [usize], work: &[u32], count: usize, states: u8, letters: u8)
    requires { count * 3 ≤ length work.now }
    ensures { length places.old ≡ 4096 → states ≤ 32 → letters ≤ 64 → PlacedTo work.now count places.new letters (states * 64) }
{
    for q in 0..states {
        set_letters(places, work, count, q, letters);
    }
}

// Those of one state.
fn set_letters(places: &mut [usize], work: &[u32], count: usize, q: u8, letters: u8)
    requires { count * 3 ≤ length work.now }
    ensures { length places.old ≡ 4096 → q < 32 → letters ≤ 64 → PlacedTo work.now count places.old letters (q * 64)
        → PlacedTo work.now count places.new letters ((q + 1) * 64) }
{
    for a in 0..letters {
        set_head(places, work, count, q, a);
    }
}

// Those of one head.
fn set_head(places: &mut [usize], work: &[u32], count: usize, q: u8, a: u8)
    requires { count * 3 ≤ length work.now }
    ensures { (letters : ℕ) → length places.old ≡ 4096 → q < 32 → a < 64 → letters ≤ 64 → PlacedTo work.now count places.old letters (q * 64 + a)
        → PlacedTo work.now count places.new letters (q * 64 + a + 1) }
{
    let at = place_at(q, a);
    if places.len() <= at + 1 {
        return;
    }
    places[at] = start_of(work, count, q, a);
    places[at + 1] = end_of(work, count, q, a);
}
