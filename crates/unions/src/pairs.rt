// The unions of two families of an area, by way of the smaller one.
ghost use Rattle.std.specs.Prelude.{◌≡◌, ◌+◌, ◌<◌, ◌≤◌, length};
ghost use Rattle.family.specs.Family.{UnitesInto};
ghost use Rattle.family.specs.Masks.{Raising};

use crate::writing::sets_in;
use family::unite_into;

// The unions of a set of one family of an area with a set of another, put into the family at the front of `unions`. The family with
// fewer sets is the one whose sets are gone through.
pub fn unite_pair(
    unions: &mut [u64],
    all: &[u64],
    one: usize,
    other: usize,
    raising: &[u64],
    n: usize,
)
    requires { (16 ≤ length unions.old) × (one + n ≤ length all.now) × (other + n ≤ length all.now) × (512 ≤ length raising.now) × (n ≤ 16)
        × (one ≤ 1048576) × (other ≤ 1048576) }
    ensures unites_into { Raising raising.now → UnitesInto n all.now one all.now other unions.old unions.new }
{
    if sets_at(all, one, n) < sets_at(all, other, n) {
        unite_into(unions, all, other, all, one, raising, n);
        return;
    }
    unite_into(unions, all, one, all, other, raising, n);
}

// How many sets the family at a place has.
fn sets_at(words: &[u64], at: usize, n: usize) -> u64
    requires { (n ≤ 16) × (at + n ≤ length words.now) × (at ≤ 1048576) }
{
    let mut sum = 0u64;
    for word in &words[at..at + n] {
        if *word != 0 {
            sum += sets_in(*word);
        }
    }
    sum
}
