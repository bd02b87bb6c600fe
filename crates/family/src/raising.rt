// The table of masks that unions with a set of one word are formed with: eight words for each set below 64.
//
// Of the words of set x, word e has the sets with state e if x has that state, and none if it has not; word 6 has the sets that
// contain x, and word 7 those that x contains.
ghost use Rattle.std.specs.Prelude.{◌≡◌, ◌↔◌, true, ℕ, ◌+◌, ◌*◌, ◌<◌, ◌≤◌, length};
ghost use Rattle.game.specs.Sets.{has, union};
ghost use Rattle.family.specs.Masks.{Raising};

use crate::mask_table::TABLE;

// How many words the table has.
pub const RAISING: usize = 512;

// The table.
pub fn raising_table() -> &'static [u64; RAISING]
    ensures { Raising result.now }
{
    &TABLE
}

// Word j of the family of all subsets of a set below 1,024.
pub fn subsets_at(raising: &[u64], set: usize, j: usize) -> u64
    requires { (512 ≤ length raising.now) × (set < 1024) × (j < 16) }
    ensures { Raising raising.now → (s : ℕ) → s < 64 → (has result s ≡ true) ↔ (union (j * 64 + s) set ≡ set) }
{
    if (j | (set / 64)) != set / 64 {
        return 0;
    }
    raising[(set % 64) * 8 + 7]
}
