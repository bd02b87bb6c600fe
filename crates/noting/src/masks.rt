// For each letter the elements that have a transition on it, as sets of elements: those with a new one, and those with any.
ghost use Rattle.std.specs.Prelude.{◌≡◌, List, ℕ, ◌+◌, ◌*◌, ◌<◌, ◌≤◌, length, get_or};
ghost use Rattle.game.specs.Game.{PushdownGame};
ghost use Rattle.table.specs.Table.{Entry};
ghost use Rattle.unions.specs.Expand.{AllWithin};
ghost use Rattle.unions.specs.Pool.{Layout, HeadsHold, HeadsGrew};
ghost use Rattle.unions.specs.Finding.{Fresh};
ghost use Rattle.noting.specs.Marks.{Marked, Dead};

use family::is_empty_at;

// For each letter the elements whose head has a set in `new`, and those whose head has one in `all`.
#[inline(always)]
pub fn set_masks(
    count: usize,
    states: &[u8],
    letters: usize,
    heads: usize,
    n: usize,
    all: &[u64],
    new: &[u64],
    fresh: &mut [usize],
    alive: &mut [usize],
)
    requires { (length states.now ≡ 16) × (count ≤ 10) × ((i : ℕ) → i < 16 → get_or states.now i 0 * letters + letters ≤ heads) × (heads ≤ 2048) × (n ≤ 16)
        × (heads * n ≤ length all.now) × (length new.now ≡ length all.now) × (letters ≤ 64) × (length fresh.old ≡ 64) × (length alive.old ≡ 64) }
    ensures by_index { (el : List ℕ) (g : PushdownGame) (old es : List Entry) → Layout el g n → count ≡ length el → letters ≡ g.letters
        → ((i : ℕ) → i < length el → get_or states.now i 0 ≡ get_or el i 0) → AllWithin el es
        → HeadsHold el g n es all.now → HeadsGrew el g n old es new.now
        → Fresh el g old es fresh.new × Dead el g es alive.new }
    ensures by_index_2 { ((c : ℕ) → c < 64 → get_or alive.old c 0 < 1024) → (c : ℕ) → c < 64 → get_or alive.new c 0 < 1024 }
{
    for c in 0..letters {
        fresh[c] = mark(count, states, letters, heads, n, new, c);
        alive[c] = mark(count, states, letters, heads, n, all, c);
    }
}

// The elements whose head with letter c has a set in an area.
fn mark(
    count: usize,
    states: &[u8],
    letters: usize,
    heads: usize,
    n: usize,
    words: &[u64],
    c: usize,
) -> usize
    requires { (length states.now ≡ 16) × (count ≤ 10) × ((i : ℕ) → i < 16 → get_or states.now i 0 * letters + letters ≤ heads) × (heads ≤ 2048) × (n ≤ 16)
        × (heads * n ≤ length words.now) × (letters ≤ 64) × (c < letters) }
    ensures marked { Marked n letters states.now words.now c count result }
    ensures upper_bound { result < 1024 }
{
    let mut set = 0usize;
    for k in 0..count {
        let head = usize::from(states[k]) * letters + c;
        if !is_empty_at(words, head * n, n) {
            set = set | (1usize << k);
        }
    }
    set
}
