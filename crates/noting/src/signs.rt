// Heads marked by a bit: a word for each state, and in it a bit for each letter.
ghost use Rattle.std.specs.Prelude.{◌≡◌, true, false, ℕ, ◌+◌, ◌/◌, ◌<◌, ◌≤◌, length, get_or};
ghost use Rattle.game.specs.Sets.{has};
ghost use Rattle.family.specs.Family.{holds, Joined};

use family::take_more;

// The head of state p and letter a is marked, and those marked before are.
pub fn mark(words: &mut [u64], p: usize, a: usize)
    requires { (p < length words.old) × (a < 64) }
    ensures by_index { (q c : ℕ) → has (get_or words.new q 0) c ≡ false → (has (get_or words.old q 0) c ≡ false) × (q ≡ p → c ≡ a → ⊥) }
{
    words[p] = words[p] | (1u64 << a);
}

// Sets put into the family at a place of `ends`; head (p, a) is marked if one of them was not there.
pub fn keep_more(
    ends: &mut [u64],
    at: usize,
    more: &[u64],
    n: usize,
    stirred: &mut [u64],
    p: usize,
    a: usize,
)
    requires { (at + n ≤ length ends.old) × (n ≤ length more.now) × (p < length stirred.old) × (a < 64) }
    ensures joined { Joined ends.old at n more.now 0 ends.new }
    ensures x_value { has (get_or stirred.new p 0) a ≡ false → (x : ℕ) → x / 64 < n → holds more.now 0 x ≡ true → holds ends.old at x ≡ true }
    ensures by_index { (q c : ℕ) → has (get_or stirred.new q 0) c ≡ false → has (get_or stirred.old q 0) c ≡ false }
{
    if !take_more(ends, at, more, n) {
        return;
    }
    mark(stirred, p, a);
}
