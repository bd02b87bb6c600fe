// Families at places of an area. Most families have one word: what is done often has a way without a loop for them. Families of two and of
// four words are emptied and copied without one, too.
ghost use Rattle.std.specs.Prelude.{◌≡◌, true, false, ℕ, ◌+◌, ◌/◌, ◌<◌, ◌≤◌, length};
ghost use Rattle.family.specs.Family.{holds, Put, Cleared, Copied, Joined, Without, TakenIn};

// Set x is in the family at a place.
pub fn has_at(words: &[u64], at: usize, x: usize) -> bool
    requires { at + x / 64 < length words.now }
    ensures { result ≡ holds words.now at x }
{
    (words[at + x / 64] >> (x % 64)) % 2 == 1
}

// No set is in the family at a place.
pub fn is_empty_at(words: &[u64], at: usize, n: usize) -> bool
    requires { at + n ≤ length words.now }
    ensures { result ≡ true → (x : ℕ) → x / 64 < n → holds words.now at x ≡ false }
{
    if n == 1 {
        return words[at] == 0;
    }
    words[at..at + n].iter().all(|word| *word == 0)
}

// Set x put into the family at a place.
pub fn put_at(words: &mut [u64], at: usize, x: usize)
    requires { at + x / 64 < length words.old }
    ensures put { Put words.old at x words.new }
{
    let i = at + x / 64;
    words[i] = words[i] | (1u64 << (x % 64));
}

// Empties n words from a place on.
pub fn clear_at(words: &mut [u64], at: usize, n: usize)
    requires { at + n ≤ length words.old }
    ensures cleared { Cleared words.old at n words.new }
{
    if n == 1 {
        words[at] = 0;
        return;
    }
    if n == 2 {
        words[at] = 0;
        words[at + 1] = 0;
        return;
    }
    if n == 4 {
        words[at] = 0;
        words[at + 1] = 0;
        words[at + 2] = 0;
        words[at + 3] = 0;
        return;
    }
    words[at..at + n].fill(0);
}

// The family at a place of `others` written over that at a place of `words`.
pub fn copy_at(words: &mut [u64], to: usize, others: &[u64], at: usize, n: usize)
    requires { (to + n ≤ length words.old) × (at + n ≤ length others.now) }
    ensures copied { Copied words.old to n others.now at words.new }
{
    if n == 1 {
        words[to] = others[at];
        return;
    }
    if n == 2 {
        words[to] = others[at];
        words[to + 1] = others[at + 1];
        return;
    }
    if n == 4 {
        words[to] = others[at];
        words[to + 1] = others[at + 1];
        words[to + 2] = others[at + 2];
        words[to + 3] = others[at + 3];
        return;
    }
    for i in 0..n {
        words[to + i] = others[at + i];
    }
}

// Its sets put into the family at a place of `words`.
pub fn join_at(words: &mut [u64], to: usize, others: &[u64], at: usize, n: usize)
    requires { (to + n ≤ length words.old) × (at + n ≤ length others.now) }
    ensures joined { Joined words.old to n others.now at words.new }
{
    if n == 1 {
        words[to] = words[to] | others[at];
        return;
    }
    for i in 0..n {
        words[to + i] = words[to + i] | others[at + i];
    }
}

// Its sets taken out of the family at a place of `words`.
pub fn remove_at(words: &mut [u64], to: usize, others: &[u64], at: usize, n: usize)
    requires { (to + n ≤ length words.old) × (at + n ≤ length others.now) }
    ensures without { Without words.old to n others.now at words.new }
{
    for i in 0..n {
        words[to + i] = words[to + i] ^ (words[to + i] & others[at + i]);
    }
}

// The sets of the family at the front of `d` put into the family at a place of `all`, and those that were not there, alone, at the
// same place of `new`.
pub fn take_in(all: &mut [u64], new: &mut [u64], to: usize, d: &[u64], n: usize)
    requires { (to + n ≤ length all.old) × (to + n ≤ length new.old) × (n ≤ length d.now) }
    ensures taken_in { TakenIn n d.now to all.old all.new new.old new.new }
{
    if n == 1 {
        let v = d[0] ^ (d[0] & all[to]);
        new[to] = v;
        all[to] = all[to] | v;
        return;
    }
    for t in 0..n {
        let v = d[t] ^ (d[t] & all[to + t]);
        new[to + t] = v;
        all[to + t] = all[to + t] | v;
    }
}

// The sets of the family at the front of `d` put into the family at a place; whether one of them was not there.
pub fn take_more(all: &mut [u64], to: usize, d: &[u64], n: usize) -> bool
    requires { (to + n ≤ length all.old) × (n ≤ length d.now) }
    ensures joined { Joined all.old to n d.now 0 all.new }
    ensures x_value { result ≡ false → (x : ℕ) → x / 64 < n → holds d.now 0 x ≡ true → holds all.old to x ≡ true }
{
    if n == 1 {
        let v = d[0] ^ (d[0] & all[to]);
        all[to] = all[to] | v;
        return v != 0;
    }
    let mut any = 0u64;
    for t in 0..n {
        let v = d[t] ^ (d[t] & all[to + t]);
        any = any | v;
        all[to + t] = all[to + t] | v;
    }
    any != 0
}
