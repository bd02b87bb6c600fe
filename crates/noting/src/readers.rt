// Which rules a round looks at, as bits: the rules by what their words read, and those among them that something has happened to.
ghost use Rattle.std.specs.Prelude.{◌≡◌, List, ℕ, ◌+◌, ◌*◌, ◌<◌, ◌≤◌, length, get_or};
ghost use Rattle.noting.specs.Signs.{Reads, Left};
ghost use Rattle.noting.specs.Reading.{Readable, Marked, Met, Summed, Started, FirstTo, SecondTo};

use family::{join_at, put_at};
use game::Game;
use unions::lowest_set;

// Each rule put into the sets of those that read what it reads.
pub fn mark_rules(rules: &[u8], count: usize, readers: &mut [u64])
    requires { (count ≤ 256) × (count * 6 ≤ length rules.now) × (length readers.old ≡ 644)
        × ((r : ℕ) → r < count → (get_or rules.now (r * 6 + 2) 0 < 32) × (get_or rules.now (r * 6 + 4) 0 < 64) × (get_or rules.now (r * 6 + 5) 0 < 64)) }
    ensures reads { Reads rules.now count readers.new }
{
    for r in 0..count {
        mark_rule(rules, r, readers);
    }
}

// The same of rule r: by its state, and by the letter above and the letter below that it writes, or by that it writes none.
fn mark_rule(rules: &[u8], r: usize, readers: &mut [u64])
    requires { (r < 256) × (length readers.old ≡ 644) × Readable rules.now r }
    ensures marked { Marked rules.now r readers.old readers.new }
{
    let at = r * Game::RULE_STRIDE;
    let written = rules[at + 3];
    if written == 0 {
        put_at(readers, 640, r);
        return;
    }
    put_at(readers, usize::from(rules[at + 2]) * 4, r);
    put_at(readers, 128 + usize::from(rules[at + 4]) * 4, r);
    if written == 1 {
        return;
    }
    put_at(readers, 384 + usize::from(rules[at + 5]) * 4, r);
}

// The rules that a round looks at: those whose first head has a new transition, those whose first head has any and whose second letter
// an element has a new one on, and in the first round those that write no letters. Those whose first head has a transition are put into
// `held`.
#[inline(always)]
pub fn find_active(
    states: usize,
    letters: usize,
    news: &[u64],
    fresh: &[usize],
    readers: &[u64],
    is_first: bool,
    held: &mut [u64],
    active: &mut [u64],
)
    requires { (states ≤ 32) × (letters ≤ 64) × (length news.now ≡ 32) × (length fresh.now ≡ 64) × (length readers.now ≡ 644) × (length held.old ≡ 4) × (length active.old ≡ 4) }
    ensures by_index { (rules : List ℕ) (count r : ℕ) → Reads rules count readers.now → r < count → r < 256 → get_or rules (r * 6 + 2) 0 < states → get_or rules (r * 6 + 4) 0 < 64 → get_or rules (r * 6 + 5) 0 < letters
        → Left rules r news.now fresh.now is_first held.old held.new active.new }
{
    find_first(states, news, readers, active);
    join_at(held, 0, active, 0, 4);
    find_second(letters, fresh, readers, held, active);
    if !is_first {
        return;
    }
    join_at(active, 0, readers, 640, 4);
}

// Those whose first head has a new transition, state by state.
fn find_first(states: usize, news: &[u64], readers: &[u64], active: &mut [u64])
    requires { (states ≤ 32) × (length news.now ≡ 32) × (length readers.now ≡ 644) × (length active.old ≡ 4) }
    ensures first_to { FirstTo states news.now readers.now active.old active.new }
{
    for q in 0..states {
        find_started(news[q], q * 4, readers, active);
    }
}

// The rules that lead to a state, by their set's place, and write a letter of a word above.
fn find_started(word: u64, at: usize, readers: &[u64], active: &mut [u64])
    requires { (at ≤ 640) × (length readers.now ≡ 644) × (length active.old ≡ 4) }
    ensures started { Started word at readers.now active.old active.new }
{
    if word == 0 {
        return;
    }
    let mut sum = [0u64; 4];
    sum_above(&mut sum, word, readers);
    put_common(active, &sum, readers, at);
}

// The rules that write a letter of a word above, letter by letter.
fn sum_above(sum: &mut [u64], word: u64, readers: &[u64])
    requires { (length sum.old ≡ 4) × (length readers.now ≡ 644) }
    ensures summed { Summed word readers.now sum.new }
{
    let mut rest = word;
    while rest != 0 {
        let b = lowest_set(rest);
        join_at(sum, 0, readers, 128 + b * 4, 4);
        rest = rest & (rest - 1);
    }
}

// The rules that are in a set and in the one at a place of `readers`, put into a third.
fn put_common(active: &mut [u64], some: &[u64], readers: &[u64], at: usize)
    requires { (at ≤ 640) × (length readers.now ≡ 644) × (length some.now ≡ 4) × (length active.old ≡ 4) }
    ensures met { Met active.old some.now readers.now at active.new }
{
    for w in 0..4 {
        active[w] = active[w] | (some[w] & readers[at + w]);
    }
}

// The rules of `held` whose second letter an element has a new transition on, letter by letter.
fn find_second(letters: usize, fresh: &[usize], readers: &[u64], held: &[u64], active: &mut [u64])
    requires { (letters ≤ 64) × (length fresh.now ≡ 64) × (length readers.now ≡ 644) × (length held.now ≡ 4) × (length active.old ≡ 4) }
    ensures second_to { SecondTo letters fresh.now readers.now held.now active.old active.new }
{
    for c in 0..letters {
        if fresh[c] == 0 {
            continue;
        }
        put_common(active, held, readers, 384 + c * 4);
    }
}
