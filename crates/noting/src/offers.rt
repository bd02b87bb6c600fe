// Sets that a round gives a head, noted as entries.
ghost use Rattle.std.specs.Prelude.{IfSome, ◌≡◌, true, false, List, ℕ, ◌+◌, ◌*◌, ◌^◌, ◌<◌, ◌≤◌, length, ◌↔◌};
ghost use Rattle.game.specs.Sets.{has};
ghost use Rattle.game.specs.Game.{PushdownGame};
ghost use Rattle.game.specs.GoodGame.{Good};
ghost use Rattle.table.specs.Table.{Entry, first_word};
ghost use Rattle.table.specs.Pairwise.{Ascending};
ghost use Rattle.rounds.specs.RoundLaws.{AllRanged};
ghost use Rattle.unions.specs.Expand.{Elements};
ghost use Rattle.unions.specs.Ending.{OfWord};
ghost use Rattle.noting.specs.Taking.{Taking, counted};
ghost use Rattle.noting.specs.Offers.{Offer, Noting, Adding, Offered, Given, Spared, Gave};
ghost use Rattle.unions.specs.Pool.{Layout, HeadsHold};

use crate::signs::mark;
use unions::{lowest_set, put_entry};

// The sets of a word, the first of which is `from`, as entries of a head with one birthdate and one rule field. How many entries there
// are, if they fit.
pub fn note_word(
    log: &mut [u32],
    count: usize,
    size: usize,
    word: u64,
    from: usize,
    first: u32,
    rule: u32,
) -> Option<usize>
    requires { (size * 3 ≤ length log.old) × (count ≤ size) × (size ≤ 2048) × (from ≤ 960) }
    ensures by_index { (el : List ℕ) (g : PushdownGame) (es now' : List Entry) (b p a : ℕ) → Elements el g.states → Good g → Ascending es → AllRanged g es → Taking el g es b log.old count now'
        → first ≡ first_word p a b → p < g.control → a < g.letters → ((s : ℕ) → s < 64 → has word s ≡ true → Offer el g es now' p a rule (from + s))
        → Noting el g es b size (OfWord word from) p a now' log.new (counted size result) }
    ensures upper_bound { IfSome result (λ k. k ≤ size) }
{
    let mut entries = count;
    let mut rest = word;
    while rest != 0 {
        let s = lowest_set(rest);
        if size <= entries {
            return None;
        }
        put_entry(log, entries * 3, first, (from + s) as u32, rule);
        entries += 1;
        rest = rest & (rest - 1);
    }
    Some(entries)
}

// A family at a place of `d` offered to a head of a control state: what the head neither has nor was given in the round is noted, and
// put into what it was given.
pub fn offer(
    d: &[u64],
    at: usize,
    head: usize,
    n: usize,
    all: &[u64],
    added: &mut [u64],
    log: &mut [u32],
    count: usize,
    size: usize,
    first: u32,
    rule: u32,
) -> Option<usize>
    requires { (size * 3 ≤ length log.old) × (count ≤ size) × (size ≤ 2048) × (n ≤ 16) × (at + n ≤ length d.now) × (at ≤ 65536) × (head ≤ 2048)
        × (head * n + n ≤ length all.now) × (head * n + n ≤ length added.old) }
    ensures by_index { (el : List ℕ) (g : PushdownGame) (es now' : List Entry) (b p a : ℕ) → Layout el g n → Good g → Ascending es → AllRanged g es
        → Taking el g es b log.old count now' → first ≡ first_word p a b → p < g.control → a < g.letters → head ≡ p * g.letters + a
        → HeadsHold el g n es all.now → Adding el g n es now' added.old → Offered el g n es now' p a rule d.now at
        → Given el g n es b size p a now' d.now at log.new added.new (counted size result) }
    ensures upper_bound { IfSome result (λ k. k ≤ size) }
{
    let mut entries = count;
    for j in 0..n {
        let given = d[at + j];
        if given == 0 {
            continue;
        }
        let word = unseen(given, all[head * n + j], added[head * n + j]);
        if word != 0 {
            entries = note_word(log, entries, size, word, j * 64, first, rule)?;
            added[head * n + j] = added[head * n + j] | word;
        }
    }
    Some(entries)
}

// The same to head (p, a), which is marked if it was given something.
pub fn give(
    d: &[u64],
    at: usize,
    p: usize,
    a: usize,
    head: usize,
    n: usize,
    all: &[u64],
    added: &mut [u64],
    gains: &mut [u64],
    log: &mut [u32],
    count: usize,
    size: usize,
    first: u32,
    rule: u32,
) -> Option<usize>
    requires { (size * 3 ≤ length log.old) × (count ≤ size) × (size ≤ 2048) × (n ≤ 16) × (at + n ≤ length d.now) × (at ≤ 65536) × (head ≤ 2048)
        × (head * n + n ≤ length all.now) × (head * n + n ≤ length added.old) × (p < length gains.old) × (a < 64) }
    ensures by_index { (el : List ℕ) (g : PushdownGame) (es now' : List Entry) (b : ℕ) → Layout el g n → Good g → Ascending es → AllRanged g es
        → Taking el g es b log.old count now' → first ≡ first_word p a b → p < g.control → a < g.letters → head ≡ p * g.letters + a
        → HeadsHold el g n es all.now → Adding el g n es now' added.old → Offered el g n es now' p a rule d.now at
        → Spared g es now' gains.old
        → Gave el g n es b size p a now' d.now at gains.new log.new added.new (counted size result) }
    ensures upper_bound { IfSome result (λ k. k ≤ size) }
{
    let entries = offer(d, at, head, n, all, added, log, count, size, first, rule)?;
    if entries == count {
        return Some(entries);
    }
    mark(gains, p, a);
    Some(entries)
}

// The sets of a word that are in neither of two others.
fn unseen(word: u64, one: u64, other: u64) -> u64
    ensures { (s : ℕ) → (has result s ≡ true) ↔ ((has word s ≡ true) × (has one s ≡ false) × (has other s ≡ false)) }
{
    let left = word ^ (word & one);
    left ^ (left & other)
}
