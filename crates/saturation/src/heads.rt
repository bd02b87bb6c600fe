// Abelard's part of a round: each of his heads that is marked, since one of its rules may have more ends, is offered the unions of one end
// of each rule.
ghost use Rattle.std.specs.Prelude.{IfSome, ◌≡◌, true, List, ℕ, ◌+◌, ◌*◌, ◌/◌, ◌^◌, ◌<◌, ◌≤◌, length, get_or};
ghost use Rattle.game.specs.Game.{PushdownGame};
ghost use Rattle.game.specs.Win.{is_abelard};
ghost use Rattle.table.specs.Table.{Entry};
ghost use Rattle.family.specs.Masks.{Raising};
ghost use Rattle.unions.specs.Expand.{Elements};
ghost use Rattle.noting.specs.Signs.{NoGains};
ghost use Rattle.noting.specs.Taking.{Taking, counted};
ghost use Rattle.noting.specs.Offers.{Adding, Spared};
ghost use Rattle.saturation.specs.Steps.{Step, AbelardsTo};
ghost use Rattle.saturation.specs.RuleLinks.{Chain};
ghost use Rattle.saturation.specs.HeadSteps.{EndsOf, AllOf, AbelardAt, AbelardsIn, Ready};

use crate::kept::Rules;
use family::{copy_at, unite_into};
use game::has_state;
use noting::give;
use unions::lowest_set;

// The heads of every control state. How many entries there are, if they fit.
#[inline(always)]
pub fn take_heads(
    rules: &Rules<'_, '_>,
    ends: &[u64],
    stirred: &[u64],
    all: &[u64],
    added: &mut [u64],
    gains: &mut [u64],
    log: &mut [u32],
    count: usize,
    size: usize,
    birthdate: u32,
) -> Option<usize>
    requires { (size * 3 ≤ length log.old) × (count ≤ size) × (size ≤ 2048)
        × (rules.now.sizes.control * rules.now.frame.letters * rules.now.frame.n ≤ length all.now)
        × (rules.now.sizes.control * rules.now.frame.letters * rules.now.frame.n ≤ length added.old)
        × (rules.now.sizes.rulecount * rules.now.frame.n ≤ length ends.now) × (length stirred.now ≡ 32) × (birthdate < 65536) × (length gains.old ≡ 32) }
    ensures by_index { (el : List ℕ) (g : PushdownGame) (old es now' : List Entry) (i : ℕ) (bytes : List ℕ)
        → Ready el g rules.now.frame.n old es i rules.now.sizes.abelard rules.now.sizes.control rules.now.frame.letters rules.now.sizes.rulecount bytes ends.now stirred.now rules.now.firsts.now rules.now.nexts.now rules.now.frame.raising.now all.now
        → Taking el g es birthdate log.old count now' → Adding el g rules.now.frame.n es now' added.old → NoGains g es now' gains.old
        → Step el g rules.now.frame.n es birthdate size now' (AbelardsTo g es (rules.now.sizes.control * rules.now.frame.letters)) gains.new log.new added.new (counted size result) }
    ensures upper_bound { IfSome result (λ k. k ≤ size) }
{
    let mut entries = count;
    for p in 0..rules.sizes.control as usize {
        entries = take_row(
            rules, p, stirred[p], ends, all, added, gains, log, entries, size, birthdate,
        )?;
    }
    Some(entries)
}

// The heads of state p that are marked in a word, the lowest letter first: none, if it is Éloise's.
#[inline(always)]
fn take_row(
    rules: &Rules<'_, '_>,
    p: usize,
    word: u64,
    ends: &[u64],
    all: &[u64],
    added: &mut [u64],
    gains: &mut [u64],
    log: &mut [u32],
    count: usize,
    size: usize,
    birthdate: u32,
) -> Option<usize>
    requires { (size * 3 ≤ length log.old) × (count ≤ size) × (size ≤ 2048) × (p < 24)
        × ((p * rules.now.frame.letters + rules.now.frame.letters) * rules.now.frame.n ≤ length all.now)
        × ((p * rules.now.frame.letters + rules.now.frame.letters) * rules.now.frame.n ≤ length added.old)
        × (rules.now.sizes.rulecount * rules.now.frame.n ≤ length ends.now)
        × (p * rules.now.frame.letters + rules.now.frame.letters ≤ length rules.now.firsts.now) × (birthdate < 65536) × (length gains.old ≡ 32) }
    ensures by_index { (el : List ℕ) (g : PushdownGame) (old es now' : List Entry) (i : ℕ) (bytes : List ℕ) (control : ℕ) (stirred : List ℕ)
        → Ready el g rules.now.frame.n old es i rules.now.sizes.abelard control rules.now.frame.letters rules.now.sizes.rulecount bytes ends.now stirred rules.now.firsts.now rules.now.nexts.now rules.now.frame.raising.now all.now
        → p < control → word ≡ get_or stirred p 0
        → Taking el g es birthdate log.old count now' → Adding el g rules.now.frame.n es now' added.old → Spared g es now' gains.old
        → Step el g rules.now.frame.n es birthdate size now' (AbelardsIn g es p rules.now.frame.letters) gains.new log.new added.new (counted size result) }
    ensures upper_bound { IfSome result (λ k. k ≤ size) }
{
    if !has_state(rules.sizes.abelard, p as u8) {
        return Some(count);
    }
    let mut entries = count;
    let mut rest = word;
    while rest != 0 {
        let a = lowest_set(rest);
        if rules.frame.letters <= a {
            return Some(entries);
        }
        entries = take_head(
            rules,
            p,
            a,
            p * rules.frame.letters + a,
            ends,
            all,
            added,
            gains,
            log,
            entries,
            size,
            birthdate,
        )?;
        rest = rest & (rest - 1);
    }
    Some(entries)
}

// Head (p, a) of Abelard's, by its number too. Each head has a rule, so that the chain from its first one on is not empty.
fn take_head(
    rules: &Rules<'_, '_>,
    p: usize,
    a: usize,
    head: usize,
    ends: &[u64],
    all: &[u64],
    added: &mut [u64],
    gains: &mut [u64],
    log: &mut [u32],
    count: usize,
    size: usize,
    birthdate: u32,
) -> Option<usize>
    requires { (size * 3 ≤ length log.old) × (count ≤ size) × (size ≤ 2048) × (p < 24) × (a < 64) × (head < 2048)
        × (head * rules.now.frame.n + rules.now.frame.n ≤ length all.now) × (head * rules.now.frame.n + rules.now.frame.n ≤ length added.old)
        × (rules.now.sizes.rulecount * rules.now.frame.n ≤ length ends.now) × (head < length rules.now.firsts.now) × (birthdate < 65536)
        × (length gains.old ≡ 32) }
    ensures by_index { (el : List ℕ) (g : PushdownGame) (old es now' : List Entry) (i : ℕ) (bytes : List ℕ) (abelard control letters : ℕ) (stirred : List ℕ)
        → Ready el g rules.now.frame.n old es i abelard control letters rules.now.sizes.rulecount bytes ends.now stirred rules.now.firsts.now rules.now.nexts.now rules.now.frame.raising.now all.now
        → p < control → a < letters → head ≡ p * letters + a → is_abelard g p ≡ true
        → Taking el g es birthdate log.old count now' → Adding el g rules.now.frame.n es now' added.old → Spared g es now' gains.old
        → Step el g rules.now.frame.n es birthdate size now' (AbelardAt g es p a) gains.new log.new added.new (counted size result) }
    ensures upper_bound { IfSome result (λ k. k ≤ size) }
{
    let first = rules.firsts[head];
    if rules.sizes.rulecount <= first {
        return Some(count);
    }
    let mut sets = [0u64; 16];
    unite_rules(rules, ends, first, &mut sets);
    let word = p as u32 + 256 * (a as u32) + 65536 * birthdate;
    give(
        &sets,
        0,
        p,
        a,
        head,
        rules.frame.n,
        all,
        added,
        gains,
        log,
        count,
        size,
        word,
        0,
    )
}

// The unions of one set for each rule, from rule `first` of a head on.
fn unite_rules(rules: &Rules<'_, '_>, ends: &[u64], first: usize, sets: &mut [u64])
    requires { (rules.now.sizes.rulecount * rules.now.frame.n ≤ length ends.now) × (first < rules.now.sizes.rulecount) × (16 ≤ length sets.old) }
    ensures all_of { Raising rules.now.frame.raising.now → (el : List ℕ) (states : ℕ) (f : ℕ → List ℕ) (chain : List ℕ) → Elements el states → ((x : ℕ) → x < 2 ^ length el → x / 64 < rules.now.frame.n)
        → Chain rules.now.sizes.rulecount rules.now.nexts.now first chain → EndsOf el rules.now.frame.n ends.now f chain → AllOf el rules.now.frame.n f chain sets.new }
{
    let n = rules.frame.n;
    let nexts = rules.nexts;
    let raising = rules.frame.raising;
    copy_at(sets, 0, ends, first * n, n);
    let mut r = nexts[first];
    while r < rules.sizes.rulecount {
        let mut sum = [0u64; 16];
        unite_into(&mut sum, sets, 0, ends, r * n, raising, n);
        copy_at(sets, 0, &sum, 0, n);
        r = nexts[r];
    }
}
