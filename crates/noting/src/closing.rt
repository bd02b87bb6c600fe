// The end of a round: what a head was given becomes what it has more, and the elements that were given something are marked. Only the
// heads that are marked as given something, or as those with news from the round before, are looked at.
ghost use Rattle.std.specs.Prelude.{◌≡◌, List, ℕ, ◌+◌, ◌*◌, ◌^◌, ◌<◌, ◌≤◌, length, get_or};
ghost use Rattle.game.specs.Game.{PushdownGame};
ghost use Rattle.table.specs.Table.{Entry};
ghost use Rattle.family.specs.Family.{Elsewhere};
ghost use Rattle.unions.specs.Expand.{AllWithin};
ghost use Rattle.unions.specs.Pool.{Head, Layout, Kept, HeadsHold, HeadsGrew};
ghost use Rattle.noting.specs.Signs.{NoNews, NoGains};
ghost use Rattle.noting.specs.Offers.{Adding};
ghost use Rattle.unions.specs.Finding.{Fresh};
ghost use Rattle.noting.specs.Marks.{Dead};
ghost use Rattle.unions.specs.Ending.{Masked};
ghost use Rattle.noting.specs.Closing.{Ready};
ghost use Rattle.noting.specs.ClosingRows.{Thinned, RowClosed, RowsClosed, RowsCleared};

use family::{clear_at, copy_at, join_at};
use unions::lowest_set;

// The families of a state's heads emptied, of those whose letters are in a set; the first head has number `base`.
#[inline(always)]
fn clear_row(base: usize, letters: usize, bits: u64, n: usize, new: &mut [u64])
    requires { (base + letters ≤ 2048) × (n ≤ 16) × ((base + letters) * n ≤ length new.old) }
    ensures { Thinned base letters bits n new.old new.new }
{
    let mut rest = bits;
    while rest != 0 {
        let a = lowest_set(rest);
        if letters <= a {
            return;
        }
        clear_at(new, (base + a) * n, n);
        rest = rest & (rest - 1);
    }
}

// The heads of a state whose letters are in a set, closed; the first head has number `base`, and `mark` is the state as a set of elements.
fn close_row(
    base: usize,
    letters: usize,
    bits: u64,
    n: usize,
    all: &mut [u64],
    new: &mut [u64],
    added: &mut [u64],
    mark: usize,
    fresh: &mut [usize],
    alive: &mut [usize],
)
    requires { (base + letters ≤ 2048) × (n ≤ 16) × (mark < 1024) × ((base + letters) * n ≤ length all.old) × ((base + letters) * n ≤ length new.old) × ((base + letters) * n ≤ length added.old)
        × (letters ≤ length fresh.old) × (letters ≤ length alive.old) × (letters ≤ 64) }
    ensures { RowClosed base letters bits 0 mark n all.old new.old added.old fresh.old alive.old
        all.new new.new added.new fresh.new alive.new }
{
    let mut rest = bits;
    while rest != 0 {
        let a = lowest_set(rest);
        if letters <= a {
            return;
        }
        let at = (base + a) * n;
        join_at(all, at, added, at, n);
        copy_at(new, at, added, at, n);
        clear_at(added, at, n);
        fresh[a] = fresh[a] | mark;
        alive[a] = alive[a] | mark;
        rest = rest & (rest - 1);
    }
}

// The heads of the control states: those that were given something are closed, and of those that had news before and got nothing the
// news are emptied.
#[inline(always)]
fn close_rows(
    control: usize,
    letters: usize,
    numbers: &[usize],
    n: usize,
    all: &mut [u64],
    new: &mut [u64],
    added: &mut [u64],
    fresh: &mut [usize],
    alive: &mut [usize],
    news: &mut [u64],
    gains: &mut [u64],
)
    requires { (control ≤ 32) × (letters ≤ 64) × (control * letters ≤ 2048) × (n ≤ 16) × Masked numbers.now fresh.old alive.old
        × (control * letters * n ≤ length all.old) × (control * letters * n ≤ length new.old) × (control * letters * n ≤ length added.old)
        × (length news.old ≡ 32) × (length gains.old ≡ 32) }
    ensures { RowsClosed control letters control numbers.now n all.old new.old added.old fresh.old alive.old news.old gains.old
        all.new new.new added.new fresh.new alive.new news.new gains.new }
{
    for p in 0..control {
        let gained = gains[p];
        let before = news[p];
        let base = p * letters;
        clear_row(base, letters, before ^ (before & gained), n, new);
        close_row(
            base, letters, gained, n, all, new, added, numbers[p], fresh, alive,
        );
        news[p] = gained;
        gains[p] = 0;
    }
}

// The heads of further states, which get nothing in a round: the news of round 0 are emptied.
#[inline(always)]
fn clear_rows(
    control: usize,
    states: usize,
    letters: usize,
    n: usize,
    new: &mut [u64],
    news: &mut [u64],
)
    requires { (states ≤ 32) × (letters ≤ 64) × (states * letters ≤ 2048) × (n ≤ 16) × (states * letters * n ≤ length new.old) × (length news.old ≡ 32) }
    ensures { RowsCleared control letters n new.old news.old new.new news.new }
{
    for q in control..states {
        clear_row(q * letters, letters, news[q], n, new);
        news[q] = 0;
    }
}

// Every head, and for each letter the elements that were given something, and those with any transition, of which those before are noted
// in `alive`. The heads that were given something, by their bits in `gains`, are those with news afterwards.
#[inline(always)]
pub fn close_heads(
    control: usize,
    states: usize,
    letters: usize,
    numbers: &[usize],
    heads: usize,
    n: usize,
    all: &mut [u64],
    new: &mut [u64],
    added: &mut [u64],
    fresh: &mut [usize],
    alive: &mut [usize],
    news: &mut [u64],
    gains: &mut [u64],
)
    requires { (control ≤ states) × (states ≤ 32) × (letters ≤ 64) × (states * letters ≤ heads) × (heads ≤ 2048) × (n ≤ 16) × Masked numbers.now fresh.old alive.old
        × (heads * n ≤ length all.old) × (heads * n ≤ length new.old) × (heads * n ≤ length added.old) × (length news.old ≡ 32) × (length gains.old ≡ 32) }
    ensures by_index { (el : List ℕ) (g : PushdownGame) (old es after : List Entry) → Layout el g n → heads ≡ g.states * g.letters → control ≡ g.control → states ≡ g.states → letters ≡ g.letters
        → Kept es after → ((q a z : ℕ) → g.control ≤ q → Head after q a z → Head es q a z) → HeadsHold el g n es all.old → HeadsGrew el g n old es new.old
        → Adding el g n es after added.old → NoGains g es after gains.old
        → AllWithin el after → ((k : ℕ) → k < length el → get_or numbers.now (get_or el k 0) 0 ≡ 2 ^ k) → Dead el g es alive.old
        → Ready el g n es after all.new new.new added.new × Fresh el g es after fresh.new × Dead el g after alive.new × NoNews g es after news.new }
    ensures elsewhere { Elsewhere 0 (heads * n) all.old all.new × ((c : ℕ) → c < 64 → get_or alive.new c 0 < 1024) }
{
    fresh.fill(0);
    close_rows(
        control, letters, numbers, n, all, new, added, fresh, alive, news, gains,
    );
    clear_rows(control, states, letters, n, new, news);
}
