// The ends of the runs of a rule, and what they have more than before.
ghost use Rattle.std.specs.Prelude.{◌≡◌, true, false, List, ◌↔◌, ℕ, ◌+◌, ◌*◌, ◌^◌, ◌<◌, ◌≤◌, length};
ghost use Rattle.game.specs.Sets.{has};
ghost use Rattle.game.specs.LowestLaws.{LowestOf};
ghost use Rattle.game.specs.Game.{Rule, PushdownGame, word_of};
ghost use Rattle.game.specs.GoodGame.{GoodRule};
ghost use Rattle.game.specs.Stored.{rule_at};
ghost use Rattle.table.specs.Table.{Entry};
ghost use Rattle.family.specs.Masks.{Raising};
ghost use Rattle.unions.specs.Pool.{Fits, Pool, Grew};
ghost use Rattle.unions.specs.Ending.{Sum, OfWord, Picked, Choice, Sets, Masked, Growth, Listed, Ends, Before, NoSets, RuleFits, RuleEnds, RuleBefore};

use crate::families::Frame;
use crate::lines::family_of;
use family::{copy_at, join_at, put_at, subsets_at};
use game::Game;

// What the ends of the runs of rule r have more than before.
#[inline(always)]
pub fn more_of_rule(
    more: &mut [u64],
    r: usize,
    rules: &[u8],
    frame: &Frame,
    numbers: &[usize],
    all: &mut [u64],
    new: &[u64],
    count: usize,
    keys: &mut [u32],
    rests: &mut [u32],
    hints: &mut [u32],
    fresh: &[usize],
    alive: &[usize],
) -> usize
    requires { Fits frame.now.letters frame.now.heads frame.now.n frame.now.states all.old keys.old rests.old hints.old
        × (count ≤ length keys.old) × (length new.now ≡ length all.old) × Masked numbers.now fresh.now alive.now
        × RuleFits rules.now frame.now.letters frame.now.heads r × (r < 256) × (16 ≤ length more.old) }
    ensures by_index { (el : List ℕ) (g : PushdownGame) (old es : List Entry) (i : ℕ) (rule : Rule) → Raising frame.now.raising.now → frame.now.letters ≡ g.letters
        → rule ≡ rule_at rules.now (r * 6) rule.number → GoodRule g.control g.letters rule → g.control ≤ g.states
        → Growth el g frame.now.n old es i numbers.now new.now fresh.now alive.now → (rule.count ≡ 0 → Listed el rule.to)
        → NoSets more.old
        → Pool el g frame.now.n frame.now.heads frame.now.states es all.old keys.old rests.old count
        → Pool el g frame.now.n frame.now.heads frame.now.states es all.new keys.new rests.new result
        × Grew el frame.now.n more.new 0 (RuleEnds g es rule) (RuleBefore g old i rule) }
    ensures upper_bound { result ≤ length keys.old }
{
    let at = r * Game::RULE_STRIDE;
    more_ends(
        more,
        usize::from(rules[at + 2]),
        rules[at + 3],
        usize::from(rules[at + 4]),
        usize::from(rules[at + 5]),
        frame,
        numbers,
        all,
        new,
        count,
        keys,
        rests,
        hints,
        fresh,
        alive,
    )
}

// What the ends of runs from state q over a word have more than before: of no letters, of b, or of b above c. How many lines there are.
#[inline(always)]
pub fn more_ends(
    more: &mut [u64],
    q: usize,
    written: u8,
    b: usize,
    c: usize,
    frame: &Frame,
    numbers: &[usize],
    all: &mut [u64],
    new: &[u64],
    count: usize,
    keys: &mut [u32],
    rests: &mut [u32],
    hints: &mut [u32],
    fresh: &[usize],
    alive: &[usize],
) -> usize
    requires { Fits frame.now.letters frame.now.heads frame.now.n frame.now.states all.old keys.old rests.old hints.old × (c < frame.now.letters)
        × (count ≤ length keys.old) × (16 ≤ length more.old) × (q * frame.now.letters + frame.now.letters ≤ frame.now.heads) × (length new.now ≡ length all.old)
        × (b < frame.now.letters) × Masked numbers.now fresh.now alive.now × (q < 32) }
    ensures by_index { (el : List ℕ) (g : PushdownGame) (old es : List Entry) (i : ℕ) → Raising frame.now.raising.now → frame.now.letters ≡ g.letters → q < g.states → written ≤ 2
        → Growth el g frame.now.n old es i numbers.now new.now fresh.now alive.now → (written ≡ 0 → Listed el q)
        → NoSets more.old
        → Pool el g frame.now.n frame.now.heads frame.now.states es all.old keys.old rests.old count
        → Pool el g frame.now.n frame.now.heads frame.now.states es all.new keys.new rests.new result
        × Grew el frame.now.n more.new 0 (Ends g es q (word_of written b c)) (Before g old i q (word_of written b c)) }
    ensures upper_bound { result ≤ length keys.old }
{
    if written == 0 {
        put_at(more, 0, numbers[q]);
        return count;
    }
    let head = q * frame.letters + b;
    if written == 1 {
        copy_at(more, 0, new, head * frame.n, frame.n);
        return count;
    }
    let still = 1023 ^ (1023 & fresh[c]);
    add_runs(
        more, head, c, frame, all, new, count, keys, rests, hints, still, alive[c],
    )
}

// The unions over those sets of a head that are new, or have an element with a new transition on letter c, and all of whose elements
// have one. How many lines there are.
fn add_runs(
    more: &mut [u64],
    head: usize,
    c: usize,
    frame: &Frame,
    all: &mut [u64],
    new: &[u64],
    count: usize,
    keys: &mut [u32],
    rests: &mut [u32],
    hints: &mut [u32],
    still: usize,
    alive: usize,
) -> usize
    requires { Fits frame.now.letters frame.now.heads frame.now.n frame.now.states all.old keys.old rests.old hints.old × (c < frame.now.letters)
        × (count ≤ length keys.old) × (frame.now.n ≤ length more.old) × (head < frame.now.heads) × (length new.now ≡ length all.old) × (still < 1024) × (alive < 1024) }
    ensures by_index { (el : List ℕ) (g : PushdownGame) (es : List Entry) → Raising frame.now.raising.now → frame.now.letters ≡ g.letters
        → Sets el frame.now.n (head * frame.now.n) all.old new.now
        → Pool el g frame.now.n frame.now.heads frame.now.states es all.old keys.old rests.old count
        → Pool el g frame.now.n frame.now.heads frame.now.states es all.new keys.new rests.new result
        × Sum el g frame.now.n es c (Picked frame.now.n still alive all.old new.now (head * frame.now.n)) more.old more.new }
    ensures upper_bound { result ≤ length keys.old }
{
    let at = head * frame.n;
    let mut lines = count;
    for j in 0..frame.n {
        let old = all[at + j];
        let young = new[at + j];
        if (old | young) == 0 {
            continue;
        }
        let word = picked(old, young, j, still, alive, frame.raising);
        lines = add_word(more, word, j * 64, c, frame, all, lines, keys, rests, hints);
    }
    lines
}

// The sets of word j that are looked at: those of `new`, and those of `old` that are no subsets of `still`, as far as they are subsets
// of `alive`; and not the empty set.
fn picked(old: u64, new: u64, j: usize, still: usize, alive: usize, raising: &[u64]) -> u64
    requires { (j < 16) × (still < 1024) × (alive < 1024) × (512 ≤ length raising.now) }
    ensures variant { Raising raising.now → (s : ℕ) → s < 64 → (has result s ≡ true) ↔ Choice old new still alive (j * 64 + s) s }
    ensures result_value { j * 64 ≡ 0 → has result 0 ≡ false }
{
    let untouched = subsets_at(raising, still, j);
    let all = ((old ^ (old & untouched)) | new) & subsets_at(raising, alive, j);
    if j == 0 {
        return all ^ (all & 1);
    }
    all
}

// The unions over each set of a word, on letter c, put into a family; the word's first set is `from`. How many lines there are.
fn add_word(
    more: &mut [u64],
    word: u64,
    from: usize,
    c: usize,
    frame: &Frame,
    all: &mut [u64],
    count: usize,
    keys: &mut [u32],
    rests: &mut [u32],
    hints: &mut [u32],
) -> usize
    requires { Fits frame.now.letters frame.now.heads frame.now.n frame.now.states all.old keys.old rests.old hints.old × (c < frame.now.letters)
        × (count ≤ length keys.old) × (frame.now.n ≤ length more.old) × (from ≤ 960) × (from ≡ 0 → has word 0 ≡ false) }
    ensures by_index { (el : List ℕ) (g : PushdownGame) (es : List Entry) → Raising frame.now.raising.now → frame.now.letters ≡ g.letters
        → ((s : ℕ) → s < 64 → has word s ≡ true → from + s < 2 ^ length el)
        → Pool el g frame.now.n frame.now.heads frame.now.states es all.old keys.old rests.old count
        → Pool el g frame.now.n frame.now.heads frame.now.states es all.new keys.new rests.new result
        × Sum el g frame.now.n es c (OfWord word from) more.old more.new }
    ensures upper_bound { result ≤ length keys.old }
{
    let mut rest = word;
    let mut lines = count;
    while rest != 0 {
        let s = lowest_set(rest);
        let found = family_of(from + s, c, frame, all, lines, keys, rests, hints);
        join_at(more, 0, all, found.family * frame.n, frame.n);
        lines = found.count;
        rest = rest & (rest - 1);
    }
    lines
}

// The lowest set of a word that is not empty.
pub fn lowest_set(word: u64) -> usize
    requires { 0 < word }
    ensures { LowestOf 64 word result }
{
    u64::trailing_zeros(word) as usize
}
