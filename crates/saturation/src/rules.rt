// The rules of a round, the lowest first: what the ends of each one's runs have more. What Éloise's have more is offered to the head at
// once, so that a set that no lower rule gave is given by this one first; what Abelard's have more is put into their ends.
ghost use Rattle.std.specs.Prelude.{IfSome, ◌≡◌, true, false, List, ℕ, suc, ◌+◌, ◌*◌, ◌<◌, ◌≤◌, length};
ghost use Rattle.game.specs.Sets.{has};
ghost use Rattle.game.specs.Game.{Rule, PushdownGame};
ghost use Rattle.game.specs.ListLaws.{◌∈◌};
ghost use Rattle.table.specs.Table.{Entry, first_word};
ghost use Rattle.unions.specs.Ending.{RuleEnds, RuleBefore};
ghost use Rattle.noting.specs.Signs.{Unmoved};
ghost use Rattle.noting.specs.Taking.{counted};
ghost use Rattle.saturation.specs.Kept.{Room, GroundOf, RulesHeld, RulesDone};

use crate::kept::{Kept, Rules};
use game::{Game, has_state};
use noting::{Marks, give, keep_more};
use unions::{lowest_set, more_of_rule};

// Every rule that is marked in `active`. How many entries there are, if they fit.
pub fn take_rules(
    active: &[u64; 4],
    rules: &Rules<'_, '_>,
    marks: &Marks,
    kept: &mut Kept,
    all: &mut [u64],
    more: &[u64],
    keys: &mut [u32],
    rests: &mut [u32],
    hints: &mut [u32],
    ends: &mut [u64],
    added: &mut [u64],
    log: &mut [u32],
    size: usize,
    birthdate: u32,
    before: usize,
) -> Option<usize>
    requires { Room rules.now.frame.heads rules.now.frame.n rules.now.sizes.rulecount (length all.old) (length more.now) (length keys.old) (length rests.old) (length hints.old) (length ends.old)
        (length added.old) × (size * 3 ≤ length log.old) × (size ≤ 2048) × (before ≤ size) × (kept.old.lines ≤ length keys.old) × (birthdate < 65536) }
    ensures by_index { (el : List ℕ) (g : PushdownGame) (old es : List Entry) (i : ℕ) (now' : List Entry) → GroundOf el g old es i rules.now marks.now more.now
        → Unmoved g old es i active.now
        → RulesHeld el g old es i birthdate now' 0 rules.now kept.old all.old keys.old rests.old ends.old added.old log.old before
        → RulesDone el g old es i birthdate size now' rules.now.sizes.rulecount rules.now kept.new all.new keys.new rests.new ends.new added.new log.new (counted size result) }
    ensures upper_bound { IfSome result (λ k. k ≤ size) }
    ensures lines_bound { kept.new.lines ≤ length keys.old }
{
    let mut entries = before;
    for w in 0..4 {
        entries = take_word(
            active[w],
            w * 64,
            rules,
            marks,
            kept,
            all,
            more,
            keys,
            rests,
            hints,
            ends,
            added,
            log,
            size,
            birthdate,
            entries,
        )?;
    }
    Some(entries)
}

// The rules of a word of marks, the first of which is `from`.
fn take_word(
    word: u64,
    from: usize,
    rules: &Rules<'_, '_>,
    marks: &Marks,
    kept: &mut Kept,
    all: &mut [u64],
    more: &[u64],
    keys: &mut [u32],
    rests: &mut [u32],
    hints: &mut [u32],
    ends: &mut [u64],
    added: &mut [u64],
    log: &mut [u32],
    size: usize,
    birthdate: u32,
    before: usize,
) -> Option<usize>
    requires { Room rules.now.frame.heads rules.now.frame.n rules.now.sizes.rulecount (length all.old) (length more.now) (length keys.old) (length rests.old) (length hints.old) (length ends.old)
        (length added.old) × (size * 3 ≤ length log.old) × (size ≤ 2048) × (before ≤ size) × (kept.old.lines ≤ length keys.old) × (birthdate < 65536) × (from ≤ 192) }
    ensures by_index { (el : List ℕ) (g : PushdownGame) (old es : List Entry) (i : ℕ) (now' : List Entry) → GroundOf el g old es i rules.now marks.now more.now
        → ((r : Rule) → r ∈ g.rules → (s : ℕ) → s < 64 → r.number ≡ from + s → has word s ≡ false → (z : ℕ) → RuleEnds g es r z → RuleBefore g old i r z)
        → RulesHeld el g old es i birthdate now' from rules.now kept.old all.old keys.old rests.old ends.old added.old log.old before
        → RulesDone el g old es i birthdate size now' (from + 64) rules.now kept.new all.new keys.new rests.new ends.new added.new log.new (counted size result) }
    ensures upper_bound { IfSome result (λ k. k ≤ size) }
    ensures lines_bound { kept.new.lines ≤ length keys.old }
{
    let mut entries = before;
    let mut rest = word;
    while rest != 0 {
        let r = from + lowest_set(rest);
        if rules.sizes.rulecount <= r {
            return Some(entries);
        }
        entries = take_rule(
            r, rules, marks, kept, all, more, keys, rests, hints, ends, added, log, size,
            birthdate, entries,
        )?;
        rest = rest & (rest - 1);
    }
    Some(entries)
}

// Rule r. Where it is Éloise's and writes one letter, its ends have more what the head has more to which it leads.
fn take_rule(
    r: usize,
    rules: &Rules<'_, '_>,
    marks: &Marks,
    kept: &mut Kept,
    all: &mut [u64],
    more: &[u64],
    keys: &mut [u32],
    rests: &mut [u32],
    hints: &mut [u32],
    ends: &mut [u64],
    added: &mut [u64],
    log: &mut [u32],
    size: usize,
    birthdate: u32,
    before: usize,
) -> Option<usize>
    requires { Room rules.now.frame.heads rules.now.frame.n rules.now.sizes.rulecount (length all.old) (length more.now) (length keys.old) (length rests.old) (length hints.old) (length ends.old)
        (length added.old) × (size * 3 ≤ length log.old) × (size ≤ 2048) × (before ≤ size) × (kept.old.lines ≤ length keys.old) × (birthdate < 65536) × (r < rules.now.sizes.rulecount) }
    ensures by_index { (el : List ℕ) (g : PushdownGame) (old es : List Entry) (i : ℕ) (now' : List Entry) → GroundOf el g old es i rules.now marks.now more.now
        → RulesHeld el g old es i birthdate now' r rules.now kept.old all.old keys.old rests.old ends.old added.old log.old before
        → RulesDone el g old es i birthdate size now' (suc r) rules.now kept.new all.new keys.new rests.new ends.new added.new log.new (counted size result) }
    ensures upper_bound { IfSome result (λ k. k ≤ size) }
    ensures lines_bound { kept.new.lines ≤ length keys.old }
{
    let n = rules.frame.n;
    let letters = rules.frame.letters;
    let abelard = rules.sizes.abelard;
    let bytes = rules.bytes;
    let at = r * Game::RULE_STRIDE;
    let p = usize::from(bytes[at]);
    let a = usize::from(bytes[at + 1]);
    let first = first_of(bytes[at], bytes[at + 1], birthdate);
    if is_direct(abelard, bytes[at], bytes[at + 3]) {
        let head = usize::from(bytes[at + 2]) * letters + usize::from(bytes[at + 4]);
        return give(
            more,
            head * n,
            p,
            a,
            p * letters + a,
            n,
            all,
            added,
            &mut kept.gains,
            log,
            before,
            size,
            first,
            (r as u32) + 1,
        );
    }
    let mut found = [0u64; 16];
    let lines = more_of_rule(
        &mut found,
        r,
        bytes,
        &rules.frame,
        &rules.numbers,
        all,
        more,
        kept.lines,
        keys,
        rests,
        hints,
        &marks.fresh,
        &marks.alive,
    );
    kept.lines = lines;
    if has_state(abelard, bytes[at]) {
        keep_more(ends, r * n, &found, n, &mut kept.stirred, p, a);
        return Some(before);
    }
    give(
        &found,
        0,
        p,
        a,
        p * letters + a,
        n,
        all,
        added,
        &mut kept.gains,
        log,
        before,
        size,
        first,
        (r as u32) + 1,
    )
}

// A rule is Éloise's and writes one letter.
fn is_direct(abelard: u32, p: u8, written: u8) -> bool
    ensures { result ≡ true → (has abelard p ≡ false) × (written ≡ 1) }
{
    if has_state(abelard, p) {
        return false;
    }
    written == 1
}

// The first word of an entry.
pub fn first_of(p: u8, a: u8, birthdate: u32) -> u32
    requires { birthdate < 65536 }
    ensures { result ≡ first_word p a birthdate }
{
    (p as u32) + 256 * (a as u32) + 65536 * birthdate
}
