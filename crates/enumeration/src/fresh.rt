// Which entries of the old round are of the last one: by their first words, and for each letter by the states that have one on it.
ghost use Rattle.std.specs.Prelude.{◌≡◌, true, false, ◌+◌, ◌*◌, ◌<◌, ◌≤◌, length, get_or};
ghost use Rattle.game.specs.Limits.{max_rules};
ghost use Rattle.game.specs.Game.{of_head};
ghost use Rattle.game.specs.Stored.{rule_at};
ghost use Rattle.enumeration.specs.Past.{late_of, Marked, Settled, SettledFrom};

use crate::runs::joined;
use game::{Game, has_state, is_rule_of};
use table::EntryWords;

// One set of states for each letter that a byte can name.
pub const LETTERS: usize = 256;

// The least first word of an entry of the last round, where the next one has this birthdate: what is below it is older. In round 1
// nothing is older.
pub fn late_of(birthdate: u32) -> u32
    requires { birthdate < 65536 }
    ensures { result ≡ late_of birthdate }
{
    65536 * birthdate.saturating_sub(1)
}

// `late` after an entry with this first word: the same where the entry is older, and 0 where it is of the last round.
pub fn still_late(late: u32, first: u32) -> u32
    ensures { 0 < result → (result ≡ late) × (first < late) }
{
    if first < late {
        return late;
    }
    0
}

// `late`, where neither a rule of a job after rule r nor a state among those left can have an entry of the last round, and 0
// otherwise.
pub fn older_below(last: usize, r: usize, among: u32, late: u32) -> u32
    requires { r < max_rules }
    ensures { 0 < result → (result ≡ late) × (last ≤ r + 1) × (among ≡ 0) }
{
    if r + 1 < last {
        return 0;
    }
    if among != 0 {
        return 0;
    }
    late
}

// The states that have an entry of the last round on a letter.
pub fn fresh_on(fresh: &[u32], letter: u8) -> u32
    ensures { result ≡ get_or fresh.now letter 0 }
{
    fresh.get(letter as usize).copied().unwrap_or(0)
}

// Notes for each letter the states that have an entry on it whose first word is not below `late`.
pub fn set_fresh(fresh: &mut [u32], work: &[u32], count: usize, late: u32)
    requires { count * 3 ≤ length work.now }
    ensures { length fresh.old ≡ 256 → Marked work.now fresh.new late count }
{
    for i in 0..count {
        mark(fresh, work, i, late);
    }
}

// That of entry i.
fn mark(fresh: &mut [u32], work: &[u32], i: usize, late: u32)
    requires { (i + 1) * 3 ≤ length work.now }
    ensures { length fresh.old ≡ 256 → Marked work.now fresh.old late i → Marked work.now fresh.new late (i + 1) }
{
    let entry = EntryWords::at(work, i);
    if entry.first < late {
        return;
    }
    let state = entry.state();
    if Game::MAX_STATES <= state {
        return;
    }
    let at = entry.letter() as usize;
    if fresh.len() <= at {
        return;
    }
    fresh[at] = joined(fresh[at], state);
}

// One more than the number of the last rule of a head, among those from rule r on and before `end`, that can have an entry of the
// last round; r, where there is none, or `end`, where that is less.
pub fn last_fresh(rules: &[u8], fresh: &[u32], r: usize, end: usize, p: u8, a: u8) -> usize
    requires { (end * 6 ≤ length rules.now) × (end ≤ max_rules) }
    ensures { SettledFrom rules.now fresh.now end p a result }
{
    for k in (r..end).rev() {
        if is_fresh(rules, fresh, k, p, a) {
            return k + 1;
        }
    }
    r.min(end)
}

// Whether rule r is one of a head, and a run of it can have an entry of the last round.
fn is_fresh(rules: &[u8], fresh: &[u32], r: usize, p: u8, a: u8) -> bool
    requires { ((r + 1) * 6 ≤ length rules.now) × (r < max_rules) }
    ensures { result ≡ false → of_head p a (rule_at rules.now (r * 6) 0) ≡ true
        → Settled fresh.now (rule_at rules.now (r * 6) 0) }
{
    let at = r * Game::RULE_STRIDE;
    if !is_rule_of(rules, at, p, a) {
        return false;
    }
    if rules[at + 3] == 0 {
        return false;
    }
    if has_state(fresh_on(fresh, rules[at + 4]), rules[at + 2]) {
        return true;
    }
    if rules[at + 3] == 1 {
        return false;
    }
    fresh_on(fresh, rules[at + 5]) != 0
}
