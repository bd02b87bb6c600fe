// Abelard's side of the contest: of a lost position of his, the lowest-numbered rule that leads to a lost position. The successor may
// have 257 letters. Only whether it is lost matters, so of what lies below the top only the set of states without a worth is taken, and
// no worths are added up.
ghost use Rattle.std.specs.Prelude.{◌≡◌, cond, ◌&&◌, List, ℕ, ◌+◌, ◌<◌, ◌≤◌, length, get_or};
ghost use Rattle.std.proofs.Math.Option.{Option};
ghost use Rattle.game.specs.Limits.{max_states, rule_stride};
ghost use Rattle.game.specs.Sets.{single, union};
ghost use Rattle.game.specs.Game.{PushdownGame, of_head, rules_of};
ghost use Rattle.game.specs.Stored.{rule_at};
ghost use Rattle.game.specs.Held.{Held, Safe};
ghost use Rattle.table.specs.Table.{entries_of};
ghost use Rattle.table.specs.Rows.{Sorted};
ghost use Rattle.judge.specs.Worth.{is_none, step};
ghost use Rattle.judge.specs.Judged.{field_of};
ghost use Rattle.judge.specs.Verdict.{successor_worth, losing_field, lost_field};
ghost use Rattle.judge.specs.Machine.{automaton_of, Numbers, LostStates, head_lost};

use crate::worth::is_of_head;
use game::{Game, Sizes, has_state, is_rule_of};
use table::{EntryWords, start_of};

// The rule of a lost position with the head (p, a), by the worths of what lies below the top: none if it is Éloise's.
pub fn lost_rule(
    sizes: Sizes,
    rules: &[u8],
    table: &[u32],
    p: u8,
    a: u8,
    below: &[Option<u64>; Game::MAX_STATES as usize],
) -> Option<u32>
    requires { Safe sizes rules.now × Sorted table.now }
    ensures { (g : PushdownGame) → Held g sizes rules.now → (n : Numbers sizes.states below.now)
        → field_of result ≡ lost_field g (automaton_of sizes (entries_of table.now)) p a n.worths }
{
    if !has_state(sizes.abelard, p) {
        return None;
    }
    losing_rule(sizes, rules, table, p, a, lost_states(sizes.states, below))
}

// The states without a worth.
fn lost_states(states: u8, below: &[Option<u64>; Game::MAX_STATES as usize]) -> u32
    requires { states ≤ max_states }
    ensures { (n : Numbers states below.now) → LostStates states result n.worths }
{
    let mut set = 0;
    for q in 0..states {
        let at = q as usize;
        set = marked(set, q, below[at].is_none());
    }
    set
}

// A set, with a state more if it is lost.
fn marked(set: u32, q: u8, lost: bool) -> u32
    requires { q < max_states }
    ensures { result ≡ cond lost (union set (single q)) set }
{
    if !lost {
        return set;
    }
    set | (1u32 << q)
}

// The rule of a lost position of Abelard's with the head (p, a), by the lost states of what lies below the top.
fn losing_rule(sizes: Sizes, rules: &[u8], table: &[u32], p: u8, a: u8, lost: u32) -> Option<u32>
    requires { Safe sizes rules.now × Sorted table.now }
    ensures { (g : PushdownGame) → Held g sizes rules.now → (ws : List (Option ℕ)) → LostStates sizes.states lost ws
        → field_of result ≡ losing_field (automaton_of sizes (entries_of table.now)) ws (rules_of g p a) }
{
    for r in 0..sizes.rulecount {
        if does_lose(sizes, rules, table, r * Game::RULE_STRIDE, p, a, lost) {
            return Some(r as u32);
        }
    }
    None
}

// The rule at an offset is one of the head and leads to a lost position.
fn does_lose(sizes: Sizes, rules: &[u8], table: &[u32], at: usize, p: u8, a: u8, lost: u32) -> bool
    requires { (at + rule_stride ≤ length rules.now) × (sizes.states ≤ max_states) × Sorted table.now }
    ensures { (ws : List (Option ℕ)) → LostStates sizes.states lost ws → get_or rules.now (at + 2) 0 < sizes.states
        → result ≡ (of_head p a (rule_at rules.now at 0)
        && is_none (successor_worth (automaton_of sizes (entries_of table.now)) ws (rule_at rules.now at 0))) }
{
    if !is_rule_of(rules, at, p, a) {
        return false;
    }
    is_successor_lost(sizes, rules, table, at, lost)
}

// The successor by the rule at an offset has no worth: no letter written, one, or two.
fn is_successor_lost(sizes: Sizes, rules: &[u8], table: &[u32], at: usize, lost: u32) -> bool
    requires { (at + rule_stride ≤ length rules.now) × (sizes.states ≤ max_states) × Sorted table.now }
    ensures { (ws : List (Option ℕ)) → LostStates sizes.states lost ws → get_or rules.now (at + 2) 0 < sizes.states
        → result ≡ is_none (successor_worth (automaton_of sizes (entries_of table.now)) ws (rule_at rules.now at 0)) }
{
    let to = rules[at + 2];
    let count = rules[at + 3];
    if count == 0 {
        return has_state(lost, to);
    }
    let above = rules[at + 4];
    if count == 1 {
        return is_head_lost(table, to, above, lost);
    }
    let lower = lost_above(sizes, table, rules[at + 5], lost);
    is_head_lost(table, to, above, lower)
}

// The states without a worth on one letter above a rest, by those of the rest.
fn lost_above(sizes: Sizes, table: &[u32], letter: u8, lost: u32) -> u32
    requires { (sizes.states ≤ max_states) × Sorted table.now }
    ensures { (ws : List (Option ℕ)) → LostStates sizes.states lost ws
        → LostStates sizes.states result (step (automaton_of sizes (entries_of table.now)) letter ws) }
{
    let mut set = 0;
    for q in 0..sizes.states {
        set = marked(set, q, is_head_lost(table, q, letter, lost));
    }
    set
}

// No transition of the head (q, a) has a set without a lost state. They are looked up as for `head_worth`.
fn is_head_lost(table: &[u32], q: u8, a: u8, lost: u32) -> bool
    requires { Sorted table.now }
    ensures { result ≡ head_lost q a lost (entries_of table.now) }
{
    let count = table.len() / EntryWords::STRIDE;
    for i in start_of(table, count, q, a)..count {
        let entry = EntryWords::at(table, i);
        if !is_of_head(entry, q, a) {
            return true;
        }
        if (entry.set & lost) == 0 {
            return false;
        }
    }
    true
}
