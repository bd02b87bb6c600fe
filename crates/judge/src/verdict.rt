// The verdict on a control state and a stack over a table.
ghost use Rattle.std.specs.Prelude.{◌≡◌, ℕ, ◌≤◌, ◌<◌, min};
ghost use Rattle.std.proofs.Math.Option.{Option};
ghost use Rattle.game.specs.Limits.{max_states, max_rounds};
ghost use Rattle.game.specs.Game.{PushdownGame};
ghost use Rattle.game.specs.Held.{Held};
ghost use Rattle.table.specs.Table.{entry_of, entries_of};
ghost use Rattle.table.specs.Rows.{Sorted};
ghost use Rattle.judge.specs.Worth.{no_worth, coded, field_number};
ghost use Rattle.judge.specs.Verdict.{verdict as verdict_is, or_zero};
ghost use Rattle.judge.specs.Machine.{
  Tamed,
  number_of,
  numbers,
  Young,
  Asked,
  least_number,
  rule_number,
  lesser_rule,
};
ghost use Rattle.judge.specs.Judged.{verdict_as, Fielded};

use crate::losing::lost_rule;
use crate::worth::{entry_worth, head_worth, is_of_head, worths};
use game::{Game, Sizes, has_state};
use table::{EntryWords, start_of};

// What is judged of a position. `Lost` has a rule for a position of Abelard's: the number of his lowest rule that leads to a lost position;
// none for a position of Éloise's, and where no rule does, as over some tables from elsewhere.
#[derive(Clone, Copy, Debug, PartialEq, Eq)]
pub enum Verdict {
    Lost { rule: Option<u32> },
    Target,
    Eloise { rule: u32, bound: u64 },
    Abelard { bound: u64 },
}

// The verdict on control state `state` and a stack, top letter first, that are in form, over the used entries of a table in
// form. What lies below the top is handed on as the part of the stack that it is; of the top letter only the head is asked.
pub fn verdict_on(sizes: Sizes, rules: &[u8], table: &[u32], state: u8, stack: &[u8]) -> Verdict
    requires { Asked sizes rules.now table.now state stack.now }
    ensures { (g : PushdownGame) → Held g sizes rules.now
        → verdict_as result ≡ verdict_is g (entries_of table.now) state stack.now }
{
    let top = stack[0];
    let below = worths(sizes, table, &stack[1..]);
    let found = head_worth(table, state, top, sizes.states, &below);
    let Some(bound) = found else {
        return Verdict::Lost {
            rule: lost_rule(sizes, rules, table, state, top, &below),
        };
    };
    if bound == 0 {
        return Verdict::Target;
    }
    if has_state(sizes.abelard, state) {
        return Verdict::Abelard { bound };
    }
    let field = least_rule(table, state, top, sizes.states, &below, bound);
    Verdict::Eloise {
        rule: rule_number(field),
        bound,
    }
}

// The least rule field among the transitions of the head (p, a) of worth `bound`, or none. They are looked up as for
// `head_worth`.
fn least_rule(
    table: &[u32],
    p: u8,
    a: u8,
    states: u8,
    below: &[Option<u64>; Game::MAX_STATES as usize],
    bound: u64,
) -> Option<u32>
    requires { (states ≤ max_states) × Young table.now × Sorted table.now × Tamed below.now × (bound < no_worth) }
    ensures { number_of result ≡ least_number (rule_number p a states (numbers below.now) bound) (entries_of table.now) }
{
    let count = table.len() / EntryWords::STRIDE;
    let mut least = None;
    for i in start_of(table, count, p, a)..count {
        let entry = EntryWords::at(table, i);
        if !is_of_head(entry, p, a) {
            return least;
        }
        least = lesser_rule(least, entry, states, below, bound);
    }
    least
}

// The lesser of a rule field and a transition's, if it is of worth `bound`.
fn lesser_rule(
    least: Option<u32>,
    entry: EntryWords,
    states: u8,
    below: &[Option<u64>; Game::MAX_STATES as usize],
    bound: u64,
) -> Option<u32>
    requires { (states ≤ max_states) × Tamed below.now × ((entry_of entry.first entry.set entry.rule).birthdate ≤ max_rounds) × (bound < no_worth) }
    ensures { number_of result ≡ lesser_rule (number_of least) states (numbers below.now) bound (entry_of entry.first entry.set entry.rule) }
{
    let Some(worth) = entry_worth(entry, states, below) else {
        return least;
    };
    if worth != bound {
        return least;
    }
    lesser(least, entry.rule)
}

fn lesser(least: Option<u32>, field: u32) -> Option<u32>
    ensures { number_of result ≡ min (number_of least) field }
{
    let Some(old) = least else {
        return Some(field);
    };
    if field < old {
        return Some(field);
    }
    least
}

// The rule number that a rule field stands for; 0 where there is none.
fn rule_number(field: Option<u32>) -> u32
    ensures { (x : Option ℕ) → number_of field ≡ coded x → Fielded x → result ≡ or_zero (field_number x) }
{
    let Some(one_more) = field else {
        return 0;
    };
    if one_more == 0 {
        return 0;
    }
    one_more - 1
}
