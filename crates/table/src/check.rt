// Question 13: the check of a whole table, or of a part of it, in one pass.
ghost use Rattle.std.specs.Prelude.{◌≡◌, not, ◌&&◌, ℕ, ◌+◌, ◌-◌, ◌*◌, ◌/◌, ◌≤◌, length};
ghost use Rattle.game.specs.Limits.{max_states, max_rules, max_entries};
ghost use Rattle.game.specs.Game.{PushdownGame};
ghost use Rattle.game.specs.Held.{Held, Safe};
ghost use Rattle.game.specs.declared.game.Sizes.{Sizes};
ghost use Rattle.game.specs.Outcome.{said};
ghost use Rattle.table.specs.Table.{
  entry_stride,
  length_in_form,
  entry_of,
  is_eloise,
  is_rule_of,
  birthdate_in_form,
  rule_in_form,
  entry_in_form,
  follows,
  passes,
  form_from,
  table_form,
};

use crate::entry::EntryWords;
use game::{Game, Question, Refusal, Sizes, has_state, is_rule_of, is_within};

// 13. Is the table well formed? Its length, then its entries from index 0 on.
pub fn table_form(sizes: Sizes, rules: &[u8], words: &[u32]) -> Result<(), Refusal>
    requires { Safe sizes rules.now }
    ensures { (g : PushdownGame) → Held g sizes rules.now → said result ≡ table_form g words.now }
{
    if !is_length(words.len()) {
        return Err(Question::Table.at(0));
    }
    entries_form(sizes, rules, 0, EntryWords::none(), words)
}

// 13 of a part of a table, in one pass: the entries from index `first` on, `before` being the one before them. At index 0 there is
// none, and `before` is not looked at. The state of the pass is the index and the entry before it.
pub fn entries_form(
    sizes: Sizes,
    rules: &[u8],
    first: usize,
    before: EntryWords,
    words: &[u32],
) -> Result<(), Refusal>
    requires { Safe sizes rules.now × (first + length words.now / entry_stride ≤ max_entries) }
    ensures { (g : PushdownGame) → Held g sizes rules.now
        → said result ≡ form_from g first before.first before.set before.rule words.now }
{
    let mut last = before;
    for i in 0..words.len() / EntryWords::STRIDE {
        let entry = EntryWords::at(words, i);
        if !does_pass(sizes, rules, first + i, last, entry) {
            return Err(Question::Table.at(first + i));
        }
        last = entry;
    }
    Ok(())
}

// The length that questions 10 and 13 ask: a multiple of 3 from 3 to 6,144 words.
#[tactic(auto, unfolding(crate::specs::Table::length_in_form))]
pub fn is_length(n: usize) -> bool
    ensures { result ≡ length_in_form n }
{
    EntryWords::STRIDE <= n
        && n <= EntryWords::STRIDE * Game::MAX_ENTRIES
        && n % EntryWords::STRIDE == 0
}

// An entry is unused, or in form and after the one before it.
#[tactic(auto, unfolding(crate::specs::Table::passes))]
fn does_pass(sizes: Sizes, rules: &[u8], i: usize, before: EntryWords, entry: EntryWords) -> bool
    requires { Safe sizes rules.now }
    ensures { (g : PushdownGame) → Held g sizes rules.now
        → result ≡ passes g i before.first before.set before.rule entry.first entry.set entry.rule }
{
    entry.is_unused() || (does_follow(i, before, entry) && is_entry_in_form(sizes, rules, entry))
}

// A used entry comes first, or after a used one of a lower key.
#[tactic(auto, unfolding(crate::specs::Table::follows))]
fn does_follow(i: usize, before: EntryWords, entry: EntryWords) -> bool
    ensures { result ≡ follows i before.first before.set before.rule (entry_of entry.first entry.set entry.rule) }
{
    i == 0 || (!before.is_unused() && before.key() < entry.key())
}

// A used entry is in form.
fn is_entry_in_form(sizes: Sizes, rules: &[u8], entry: EntryWords) -> bool
    requires { Safe sizes rules.now }
    ensures { (g : PushdownGame) → Held g sizes rules.now
        → result ≡ entry_in_form g (entry_of entry.first entry.set entry.rule) }
{
    let state = entry.state();
    let letter = entry.letter();
    let set = entry.set;
    if sizes.states <= state {
        return false;
    }
    if sizes.letters <= letter {
        return false;
    }
    if set == 0 {
        return false;
    }
    if !is_within(0, sizes.states, set) {
        return false;
    }
    if !is_birthdate_in_form(sizes.control, state, set, entry.birthdate()) {
        return false;
    }
    is_rule_in_form(sizes, rules, state, letter, entry.birthdate(), entry.rule)
}

// Birthdate 0 and no control state in the set, or a control state's birthdate within the rounds.
fn is_birthdate_in_form(control: u8, state: u8, set: u32, birthdate: u32) -> bool
    requires { control ≤ max_states }
    ensures { result ≡ birthdate_in_form control state set birthdate }
{
    if birthdate == 0 {
        return is_within(control, Game::MAX_STATES, set);
    }
    if control <= state {
        return false;
    }
    birthdate <= Game::MAX_ROUNDS
}

// The rule field names a rule of the head where Éloise's entry was born in a round, and is 0 elsewhere.
fn is_rule_in_form(
    sizes: Sizes,
    rules: &[u8],
    state: u8,
    letter: u8,
    birthdate: u32,
    rule: u32,
) -> bool
    requires { Safe sizes rules.now }
    ensures { (g : PushdownGame) → Held g sizes rules.now
        → result ≡ rule_in_form g state letter birthdate rule }
{
    if birthdate == 0 {
        return rule == 0;
    }
    if sizes.control <= state {
        return rule == 0;
    }
    if has_state(sizes.abelard, state) {
        return rule == 0;
    }
    if rule == 0 {
        return false;
    }
    is_rule_numbered(sizes.rulecount, rules, state, letter, rule - 1)
}

// The rule of a number is one of the head (p, a).
pub fn is_rule_numbered(rulecount: usize, rules: &[u8], p: u8, a: u8, number: u32) -> bool
    requires { (rulecount * 6 ≤ length rules.now) × (rulecount ≤ max_rules) }
    ensures { (g : PushdownGame) (sizes : Sizes) → sizes.rulecount ≡ rulecount → Held g sizes rules.now
        → result ≡ is_rule_of g p a number }
{
    let n = number as usize;
    if rulecount <= n {
        return false;
    }
    is_rule_of(rules, n * Game::RULE_STRIDE, p, a)
}
