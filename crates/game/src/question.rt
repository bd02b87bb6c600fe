// Questions 3 to 7, put to one command after the game so far; and question 9.
ghost use Rattle.std.specs.Prelude.{◌≡◌, not, true, List, ◌++◌, ℕ, ◌<◌, ◌≤◌, ◌+◌, ◌*◌, length, get_or};
ghost use Rattle.game.specs.Limits.{max_control, max_states, max_letters, max_rules, max_targets, rule_stride, target_stride};
ghost use Rattle.game.specs.Sets.{has, within};
ghost use Rattle.game.specs.Game.{PushdownGame, Rule, Transition, word_of, of_head};
ghost use Rattle.game.specs.Stored.{rule_bytes, rule_at, target_words, target_at};
ghost use Rattle.game.specs.Outcome.{asked};
ghost use Rattle.game.specs.Parts.{Parts, Fit};
ghost use Rattle.game.specs.Marks.{Filtered, HeadMarks, Headed, letters_marked};
ghost use Rattle.game.specs.Questions.{
  in_order,
  sizes_in_range,
  unused_zero,
  rule_in_range,
  target_in_range,
  in_range,
  bottom_last,
  no_bottom,
  bottom_kept,
  keeps_bottom,
  same_rule,
  same_target,
  is_new,
  has_room,
  ask,
  any,
  all_below,
  every_head,
};

use crate::command::Command;
use crate::filter::{head_slot, is_marked, mark};
use crate::game::{Game, Sizes};
use crate::refusal::Question;
use crate::rule::{RuleBytes, TargetWords};

// Questions 3 to 7: the first that is answered no.
pub fn ask_command(
    sizes: Sizes,
    rules: &[u8],
    targets: &[u32],
    marks: &[u64],
    command: Command,
) -> Result<(), Question>
    requires { (sizes.control ≤ max_states) × (sizes.states ≤ max_states) × Fit sizes rules.now targets.now marks.now }
    ensures { (g : PushdownGame) → Parts g sizes rules.now targets.now → Filtered g marks.now
        → asked result ≡ ask g command }
{
    if !is_in_order(sizes.states, command) {
        return Err(Question::Order);
    }
    if !is_in_range(sizes.control, sizes.states, sizes.letters, command) {
        return Err(Question::Range);
    }
    if !is_bottom_kept(command) {
        return Err(Question::Bottom);
    }
    if !is_new(sizes, rules, targets, marks, command) {
        return Err(Question::New);
    }
    if !is_room(sizes.rulecount, sizes.targetcount, command) {
        return Err(Question::Room);
    }
    Ok(())
}

// 3. Is 01 the first command, and only there?
fn is_in_order(states: u8, command: Command) -> bool
    ensures { result ≡ in_order states command }
{
    match command {
        Command::Sizes { .. } => states == 0,
        _ => states != 0,
    }
}

// 4. Are operands in range?
#[tactic(auto, unfolding(crate::specs::Questions::in_range, crate::specs::Questions::between))]
fn is_in_range(control: u8, states: u8, letters: u8, command: Command) -> bool
    requires { (control ≤ max_states) × (states ≤ max_states) }
    ensures { result ≡ in_range control states letters command }
{
    match command {
        Command::Sizes {
            control: p,
            states: s,
            letters: l,
        } => are_sizes_in_range(p, s, l),
        Command::Abelard { state } => state < control,
        Command::Final { state } => control <= state && state < states,
        Command::Rule(rule) => is_rule_in_range(control, letters, rule),
        Command::Target(target) => is_target_in_range(control, states, letters, target),
        Command::End => true,
    }
}

#[tactic(auto, unfolding(crate::specs::Questions::sizes_in_range))]
fn are_sizes_in_range(control: u8, states: u8, letters: u8) -> bool
    ensures { result ≡ sizes_in_range control states letters }
{
    1 <= control
        && control <= Game::MAX_CONTROL
        && control < states
        && states <= Game::MAX_STATES
        && 1 <= letters
        && letters <= Game::MAX_LETTERS
}

#[tactic(auto, unfolding(crate::specs::Questions::rule_in_range))]
fn is_rule_in_range(control: u8, letters: u8, rule: RuleBytes) -> bool
    ensures { result ≡ rule_in_range control letters rule.from rule.top rule.to rule.count rule.above rule.below }
{
    rule.from < control
        && rule.top < letters
        && rule.to < control
        && rule.count <= 2
        && rule.above < letters
        && rule.below < letters
        && are_unused_zero(rule)
}

#[tactic(auto, unfolding(crate::specs::Questions::unused_zero))]
fn are_unused_zero(rule: RuleBytes) -> bool
    ensures { result ≡ unused_zero rule.count rule.above rule.below }
{
    2 <= rule.count || (rule.below == 0 && (1 <= rule.count || rule.above == 0))
}

#[tactic(auto, unfolding(crate::specs::Questions::target_in_range))]
fn is_target_in_range(control: u8, states: u8, letters: u8, target: TargetWords) -> bool
    requires { (control ≤ max_states) × (states ≤ max_states) }
    ensures { result ≡ target_in_range control states letters target.state target.letter target.set }
{
    target.state < states
        && target.letter < letters
        && target.set != 0
        && is_within(control, states, target.set)
}

// Only states from `low` to `high` - 1 are in the set.
#[tactic(auto, unfolding(crate::specs::Sets::within))]
pub fn is_within(low: u8, high: u8, set: u32) -> bool
    requires { (low ≤ max_states) × (high ≤ max_states) }
    ensures { result ≡ within low high set }
{
    let wide = set as u64;
    wide % (1u64 << low) == 0 && wide >> high == 0
}

// 5. Does the rule keep the bottom?
fn is_bottom_kept(command: Command) -> bool
    ensures { result ≡ keeps_bottom command }
{
    match command {
        Command::Rule(rule) => is_word_kept(rule),
        _ => true,
    }
}

#[tactic(auto, unfolding(crate::specs::Questions::bottom_kept))]
fn is_word_kept(rule: RuleBytes) -> bool
    ensures { result ≡ bottom_kept rule.top (word_of rule.count rule.above rule.below) }
{
    if rule.top == 0 {
        is_bottom_last(rule)
    } else {
        is_bottom_absent(rule)
    }
}

#[tactic(auto, unfolding(crate::specs::Questions::bottom_last, crate::specs::Game::word_of))]
fn is_bottom_last(rule: RuleBytes) -> bool
    ensures { result ≡ bottom_last (word_of rule.count rule.above rule.below) }
{
    match rule.count {
        0 => false,
        1 => rule.above == 0,
        _ => rule.above != 0 && rule.below == 0,
    }
}

#[tactic(auto, unfolding(crate::specs::Questions::no_bottom, crate::specs::Game::word_of))]
fn is_bottom_absent(rule: RuleBytes) -> bool
    ensures { result ≡ no_bottom (word_of rule.count rule.above rule.below) }
{
    match rule.count {
        0 => true,
        1 => rule.above != 0,
        _ => rule.above != 0 && rule.below != 0,
    }
}

// 6. Is the statement new?
fn is_new(sizes: Sizes, rules: &[u8], targets: &[u32], marks: &[u64], command: Command) -> bool
    requires { Fit sizes rules.now targets.now marks.now }
    ensures { (g : PushdownGame) → Parts g sizes rules.now targets.now → Filtered g marks.now
        → result ≡ is_new g command }
{
    match command {
        Command::Abelard { state } => !has_state(sizes.abelard, state),
        Command::Final { state } => !has_state(sizes.finals, state),
        Command::Rule(rule) => {
            if !is_marked(marks, rule.slot()) {
                return true;
            }
            !is_rule_stored(rules, sizes.rulecount, rule)
        }
        Command::Target(target) => {
            if !is_marked(marks, target.slot()) {
                return true;
            }
            !is_target_stored(targets, sizes.targetcount, target)
        }
        _ => true,
    }
}

// State s is in the set.
#[tactic(auto, unfolding(crate::specs::Sets::has))]
pub fn has_state(set: u32, s: u8) -> bool
    ensures { result ≡ has set s }
{
    s < Game::MAX_STATES && (set >> s) % 2 == 1
}

// One of the first `stored` rules is this one.
fn is_rule_stored(rules: &[u8], stored: usize, rule: RuleBytes) -> bool
    requires { (stored * rule_stride ≤ length rules.now) × (stored ≤ max_rules) }
    ensures { (rs : List Rule) (t : List ℕ) → rules.now ≡ rule_bytes rs ++ t → stored ≡ length rs
        → result ≡ any (same_rule rule.from rule.top rule.to rule.count rule.above rule.below) rs }
{
    for r in 0..stored {
        if RuleBytes::at(rules, r) == rule {
            return true;
        }
    }
    false
}

// One of the first `stored` target transitions is this one.
fn is_target_stored(targets: &[u32], stored: usize, target: TargetWords) -> bool
    requires { (stored * target_stride ≤ length targets.now) × (stored ≤ max_targets) }
    ensures { (ts : List Transition) (t : List ℕ) → targets.now ≡ target_words ts ++ t → stored ≡ length ts
        → result ≡ any (same_target target.state target.letter target.set) ts }
{
    for t in 0..stored {
        if is_target_at(targets, t, target) {
            return true;
        }
    }
    false
}

#[tactic(auto, unfolding(crate::specs::Questions::same_target))]
fn is_target_at(targets: &[u32], place: usize, target: TargetWords) -> bool
    requires { (place + 1) * target_stride ≤ length targets.now }
    ensures { result ≡ same_target target.state target.letter target.set (target_at targets.now (place * target_stride)) }
{
    let at = place * Game::TARGET_STRIDE;
    targets[at] == target.state as u32
        && targets[at + 1] == target.letter as u32
        && targets[at + 2] == target.set
}

// 7. Were fewer than 256 of its kind before?
fn is_room(rules: usize, targets: usize, command: Command) -> bool
    ensures { result ≡ has_room rules targets command }
{
    match command {
        Command::Rule(_) => rules < Game::MAX_RULES,
        Command::Target(_) => targets < Game::MAX_TARGETS,
        _ => true,
    }
}

// 9. Has every head a rule? The heads of the rules are marked in one pass, and then every head is looked for.
pub fn is_every_head(rules: &[u8], stored: usize, control: u8, letters: u8) -> bool
    requires { (stored * rule_stride ≤ length rules.now) × (stored ≤ max_rules) × (control ≤ max_control) × (letters ≤ max_letters) }
    ensures { (rs : List Rule) (t : List ℕ) → rules.now ≡ rule_bytes rs ++ t → stored ≡ length rs
        → result ≡ every_head control letters rs }
{
    let mut heads = [0u64; Game::MAX_CONTROL as usize];
    mark_heads(&mut heads, rules, stored);
    are_heads_marked(&heads, control, letters)
}

// The heads of the first `stored` rules marked; the bit of a head is the letter's in the word of its control state.
fn mark_heads(heads: &mut [u64], rules: &[u8], stored: usize)
    requires { (stored * rule_stride ≤ length rules.now) × (stored ≤ max_rules) × (length heads.old ≡ max_control) }
    ensures { Headed rules.now 0 heads.old → Headed rules.now stored heads.new }
{
    for i in 0..stored {
        let at = i * Game::RULE_STRIDE;
        mark_head(heads, rules[at], rules[at + 1]);
    }
}

fn mark_head(heads: &mut [u64], from: u8, top: u8)
    requires { length heads.old ≡ max_control }
    ensures { HeadMarks heads.old from top heads.new }
{
    if Game::MAX_CONTROL <= from {
        return;
    }
    if Game::MAX_LETTERS <= top {
        return;
    }
    mark(heads, head_slot(from, top));
}

fn are_heads_marked(heads: &[u64], control: u8, letters: u8) -> bool
    requires { (length heads.now ≡ max_control) × (control ≤ max_control) × (letters ≤ max_letters) }
    ensures { result ≡ all_below control (letters_marked heads.now letters) }
{
    for p in 0..control {
        if !is_every_letter(heads, p, letters) {
            return false;
        }
    }
    true
}

// Control state p is marked with every letter.
fn is_every_letter(heads: &[u64], p: u8, letters: u8) -> bool
    requires { (length heads.now ≡ max_control) × (p < max_control) × (letters ≤ max_letters) }
    ensures { result ≡ letters_marked heads.now letters p }
{
    for a in 0..letters {
        if !is_marked(heads, head_slot(p, a)) {
            return false;
        }
    }
    true
}

// The rule stored at an offset is one of the head (p, a).
#[tactic(auto, unfolding(crate::specs::Game::of_head))]
pub fn is_rule_of(rules: &[u8], at: usize, p: u8, a: u8) -> bool
    requires { at + rule_stride ≤ length rules.now }
    ensures { result ≡ of_head p a (rule_at rules.now at 0) }
{
    rules[at] == p && rules[at + 1] == a
}
