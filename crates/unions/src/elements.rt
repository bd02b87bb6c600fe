// The few states that can be in a set at all, and sets of them as small numbers: bit i for the i-th of these states.
ghost use Rattle.std.specs.Prelude.{◌≡◌, List, ℕ, ◌*◌, ◌^◌, ◌<◌, ◌≤◌, length, get_or};
ghost use Rattle.game.specs.Game.{PushdownGame};
ghost use Rattle.game.specs.LowestLaws.{LowestOf};
ghost use Rattle.unions.specs.Expand.{expand, Within};
ghost use Rattle.unions.specs.ElementsOf.{ElementsOf, HeldTargets, Reached, Gathered, target_set, pop_set, pop_set_at, Named};

use game::{Game, Sizes};

// How many elements there are, their states, the lowest first, and for each state its number as a set, 0 where it is no element. States
// and numbers are those of the first ten.
#[derive(Clone, Copy)]
pub struct Numbering {
    pub count: usize,
    pub states: [u8; 16],
    pub numbers: [usize; 32],
}

// The elements of a game: the states of the sets of target transitions, and those to which rules lead that write no letters.
pub fn elements_of(sizes: Sizes, rules: &[u8], targets: &[u32]) -> Numbering
    requires { (sizes.rulecount * 6 ≤ length rules.now) × (sizes.targetcount * 3 ≤ length targets.now) }
    ensures by_index { (g : PushdownGame) → HeldTargets g sizes rules.now targets.now → result.count ≤ 10
        → (el : List ℕ) × ElementsOf g el result.count result.states result.numbers }
    ensures by_index_2 { (q : ℕ) → q < 32 → get_or result.numbers q 0 < 1024 }
{
    number_states(element_states(sizes, rules, targets))
}

// The elements as a set of states.
fn element_states(sizes: Sizes, rules: &[u8], targets: &[u32]) -> u32
    requires { (sizes.rulecount * 6 ≤ length rules.now) × (sizes.targetcount * 3 ≤ length targets.now) }
    ensures { (g : PushdownGame) → HeldTargets g sizes rules.now targets.now → Reached g result }
{
    target_states(targets, sizes.targetcount) | pop_states(rules, sizes.rulecount)
}

// The states of the sets of target transitions.
fn target_states(targets: &[u32], count: usize) -> u32
    requires { count * 3 ≤ length targets.now }
    ensures { Gathered (target_set targets.now) count result }
{
    let mut set = 0u32;
    for t in 0..count {
        set = set | targets[t * Game::TARGET_STRIDE + 2];
    }
    set
}

// The states to which rules lead that write no letters.
fn pop_states(rules: &[u8], count: usize) -> u32
    requires { count * 6 ≤ length rules.now }
    ensures { Gathered (pop_set_at rules.now) count result }
{
    let mut set = 0u32;
    for r in 0..count {
        let at = r * Game::RULE_STRIDE;
        set = set | pop_set(rules[at + 2], rules[at + 3]);
    }
    set
}

// The state to which a rule leads, as a set, if the rule writes no letters, and else the empty set.
fn pop_set(to: u8, written: u8) -> u32
    ensures { result ≡ pop_set to written }
{
    if written == 0 {
        return 1u32 << (to % 32);
    }
    0
}

// The states of a set, the lowest first, and their numbers.
fn number_states(set: u32) -> Numbering
    ensures named { result.count ≤ 10 → Named set 0 result.count result.states result.numbers }
    ensures by_index { (q : ℕ) → q < 32 → get_or result.numbers q 0 < 1024 }
{
    let mut states = [0u8; 16];
    let mut numbers = [0usize; 32];
    let mut count = 0;
    let mut rest = set;
    while rest != 0 {
        let s = lowest_state(rest);
        if count < 10 {
            states[count] = s as u8;
            numbers[s] = 1usize << count;
        }
        count += 1;
        rest = rest & (rest - 1);
    }
    Numbering {
        count,
        states,
        numbers,
    }
}

// The set of elements that stands for a set of states, from each state's number as a set.
pub fn element_set(numbers: &[usize], set: u32) -> usize
    requires { (length numbers.now ≡ 32) × ((q : ℕ) → q < 32 → get_or numbers.now q 0 < 1024) }
    ensures upper_bound { result < 1024 }
    ensures upper_bound_2 { (g : PushdownGame) (el : List ℕ) (count : ℕ) (states : List ℕ) → ElementsOf g el count states numbers.now → Within el set
        → (result < 2 ^ length el) × (expand el result ≡ set) }
{
    let mut found = 0usize;
    let mut rest = set;
    while rest != 0 {
        let s = lowest_state(rest);
        found = found | numbers[s];
        rest = rest & (rest - 1);
    }
    found
}

// The lowest state of a set that is not empty.
fn lowest_state(set: u32) -> usize
    requires { 0 < set }
    ensures { LowestOf 32 set result }
{
    u32::trailing_zeros(set) as usize
}
