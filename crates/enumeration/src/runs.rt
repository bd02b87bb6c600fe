// The enumeration of runs by functions that call each other: one run for each rule of a job, the runs of a rule by their
// first transition, one transition for each state left of a set. Each adds the entries of the unions that it ends in.
ghost use Rattle.std.specs.Prelude.{◌≡◌, ℕ, ◌+◌, ◌*◌, ◌^◌, ◌<◌, ◌≤◌, length, max, unwrap_or, IfSome};
ghost use mathlib.Core.List.{List, map, flat_map};
ghost use Rattle.game.specs.Limits.{max_states, max_rules};
ghost use Rattle.game.specs.Game.{PushdownGame};
ghost use Rattle.game.specs.Sets.{single, union as unite};
ghost use Rattle.table.specs.Table.{Entry};
ghost use Rattle.rounds.specs.Rounds.{entry_at};
ghost use Rattle.rounds.specs.Enumeration.{rest_runs};
ghost use Rattle.rounds.specs.Growing.{Growing};
ghost use Rattle.rounds.specs.Filled.{number_of};
ghost use Rattle.enumeration.specs.Places.{Placing};
ghost use Rattle.enumeration.specs.Lists.{Listed, start_of, stop_of, listed_runs};
ghost use Rattle.enumeration.specs.Walk.{Skipped};
ghost use Rattle.rounds.specs.Scans.{rules_between};
ghost use Rattle.enumeration.specs.Past.{older, Past, Aging};
ghost use Rattle.enumeration.specs.NextLaws.{begin_of};
ghost use Rattle.enumeration.specs.Jobs.{tag_of, Able, Late, Whole, Entered, Finished, sub_runs, begin_runs};

use crate::fresh::{fresh_on, older_below, still_late};
use crate::lists::{Lists, is_listed, list_end, list_start};
use crate::memo::{finish, is_finished};
use crate::places::{end_at, is_blocked, start_at};
use game::Game;
use rounds::{highest, insert, next_rule};
use table::EntryWords;

// What an enumeration is for: a head, the entries' first word and rule field, the rules' end, the old round's size, and a rule from
// which on no rule of the job can have an entry of the last round.
#[derive(Clone, Copy)]
pub struct Job {
    pub state: u8,
    pub letter: u8,
    pub first: u32,
    pub field: u32,
    pub end: usize,
    pub count: usize,
    pub last: usize,
}

// A job with what its runs are taken from: the rules, the old round, where the entries of each head stand in it, and the marks of those of
// the last round.
#[derive(Clone, Copy)]
pub struct Task<'a> {
    pub job: Job,
    pub rules: &'a [u8],
    pub work: &'a [u32],
    pub places: &'a [usize],
    pub fresh: &'a [u32],
    ghost able: { Able job (length rules.now) (length work.now) },
}

// A set with a state more; the set itself, where there is no such state.
pub fn joined(set: u32, s: u8) -> u32
    ensures { s < max_states → result ≡ unite set (single s) }
{
    if Game::MAX_STATES <= s {
        return set;
    }
    set | (1u32 << s)
}

// A number of its own for each head and rule, never 0.
pub fn tag_of(state: u8, letter: u8, r: usize) -> u32
    requires { r < max_rules }
    ensures { result ≡ tag_of state letter r }
{
    ((state as u32) * (Game::MAX_LETTERS as u32) + (letter as u32)) * (Game::MAX_RULES as u32)
        + (r as u32)
        + 1
}

// One run for each rule of the job from place `from` on, united with what was passed. Here and below `late` is 0 where an entry of
// the last round was passed; otherwise an entry is older if its first word is below `late`, and what older entries alone give from
// here on is in the table already.
#[cycle(runs)]
pub fn rules_from(
    task: &Task,
    lists: &Lists,
    table: &mut [u32],
    memo: &mut [u32],
    count: usize,
    from: usize,
    union: u32,
    late: u32,
) -> Option<usize>
    requires { from ≤ task.now.job.end }
    ensures finished { let job = task.now.job in (g : PushdownGame) (old : List Entry) (birthdate n : ℕ) (s : Growing)
        → Entered g old birthdate n job task.now.rules.now task.now.work.now table.old count memo.old s
        → Placing g task.now.work.now job.count task.now.places.now
        → Aging g old birthdate job task.now.fresh.now → Listed g old lists.now.sets.now lists.now.spans.now
        → Late g job from → 0 < union
        → Past birthdate n late (map (entry_at job.state job.letter birthdate job.field) (rest_runs g (older birthdate old) (rules_between g job.state job.letter from job.end) union)) s
        → Finished g old birthdate n
        (map (entry_at job.state job.letter birthdate job.field) (rest_runs g old (rules_between g job.state job.letter from job.end) union))
        s table.new (number_of n result) memo.new }
    ensures within { count * 3 ≤ length table.old → IfSome result (λ filled. filled * 3 ≤ length table.old) }
{
    let Some(r) = next_rule(
        task.rules,
        task.job.end,
        from,
        task.job.state,
        task.job.letter,
    ) else {
        let entry = EntryWords {
            first: task.job.first,
            set: union,
            rule: task.job.field,
        };
        return insert(table, count, entry);
    };
    let at = r * Game::RULE_STRIDE;
    if task.rules[at + 3] == 0 {
        let passed = joined(union, task.rules[at + 2]);
        return rules_after(task, lists, table, memo, count, r, passed, late);
    }
    if is_listed(lists.sets, lists.spans, r) {
        return rules_by(task, lists, table, memo, count, r, union);
    }
    let end = end_at(
        task.places,
        task.job.count,
        task.rules[at + 2],
        task.rules[at + 4],
    );
    let mut filled = count;
    for i in start_at(
        task.places,
        task.job.count,
        task.rules[at + 2],
        task.rules[at + 4],
    )
        ..end
    {
        filled = runs_with(task, lists, table, memo, filled, r, i, union, late)?;
    }
    Some(filled)
}

// The same from rule r on, which is listed: the ends of its runs one after another. What older entries give is not left out.
#[cycle(runs)]
fn rules_by(
    task: &Task,
    lists: &Lists,
    table: &mut [u32],
    memo: &mut [u32],
    count: usize,
    r: usize,
    union: u32,
) -> Option<usize>
    requires { r < task.now.job.end }
    ensures finished { let job = task.now.job in (g : PushdownGame) (old : List Entry) (birthdate n : ℕ) (s : Growing)
        → Entered g old birthdate n job task.now.rules.now task.now.work.now table.old count memo.old s
        → Placing g task.now.work.now job.count task.now.places.now
        → Aging g old birthdate job task.now.fresh.now → Listed g old lists.now.sets.now lists.now.spans.now
        → Whole g job r → start_of lists.now.spans.now r < stop_of lists.now.spans.now r (length lists.now.sets.now)
        → Finished g old birthdate n
        (map (entry_at job.state job.letter birthdate job.field) (listed_runs g old job.state job.letter job.end lists.now.sets.now lists.now.spans.now r union))
        s table.new (number_of n result) memo.new }
    ensures within { count * 3 ≤ length table.old → IfSome result (λ filled. filled * 3 ≤ length table.old) }
{
    let end = list_end(lists.spans, r, lists.sets.len());
    let mut filled = count;
    for i in list_start(lists.spans, r)..end {
        filled = rules_after(
            task,
            lists,
            table,
            memo,
            filled,
            r,
            union | lists.sets[i],
            0,
        )?;
    }
    Some(filled)
}

// The runs of rule r that begin with entry i of the old round.
#[cycle(runs)]
pub fn runs_with(
    task: &Task,
    lists: &Lists,
    table: &mut [u32],
    memo: &mut [u32],
    count: usize,
    r: usize,
    i: usize,
    union: u32,
    late: u32,
) -> Option<usize>
    requires { (r < task.now.job.end) × (i < task.now.job.count) }
    ensures finished { let job = task.now.job in (g : PushdownGame) (old : List Entry) (birthdate n : ℕ) (s : Growing)
        → Entered g old birthdate n job task.now.rules.now task.now.work.now table.old count memo.old s
        → Placing g task.now.work.now job.count task.now.places.now
        → Aging g old birthdate job task.now.fresh.now → Listed g old lists.now.sets.now lists.now.spans.now
        → Whole g job r
        → Past birthdate n late (map (entry_at job.state job.letter birthdate job.field) (flat_map (begin_of g (older birthdate old) job.state job.letter job.end r union) (older birthdate old))) s
        → Finished g old birthdate n
        (map (entry_at job.state job.letter birthdate job.field) (begin_runs g old job.state job.letter job.end r i union))
        s table.new (number_of n result) memo.new }
    ensures within { count * 3 ≤ length table.old → IfSome result (λ filled. filled * 3 ≤ length table.old) }
{
    let entry = EntryWords::at(task.work, i);
    let at = r * Game::RULE_STRIDE;
    if entry.state() != task.rules[at + 2] {
        return Some(count);
    }
    if entry.letter() != task.rules[at + 4] {
        return Some(count);
    }
    let still = still_late(late, entry.first);
    if task.rules[at + 3] == 1 {
        return rules_after(task, lists, table, memo, count, r, union | entry.set, still);
    }
    if is_blocked(task.places, task.job.count, entry.set, task.rules[at + 5]) {
        return Some(count);
    }
    let among = entry.set & fresh_on(task.fresh, task.rules[at + 5]);
    if 0 < older_below(task.job.last, r, among, still) {
        return Some(count);
    }
    pass_states(task, lists, table, memo, count, r, entry.set, union, still)
}

// Rule r is passed, with a union in hand: the job's later rules, unless the memo has it, or no entry of the last round is on the way
// and none can come.
#[cycle(runs)]
pub fn rules_after(
    task: &Task,
    lists: &Lists,
    table: &mut [u32],
    memo: &mut [u32],
    count: usize,
    r: usize,
    union: u32,
    late: u32,
) -> Option<usize>
    requires { r < task.now.job.end }
    ensures finished { let job = task.now.job in (g : PushdownGame) (old : List Entry) (birthdate n : ℕ) (s : Growing)
        → Entered g old birthdate n job task.now.rules.now task.now.work.now table.old count memo.old s
        → Placing g task.now.work.now job.count task.now.places.now
        → Aging g old birthdate job task.now.fresh.now → Listed g old lists.now.sets.now lists.now.spans.now
        → Whole g job r → 0 < union
        → Past birthdate n late (map (entry_at job.state job.letter birthdate job.field) (sub_runs g (older birthdate old) job.state job.letter job.end r 0 union)) s
        → Finished g old birthdate n
        (map (entry_at job.state job.letter birthdate job.field) (sub_runs g old job.state job.letter job.end r 0 union))
        s table.new (number_of n result) memo.new }
    ensures within { count * 3 ≤ length table.old → IfSome result (λ filled. filled * 3 ≤ length table.old) }
{
    if 0 < older_below(task.job.last, r, 0, late) {
        return Some(count);
    }
    let tag = tag_of(task.job.state, task.job.letter, r);
    if is_finished(memo, tag, 0, union) {
        return Some(count);
    }
    let filled = rules_from(task, lists, table, memo, count, r + 1, union, late);
    finish(memo, tag, 0, union);
    filled
}

// One transition for each of the states of a set, then the job's later rules. A level is a set of states left, the union in hand, the
// next entry to take, and `late` for the way to it; the highest state left is passed by each of its transitions in turn, and a
// transition that is not passed over opens the level of the states below. The levels above the last one wait in four arrays: there
// are no more than states.
#[cycle(runs)]
fn pass_states(
    task: &Task,
    lists: &Lists,
    table: &mut [u32],
    memo: &mut [u32],
    count: usize,
    r: usize,
    set: u32,
    reached: u32,
    late: u32,
) -> Option<usize>
    requires { (r < task.now.job.end) × (0 < set) }
    ensures finished { let job = task.now.job in (g : PushdownGame) (old : List Entry) (birthdate n : ℕ) (s : Growing)
        → Entered g old birthdate n job task.now.rules.now task.now.work.now table.old count memo.old s
        → Placing g task.now.work.now job.count task.now.places.now
        → Aging g old birthdate job task.now.fresh.now → Listed g old lists.now.sets.now lists.now.spans.now
        → Whole g job r → set < 2 ^ g.states
        → Past birthdate n late (map (entry_at job.state job.letter birthdate job.field) (sub_runs g (older birthdate old) job.state job.letter job.end r set reached)) s
        → Finished g old birthdate n
        (map (entry_at job.state job.letter birthdate job.field) (sub_runs g old job.state job.letter job.end r set reached))
        s table.new (number_of n result) memo.new }
    ensures within { count * 3 ≤ length table.old → IfSome result (λ filled. filled * 3 ≤ length table.old) }
{
    let tag = tag_of(task.job.state, task.job.letter, r);
    let below = task.rules[r * Game::RULE_STRIDE + 5];
    let mut lefts = [0u32; Game::MAX_STATES as usize];
    let mut unions = [0u32; Game::MAX_STATES as usize];
    let mut nexts = [0usize; Game::MAX_STATES as usize];
    let mut limits = [0u32; Game::MAX_STATES as usize];
    let new = fresh_on(task.fresh, below);
    let mut depth = 0;
    let mut filled = count;
    let mut left = set;
    let mut union = reached;
    let mut limit = late;
    let mut i = start_at(task.places, task.job.count, highest(set), below);
    loop {
        let q = highest(left);
        let rest = left % (1u32 << q);
        let end = end_at(task.places, task.job.count, q, below);
        let passing = older_below(task.job.last, r, rest & new, limit);
        let Some(found) = next_open(task.work, memo, tag, rest, union, i, end, passing) else {
            if depth == 0 {
                return Some(filled);
            }
            finish(memo, tag, left, union);
            depth -= 1;
            left = lefts[depth];
            union = unions[depth];
            i = nexts[depth];
            limit = limits[depth];
            continue;
        };
        let passed = union | task.work[found * EntryWords::STRIDE + 1];
        let still = still_late(limit, task.work[found * EntryWords::STRIDE]);
        if rest == 0 {
            filled = rules_after(task, lists, table, memo, filled, r, passed, still)?;
            i = found + 1;
            continue;
        }
        lefts[depth] = left;
        unions[depth] = union;
        nexts[depth] = found + 1;
        limits[depth] = limit;
        depth += 1;
        left = rest;
        union = passed;
        limit = still;
        i = start_at(task.places, task.job.count, highest(rest), below);
    }
}

// The first place from `from` on, before `end`, of an entry that is not passed over: its first word is not below `passing`, and the
// memo does not have its set, united with what was passed, with the states `rest` left.
fn next_open(
    work: &[u32],
    memo: &[u32],
    tag: u32,
    rest: u32,
    union: u32,
    from: usize,
    end: usize,
    passing: u32,
) -> Option<usize>
    requires { end * 3 ≤ length work.now }
    ensures skipped { Skipped work.now memo.now tag rest union from end passing (unwrap_or result (max from end)) }
    ensures within { IfSome result (λ i. i < end) }
{
    for i in from..end {
        let at = i * EntryWords::STRIDE;
        if work[at] < passing {
            continue;
        }
        if !is_finished(memo, tag, rest, union | work[at + 1]) {
            return Some(i);
        }
    }
    None
}
