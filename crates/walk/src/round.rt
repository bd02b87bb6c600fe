// A round: what the runs of the old round give, head by head, rule by rule and run by run.
ghost use Rattle.std.specs.Prelude.{◌≡◌, ◌⊎◌, true, List, map, ℕ, ◌+◌, ◌*◌, ◌<◌, ◌≤◌, length, unwrap_or, IfSome};
ghost use Rattle.game.specs.Limits.{max_rules};
ghost use Rattle.game.specs.Sets.{has};
ghost use Rattle.game.specs.Game.{PushdownGame};
ghost use Rattle.game.specs.GoodGame.{Good};
ghost use Rattle.game.specs.Held.{Held, Safe};
ghost use Rattle.table.specs.Table.{Entry};
ghost use Rattle.rounds.specs.Rounds.{entry_at, candidates};
ghost use Rattle.rounds.specs.RoundLaws.{AllRanged};
ghost use Rattle.rounds.specs.GrowingLaws.{HeldBy};
ghost use Rattle.rounds.specs.Enumeration.{rest_runs};
ghost use Rattle.rounds.specs.Scans.{rules_between};
ghost use Rattle.enumeration.specs.Past.{late_of, older, Past, Aging, Marked, SettledFrom};
ghost use Rattle.rounds.specs.Growing.{Growing, growing, partly};
ghost use Rattle.rounds.specs.Filled.{Stored, Filled, number_of};
ghost use Rattle.enumeration.specs.Jobs.{Able, Whole, Entered, Finished};
ghost use Rattle.enumeration.specs.Lists.{Listed, Zero};
ghost use Rattle.enumeration.specs.Places.{Placing};
ghost use Rattle.walk.specs.RoundJobs.{job_of, runs_of, run_runs, Blank, RunsStart, RunsEnd, First};
ghost use Rattle.walk.specs.TurnLaws.{agrees};

use crate::ends::list_later;
use enumeration::{
    Job, LETTERS, LINE, LINES, LISTED, Lists, PLACES, SPANS, Task, end_at, joined, last_fresh,
    late_of, rules_after, runs_with, set_fresh, set_places, start_at,
};
use game::{Game, Sizes, has_state};
use rounds::next_rule;
use table::EntryWords;

// The next round, added to a table that holds the old one as `work` does: the number of entries afterwards; none, where an entry was
// beyond the table. What the entries older than the last round give must be held already, where there was one. The memo is the
// round's own.
pub fn take_wide(
    sizes: Sizes,
    rules: &[u8],
    work: &[u32],
    table: &mut [u32],
    old: usize,
    birthdate: u32,
) -> Option<usize>
    requires { Safe sizes rules.now × (0 < sizes.letters) × (old * 3 ≤ length work.now) × (birthdate < 65536) }
    ensures filled { (g : PushdownGame) (es : List Entry) (n : ℕ) → Held g sizes rules.now → Good g → AllRanged g es
        → Stored n work.now old es → Stored n table.old old es
        → (1 < birthdate → HeldBy n (candidates g (older birthdate es) birthdate) (partly es))
        → Filled n table.new (number_of n result) (growing n (candidates g es birthdate) (partly es)) }
    ensures within { old * 3 ≤ length table.old → IfSome result (λ count. count * 3 ≤ length table.old) }
{
    let mut places = [0usize; PLACES];
    set_places(&mut places, work, old, sizes.states, sizes.letters);
    let late = late_of(birthdate);
    let mut fresh = [0u32; LETTERS];
    set_fresh(&mut fresh, work, old, late);
    let mut memo = [0u32; LINES * LINE];
    let mut lists = [0u32; LISTED];
    let mut spans = [0usize; SPANS];
    let round = Round {
        sizes,
        rules,
        work,
        places: &places,
        fresh: &fresh,
        old,
        birthdate,
        late,
    };
    add_runs(round, table, &mut memo, &mut lists, &mut spans)
}

// What a round is taken from: the game's sizes and rules, the old round, where the entries of each head stand in it, and the marks of
// those of the last round, whose first words are not below `late`.
#[derive(Clone, Copy)]
struct Round<'a> {
    sizes: Sizes,
    rules: &'a [u8],
    work: &'a [u32],
    places: &'a [usize],
    fresh: &'a [u32],
    old: usize,
    birthdate: u32,
    late: u32,
    ghost safe: { Safe sizes rules.now },
    ghost lettered: { 0 < sizes.letters },
    ghost entries: { old * 3 ≤ length work.now },
    ghost born: { birthdate < 65536 },
}

// Éloise's heads come first, then Abelard's, whose runs are the more: where the table is too small, hers alone often show it. The
// nest is left at the first entry beyond the table, whichever head or rule gave it. Abelard's head has one job, from his first rule
// on; Éloise's has one for each rule.
fn add_runs(
    round: Round,
    table: &mut [u32],
    memo: &mut [u32],
    lists: &mut [u32; LISTED],
    spans: &mut [usize; SPANS],
) -> Option<usize>
    requires { Zero spans.old }
    ensures filled { let sizes = round.entry.sizes in let old = round.entry.old in let birthdate = round.entry.birthdate in
        (g : PushdownGame) (es : List Entry) (n : ℕ) → Held g sizes round.entry.rules.now → Good g → AllRanged g es
        → Stored n round.entry.work.now old es → Stored n table.old old es
        → (1 < birthdate → HeldBy n (candidates g (older birthdate es) birthdate) (partly es))
        → round.entry.late ≡ late_of birthdate → Marked round.entry.work.now round.entry.fresh.now round.entry.late old
        → Placing g round.entry.work.now old round.entry.places.now → Blank memo.old
        → Filled n table.new (number_of n result) (growing n (candidates g es birthdate) (partly es)) }
    ensures within { round.entry.old * 3 ≤ length table.old → IfSome result (λ count. count * 3 ≤ length table.old) }
{
    let sizes = round.sizes;
    let letters = sizes.letters as usize;
    let heads = (sizes.control as usize) * letters;
    let rulecount = sizes.rulecount;
    let mut count = round.old;
    let mut found = Some(count);
    'round: for turn in 0..heads * 2 {
        let head = turn % heads;
        let p = (head / letters) as u8;
        let a = (head % letters) as u8;
        let mut next = first_rule(sizes, round.rules, p, a, heads <= turn);
        while let Some(r) = next {
            let task = Task {
                job: job_of(round, p, a, r, round.old),
                rules: round.rules,
                work: round.work,
                places: round.places,
                fresh: round.fresh,
            };
            let end = runs_end(&task, r, round.late);
            let start = runs_start(&task, r);
            list_later(&task, lists, spans, r, start, end);
            let listed = Lists { sets: lists, spans };
            for i in start..end {
                found = run_at(&task, &listed, table, memo, count, r, i, round.late);
                let Some(more) = found else {
                    break 'round;
                };
                count = more;
            }
            next = next_rule(round.rules, rulecount, task.job.end, p, a);
        }
    }
    found
}

// The first rule of a head in one of its two turns, the later one for Abelard's heads: none where the turn is not its own.
fn first_rule(sizes: Sizes, rules: &[u8], p: u8, a: u8, later: bool) -> Option<usize>
    requires { (sizes.rulecount * 6 ≤ length rules.now) × (sizes.rulecount ≤ max_rules) }
    ensures first { First rules.now sizes.rulecount (agrees (has sizes.abelard p) later) p a (unwrap_or result sizes.rulecount) }
    ensures within { IfSome result (λ r. r < sizes.rulecount) }
{
    if has_state(sizes.abelard, p) != later {
        return None;
    }
    next_rule(rules, sizes.rulecount, 0, p, a)
}

// The job of rule r of a head, over the first `old` entries: Abelard's takes one run for each of his rules, Éloise's the rule by itself.
fn job_of(round: Round, p: u8, a: u8, r: usize, old: usize) -> Job
    requires { r < round.sizes.rulecount }
    ensures value { result ≡ job_of round.entry.sizes p a round.entry.birthdate r old result.last }
    ensures settled_from { SettledFrom round.entry.rules.now round.entry.fresh.now result.end p a result.last }
{
    let sizes = round.sizes;
    let first = (p as u32) + 256 * (a as u32) + 65536 * round.birthdate;
    if has_state(sizes.abelard, p) {
        return Job {
            state: p,
            letter: a,
            first,
            field: 0,
            end: sizes.rulecount,
            count: old,
            last: last_fresh(round.rules, round.fresh, r, sizes.rulecount, p, a),
        };
    }
    Job {
        state: p,
        letter: a,
        first,
        field: (r as u32) + 1,
        end: r + 1,
        count: old,
        last: last_fresh(round.rules, round.fresh, r, r + 1, p, a),
    }
}

// Where a rule's runs begin and end, by their first transition: there is one, where it writes nothing. They end at once where none of
// them can have an entry of the last round, nor one of the job's later rules.
fn runs_start(task: &Task, r: usize) -> usize
    requires { r < task.now.job.end }
    ensures { RunsStart task.now.rules.now task.now.places.now r task.now.job.count result }
{
    let at = r * Game::RULE_STRIDE;
    if task.rules[at + 3] == 0 {
        return 0;
    }
    start_at(
        task.places,
        task.job.count,
        task.rules[at + 2],
        task.rules[at + 4],
    )
}

fn runs_end(task: &Task, r: usize, late: u32) -> usize
    requires { r < task.now.job.end }
    ensures { ((0 < late) × (task.now.job.last ≤ r) × (result ≡ 0))
        ⊎ RunsEnd task.now.rules.now task.now.places.now r task.now.job.count result }
{
    if is_settled(task.job.last, r, late) {
        return 0;
    }
    let at = r * Game::RULE_STRIDE;
    if task.rules[at + 3] == 0 {
        return 1;
    }
    end_at(
        task.places,
        task.job.count,
        task.rules[at + 2],
        task.rules[at + 4],
    )
}

// Whether neither rule r nor a later one of its job can have an entry of the last round, where there was a round before.
fn is_settled(last: usize, r: usize, late: u32) -> bool
    ensures { result ≡ true → (0 < late) × (last ≤ r) }
{
    late != 0 && last <= r
}

// Run i of rule r, with those of the job's later rules.
fn run_at(
    task: &Task,
    lists: &Lists,
    table: &mut [u32],
    memo: &mut [u32],
    count: usize,
    r: usize,
    i: usize,
    late: u32,
) -> Option<usize>
    requires { (r < task.now.job.end) × (i < runs_of task.now.rules.now r task.now.job.count) }
    ensures finished { let job = task.now.job in (g : PushdownGame) (old : List Entry) (birthdate n : ℕ) (s : Growing)
        → Entered g old birthdate n job task.now.rules.now task.now.work.now table.old count memo.old s
        → Placing g task.now.work.now job.count task.now.places.now
        → Aging g old birthdate job task.now.fresh.now → Listed g old lists.now.sets.now lists.now.spans.now
        → Whole g job r
        → Past birthdate n late (map (entry_at job.state job.letter birthdate job.field) (rest_runs g (older birthdate old) (rules_between g job.state job.letter r job.end) 0)) s
        → Finished g old birthdate n
        (map (entry_at job.state job.letter birthdate job.field) (run_runs g old job.state job.letter job.end r i))
        s table.new (number_of n result) memo.new }
    ensures within { count * 3 ≤ length table.old → IfSome result (λ filled. filled * 3 ≤ length table.old) }
{
    let at = r * Game::RULE_STRIDE;
    if task.rules[at + 3] == 0 {
        let passed = joined(0, task.rules[at + 2]);
        return rules_after(task, lists, table, memo, count, r, passed, late);
    }
    runs_with(task, lists, table, memo, count, r, i, 0, late)
}
