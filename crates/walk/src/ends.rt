// The ends of the later rules of Abelard's head, found before its runs are taken and kept as lists: once for each rule, and not anew
// for each union of ends of the rules before it. A rule with too many ends is not listed.
ghost use Rattle.std.specs.Prelude.{◌≡◌, true, List, [], map, ℕ, ◌+◌, ◌*◌, ◌<◌, ◌≤◌, length, get_or, IfSome};
ghost use Rattle.game.specs.Game.{PushdownGame, of_head};
ghost use Rattle.game.specs.Stored.{rule_at};
ghost use Rattle.game.specs.StoredLaws.{no_rule};
ghost use Rattle.table.specs.Table.{Entry};
ghost use Rattle.rounds.specs.Rounds.{entry_at, rule_ends};
ghost use Rattle.rounds.specs.Growing.{growing, partly};
ghost use Rattle.rounds.specs.Filled.{Stored, Filled, number_of};
ghost use Rattle.enumeration.specs.Past.{Aging};
ghost use Rattle.enumeration.specs.Jobs.{Able, Stands};
ghost use Rattle.enumeration.specs.Lists.{Listed, Zero, Bounded};
ghost use Rattle.enumeration.specs.Places.{Placing};
ghost use Rattle.walk.specs.RoundJobs.{alone, Blank};

use enumeration::{Job, LINE, LISTED, Lists, SPANS, Task, end_at, keep_list, runs_with, start_at};
use game::Game;
use rounds::next_rule;
use table::EntryWords;

// How many ends of a rule can be found, and how many lines the memo for it has.
const ENDS: usize = 1024;

const MARKS: usize = 1024;

// How many words both have.
const SETS: usize = ENDS * EntryWords::STRIDE;

const WORDS: usize = MARKS * LINE;

// Where the job of rule r is Abelard's and has runs, from `start` to `end`, its later rules are listed, and no other.
pub fn list_later(
    task: &Task,
    lists: &mut [u32; LISTED],
    spans: &mut [usize; SPANS],
    r: usize,
    start: usize,
    end: usize,
)
    requires { r < task.now.job.end }
    ensures { let job = task.now.job in (g : PushdownGame) (old : List Entry) (birthdate : ℕ) → Stands g old birthdate job task.now.rules.now task.now.work.now
        → Placing g task.now.work.now job.count task.now.places.now → Aging g old birthdate job task.now.fresh.now
        → Listed g old lists.old spans.old → Listed g old lists.new spans.new }
{
    if task.job.field != 0 {
        return;
    }
    if end <= start {
        return;
    }
    list_rules(task, lists, spans, r);
}

// The rules of a job after rule `first`.
fn list_rules(task: &Task, lists: &mut [u32; LISTED], spans: &mut [usize; SPANS], first: usize)
    requires { first < task.now.job.end }
    ensures { let job = task.now.job in (g : PushdownGame) (old : List Entry) (birthdate : ℕ) → Stands g old birthdate job task.now.rules.now task.now.work.now
        → Placing g task.now.work.now job.count task.now.places.now → Aging g old birthdate job task.now.fresh.now
        → Listed g old lists.new spans.new }
{
    spans.fill(0);
    let mut sets = [0u32; SETS];
    let mut memo = [0u32; WORDS];
    let mut room = 0;
    let mut next = next_rule(
        task.rules,
        task.job.end,
        first + 1,
        task.job.state,
        task.job.letter,
    );
    while let Some(r) = next {
        room = list_rule(task, &mut sets, &mut memo, lists, spans, r, room);
        next = next_rule(
            task.rules,
            task.job.end,
            r + 1,
            task.job.state,
            task.job.letter,
        );
    }
}

// Rule r, its list from `room` on: where the room begins afterwards.
fn list_rule(
    task: &Task,
    sets: &mut [u32; SETS],
    memo: &mut [u32; WORDS],
    lists: &mut [u32; LISTED],
    spans: &mut [usize; SPANS],
    r: usize,
    room: usize,
) -> usize
    requires { (r < task.now.job.end) × (room ≤ 4096) }
    ensures listed { let job = task.now.job in (g : PushdownGame) (old : List Entry) (birthdate : ℕ) → Stands g old birthdate job task.now.rules.now task.now.work.now
        → Placing g task.now.work.now job.count task.now.places.now → Aging g old birthdate job task.now.fresh.now
        → of_head job.state job.letter (rule_at task.now.rules.now (r * 6) 0) ≡ true → Zero sets.old → Zero memo.old
        → Bounded spans.old room → Listed g old lists.old spans.old → Listed g old lists.new spans.new }
    ensures upper_bound { (result ≤ 4096) × (Bounded spans.old room → Bounded spans.new result)
        × (Zero sets.old → Zero sets.new) × (Zero memo.old → Zero memo.new) }
{
    if task.rules[r * Game::RULE_STRIDE + 3] != 2 {
        return room;
    }
    let found = find_ends(task, sets, memo, r);
    memo.fill(0);
    let Some(count) = found else {
        sets.fill(0);
        return room;
    };
    let after = keep_list(lists, spans, sets, count, r, room);
    sets.fill(0);
    after
}

// The ends of the runs of rule r as entries of an area that has none: how many; none, where there are more than it can hold.
fn find_ends(
    task: &Task,
    sets: &mut [u32; SETS],
    memo: &mut [u32; WORDS],
    r: usize,
) -> Option<usize>
    requires { r < task.now.job.end }
    ensures filled { let job = task.now.job in (g : PushdownGame) (old : List Entry) (birthdate m : ℕ) → Stands g old birthdate job task.now.rules.now task.now.work.now
        → Placing g task.now.work.now job.count task.now.places.now → Aging g old birthdate job task.now.fresh.now
        → of_head job.state job.letter (rule_at task.now.rules.now (r * 6) 0) ≡ true → get_or task.now.rules.now (r * 6 + 3) 0 ≡ 2
        → Stored m sets.old 0 [] → Blank memo.old
        → Filled m sets.new (number_of m result) (growing m (map (entry_at job.state job.letter birthdate (r + 1)) (rule_ends g old (get_or g.rules r no_rule))) (partly [])) }
    ensures within { IfSome result (λ count. count ≤ 1024) }
{
    let none = [0u32; 1];
    let spans = [0usize; 1];
    let alone = Task {
        job: alone_of(task.job, r),
        rules: task.rules,
        work: task.work,
        places: task.places,
        fresh: task.fresh,
    };
    let unlisted = Lists {
        sets: &none,
        spans: &spans,
    };
    let at = r * Game::RULE_STRIDE;
    let end = end_at(
        task.places,
        alone.job.count,
        task.rules[at + 2],
        task.rules[at + 4],
    );
    let mut count = 0;
    for i in start_at(
        task.places,
        alone.job.count,
        task.rules[at + 2],
        task.rules[at + 4],
    )
        ..end
    {
        count = runs_with(&alone, &unlisted, sets, memo, count, r, i, 0, 0)?;
    }
    Some(count)
}

// The job of rule r by itself.
fn alone_of(job: Job, r: usize) -> Job
    requires { r < 256 }
    ensures { result ≡ alone job r }
{
    Job {
        state: job.state,
        letter: job.letter,
        first: job.first,
        field: (r + 1) as u32,
        end: r + 1,
        count: job.count,
        last: r + 1,
    }
}
