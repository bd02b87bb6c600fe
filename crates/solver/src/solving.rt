// Solving: from a game file to the table of the rounds, in two lent areas.
ghost use Rattle.std.specs.Prelude.{◌≡◌, [], map, ℕ, ◌+◌, ◌*◌, ◌<◌, ◌≤◌, length, replicate, IfSome};
ghost use Rattle.game.specs.Game.{PushdownGame};
ghost use Rattle.game.specs.GoodGame.{Good};
ghost use Rattle.game.specs.Held.{Held, Safe};
ghost use Rattle.game.specs.Outcome.{refused, number};
ghost use Rattle.game.specs.Stored.{stored};
ghost use Rattle.rounds.specs.Rounds.{round_zero, target_entry};
ghost use Rattle.rounds.specs.Solving.{solving_game};
ghost use Rattle.rounds.specs.Growing.{growing, partly};
ghost use Rattle.rounds.specs.Filled.{Stored, Filled, number_of};
ghost use Rattle.solver.specs.Leaving.{leaving, called, solve_call};
ghost use Rattle.solver.specs.Given.{Given, solving_rounds};

use crate::areas::rounds_by;
use game::{Game, Question, Refusal, Sizes};
use rounds::insert;
use table::{EntryWords, is_length};
use unions::elements_of;
use walk::take_wide;

// What solving answers.
#[derive(Clone, Copy, Debug, PartialEq, Eq)]
pub struct Solved {
    pub entries: usize,
    pub rounds: u32,
}

// Solves the game that a file describes. Both areas are cleared first, so the answer does not depend on what they held. Afterwards the
// table has the entries in order and the work area is zero; after a refusal both are zero.
pub fn solve(file: &[u8], table: &mut [u32], work: &mut [u32]) -> Result<Solved, Refusal>
    ensures { called result table.new work.new
        ≡ solve_call file.now (length table.old) (length work.old) }
{
    clear(table);
    clear(work);
    let game = Game::read(file)?;
    if table.len() != work.len() {
        return Err(Question::Areas.at(0));
    }
    if !is_length(table.len()) {
        return Err(Question::Areas.at(0));
    }
    solve_game(game, table, work)
}

// The same for a game that was read, over cleared areas of equal length.
fn solve_game(game: Game, table: &mut [u32], work: &mut [u32]) -> Result<Solved, Refusal>
    requires { ((g : PushdownGame) × (game ≡ stored g) × Good g) × (length table.old ≡ length work.old) × (length table.old ≤ 6144) }
    ensures { (g : PushdownGame) (n : ℕ) → game ≡ stored g → Good g → table.old ≡ replicate (n * 3) 0
        → called result table.new work.new ≡ leaving (solving_game g n) (length table.old) (length work.old) }
{
    let sizes = game.sizes();
    let rules = game.rules;
    let targets = game.targets;
    all_rounds(sizes, &rules, &targets, table, work)
}

// Round 0, then the others.
fn all_rounds(
    sizes: Sizes,
    rules: &[u8],
    targets: &[u32],
    table: &mut [u32],
    work: &mut [u32],
) -> Result<Solved, Refusal>
    requires { ((g : PushdownGame) × Given g sizes rules.now targets.now) × (length table.old ≡ length work.old) × (length table.old ≤ 6144) }
    ensures { (g : PushdownGame) (n : ℕ) → Given g sizes rules.now targets.now
        → table.old ≡ replicate (n * 3) 0
        → called result table.new work.new ≡ leaving (solving_game g n) (length table.old) (length work.old) }
{
    let numbering = elements_of(sizes, rules, targets);
    rounds_by(sizes, rules, targets, numbering, table, work)
}

// The same by the walk of runs.
pub fn walk_rounds(
    sizes: Sizes,
    rules: &[u8],
    targets: &[u32],
    table: &mut [u32],
    work: &mut [u32],
) -> Result<Solved, Refusal>
    requires { ((g : PushdownGame) × Given g sizes rules.now targets.now) × (length table.old ≡ length work.old) }
    ensures { (g : PushdownGame) (n : ℕ) → Given g sizes rules.now targets.now
        → table.old ≡ replicate (n * 3) 0
        → called result table.new work.new ≡ leaving (solving_game g n) (length table.old) (length work.old) }
{
    let Some(first) = round_zero(sizes, rules, targets, table) else {
        return give_up(table, work, Question::Entries.at(0));
    };
    rounds_from(sizes, rules, table, work, first)
}

// Round 0: the target's transitions, birthdate 0. None, where they are beyond the table.
fn round_zero(sizes: Sizes, rules: &[u8], targets: &[u32], table: &mut [u32]) -> Option<usize>
    requires { (g : PushdownGame) × Given g sizes rules.now targets.now }
    ensures filled { (g : PushdownGame) (n : ℕ) → Given g sizes rules.now targets.now
        → table.old ≡ replicate (n * 3) 0
        → Filled n table.new (number_of n result) (growing n (map target_entry g.targets) (partly [])) }
    ensures within { IfSome result (λ count. count * 3 ≤ length table.old) }
{
    let mut count = 0;
    for t in 0..sizes.targetcount {
        let at = t * Game::TARGET_STRIDE;
        let entry = EntryWords {
            first: targets[at] + 256 * targets[at + 1],
            set: targets[at + 2],
            rule: 0,
        };
        count = insert(table, count, entry)?;
    }
    Some(count)
}

// Zeroes an area.
pub fn clear(area: &mut [u32])
    ensures { area.new ≡ replicate (length area.old) 0 }
{
    area.fill(0);
}

// Copies an area over one of the same length.
fn copy(from: &[u32], to: &mut [u32])
    requires { length from.now ≡ length to.old }
    ensures { to.new ≡ from.now }
{
    for i in 0..from.len() {
        to[i] = from[i];
    }
}

// The rounds after round 0, taken in order until settled. The work area holds the old round.
fn rounds_from(
    sizes: Sizes,
    rules: &[u8],
    table: &mut [u32],
    work: &mut [u32],
    first: usize,
) -> Result<Solved, Refusal>
    requires { Safe sizes rules.now × (0 < sizes.letters) × (length table.old ≡ length work.old) × (first * 3 ≤ length table.old) }
    ensures { (g : PushdownGame) (n : ℕ) → Held g sizes rules.now → Good g → Stored n table.old first (round_zero g)
        → called result table.new work.new ≡ leaving (solving_rounds g n) (length table.old) (length work.old) }
{
    let mut count = first;
    let mut i = 0u32;
    loop {
        copy(table, work);
        let next = take_wide(sizes, rules, work, table, count, i + 1);
        if next == Some(count) {
            clear(work);
            return Ok(Solved {
                entries: count,
                rounds: i,
            });
        }
        if Game::MAX_ROUNDS <= i {
            return give_up(table, work, Question::Rounds.at(i as usize + 1));
        }
        let Some(entries) = next else {
            return give_up(table, work, Question::Entries.at(i as usize + 1));
        };
        count = entries;
        i += 1;
    }
}

// Clears the table as far as it was begun, and the work area, and refuses.
pub fn give_up(begun: &mut [u32], work: &mut [u32], refusal: Refusal) -> Result<Solved, Refusal>
    ensures work_after { called result begun.new work.new
        ≡ leaving (refused (number refusal.question) refusal.place) (length begun.old) (length work.old) }
{
    clear(begun);
    clear(work);
    Err(refusal)
}
