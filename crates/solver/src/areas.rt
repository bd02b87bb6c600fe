// The way in which the rounds of a game are taken: over families of sets where its sets have few states, in areas of one of three sizes, so
// that a small game does not clear large ones; else by the walk of its runs.
ghost use Rattle.std.specs.Prelude.{◌≡◌, true, List, ℕ, ◌*◌, ◌/◌, ◌^◌, ◌<◌, ◌≤◌, length, get_or, replicate, IfSome};
ghost use Rattle.game.specs.Game.{PushdownGame};
ghost use Rattle.rounds.specs.Solving.{solving_game};
ghost use Rattle.unions.specs.ElementsOf.{ElementsOf};
ghost use Rattle.solver.specs.Leaving.{leaving, called};
ghost use Rattle.solver.specs.Given.{Given};
ghost use Rattle.solver.specs.Rooms.{Narrow};

use crate::saturating::rounds_in;
use crate::solving::{Solved, walk_rounds};
use game::{Refusal, Sizes};
use unions::Numbering;

// How many heads of control states there may be.
const ROWS: usize = 1536;

// Round 0 and the others, by the way that serves the game: over families of one word, in arrays for 256 heads and 640 lines; of 1,024 words,
// and 640 lines of four; of 10,240 words, and 256 lines of sixteen.
pub fn rounds_by(
    sizes: Sizes,
    rules: &[u8],
    targets: &[u32],
    numbering: Numbering,
    table: &mut [u32],
    work: &mut [u32],
) -> Result<Solved, Refusal>
    requires { ((g : PushdownGame) × Given g sizes rules.now targets.now) × (length table.old ≡ length work.old) × (length table.old ≤ 6144)
        × ((q : ℕ) → q < 32 → get_or numbering.numbers q 0 < 1024) }
    ensures { (g : PushdownGame) (m : ℕ) → Given g sizes rules.now targets.now → table.old ≡ replicate (m * 3) 0
        → (numbering.count ≤ 10 → (el : List ℕ) × ElementsOf g el numbering.count numbering.states numbering.numbers)
        → called result table.new work.new ≡ leaving (solving_game g m) (length table.old) (length work.old) }
{
    let Some(n) = family_words(numbering, sizes.states) else {
        return walk_rounds(sizes, rules, targets, table, work);
    };
    let heads = (sizes.states as usize) * (sizes.letters as usize);
    if does_fit(heads, n, 1, 256) {
        return rounds_in::<896, 640, 2048, 256, 256, 256>(
            sizes, rules, targets, numbering, heads, n, table, work,
        );
    }
    if does_fit(heads, n, 4, 1024) {
        return rounds_in::<3584, 640, 6144, 1024, 1024, 1024>(
            sizes, rules, targets, numbering, heads, n, table, work,
        );
    }
    if does_fit(heads, n, 16, 10240) {
        return rounds_in::<14336, 256, 8192, 10240, 4096, ROWS>(
            sizes, rules, targets, numbering, heads, n, table, work,
        );
    }
    walk_rounds(sizes, rules, targets, table, work)
}

// How many words a family of sets has; none where sets have more than ten states, or states that are none of the game.
fn family_words(numbering: Numbering, states: u8) -> Option<usize>
    ensures { IfSome result (λ n. Narrow numbering.count n numbering.states states) }
{
    if 10 < numbering.count {
        return None;
    }
    let listed = numbering.states;
    if !are_below(&listed, states) {
        return None;
    }
    Some(words_of(numbering.count))
}

// Every number of a list is below a limit.
fn are_below(list: &[u8], limit: u8) -> bool
    ensures { result ≡ true → (i : ℕ) → i < length list.now → get_or list.now i 0 < limit }
{
    list.iter().all(|x| *x < limit)
}

// How many words a family of sets of so many elements has.
fn words_of(elements: usize) -> usize
    requires { elements ≤ 10 }
    ensures { (result ≤ 16) × ((x : ℕ) → x < 2 ^ elements → x / 64 < result) }
{
    if elements <= 6 {
        return 1;
    }
    1usize << (elements - 6)
}

// Families of n words, for so many heads, are within limits, and so is the number of heads.
fn does_fit(heads: usize, n: usize, words: usize, area: usize) -> bool
    requires { (heads ≤ 16320) × (words ≤ 16) }
    ensures { result ≡ true → (heads ≤ 2048) × (n ≤ words) × (heads * n ≤ area) × (heads ≤ area) }
{
    if 2048 < heads {
        return false;
    }
    if words < n {
        return false;
    }
    if area < heads {
        return false;
    }
    heads * n <= area
}
