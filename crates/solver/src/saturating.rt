// The rounds of a game whose sets have few states, over families of sets that are kept over all rounds.
ghost use Rattle.std.specs.Prelude.{◌≡◌, ◌⊎◌, List, [], ℕ, ◌*◌, ◌-◌, ◌/◌, ◌≤◌, length, replicate};
ghost use Rattle.game.specs.Game.{PushdownGame};
ghost use Rattle.table.specs.Table.{Entry, table_words};
ghost use Rattle.rounds.specs.Rounds.{round_zero};
ghost use Rattle.rounds.specs.Solving.{solving_game};
ghost use Rattle.saturation.specs.RuleLinks.{Linked};
ghost use Rattle.noting.specs.Signs.{Reads};
ghost use Rattle.saturation.specs.Kept.{Room, Rested};
ghost use Rattle.family.specs.Masks.{Raising};
ghost use Rattle.unions.specs.Ranks.{Sized, Noted};
ghost use Rattle.solver.specs.Leaving.{leaving, solved_with, called};
ghost use Rattle.solver.specs.Given.{Given, solving_rounds};
ghost use Rattle.solver.specs.Rooms.{Numbers, Rooms, Blanks, Few};

use crate::solving::{Solved, clear, give_up};
use family::raising_table;
use game::{Game, Question, Refusal, Sizes};
use noting::{Marks, mark_rules, note_targets, set_masks};
use saturation::{Kept, Rules, link, take_round};
use table::EntryWords;
use unions::{Frame, Numbering, write_entries};

// The families of the heads and, after them, of the lines, and what each has more than before; of each line its set and letter, and the
// family of the set without its lowest element; for each set where its line may be found; the ends of each rule of Abelard's; and what the
// heads were given in the round. How long the arrays are the fields without values say too: of what a call leaves behind a reference,
// nothing else says it.
#[derive(Drop)]
struct Arrays<
    const WORDS: usize,
    const LINES: usize,
    const HINTS: usize,
    const GIVEN: usize,
    const ENDS: usize,
> {
    all: [u64; WORDS],
    more: [u64; WORDS],
    keys: [u32; LINES],
    rests: [u32; LINES],
    hints: [u32; HINTS],
    ends: [u64; ENDS],
    added: [u64; GIVEN],
    ghost area: { length all ≡ WORDS },
    ghost newer: { length more ≡ WORDS },
    ghost keyed: { length keys ≡ LINES },
    ghost resting: { length rests ≡ LINES },
    ghost hinting: { length hints ≡ HINTS },
    ghost ending: { length ends ≡ ENDS },
    ghost adds: { length added ≡ GIVEN },
}

// Round 0 and the others, in arrays in which nothing is.
pub fn rounds_in<
    const WORDS: usize,
    const LINES: usize,
    const HINTS: usize,
    const GIVEN: usize,
    const ENDS: usize,
    const FIRSTS: usize,
>(
    sizes: Sizes,
    rules: &[u8],
    targets: &[u32],
    numbering: Numbering,
    heads: usize,
    n: usize,
    table: &mut [u32],
    work: &mut [u32],
) -> Result<Solved, Refusal>
    requires { ((g : PushdownGame) × Given g sizes rules.now targets.now) × (length table.old ≡ length work.old) × (length table.old ≤ 6144)
        × (heads ≡ sizes.states * sizes.letters) × Numbers numbering.count numbering.states numbering.numbers sizes.letters heads
        × Rooms heads n WORDS LINES HINTS GIVEN ENDS × (sizes.control * sizes.letters ≤ FIRSTS) × (FIRSTS ≤ 1536) }
    ensures { (g : PushdownGame) (m : ℕ) → Given g sizes rules.now targets.now → table.old ≡ replicate (m * 3) 0
        → Few g numbering.count n numbering.states numbering.numbers
        → called result table.new work.new ≡ leaving (solving_game g m) (length table.old) (length work.old) }
{
    let letters = sizes.letters as usize;
    let control = sizes.control as usize;
    let mut firsts = [0usize; FIRSTS];
    let mut nexts = [0usize; Game::MAX_RULES];
    link(
        rules,
        sizes.rulecount,
        letters,
        control,
        &mut firsts,
        &mut nexts,
    );
    let mut readers = [0u64; 644];
    mark_rules(rules, sizes.rulecount, &mut readers);
    let states = numbering.states;
    let numbers = numbering.numbers;
    let raising: &'static [u64] = raising_table();
    let frame = Frame {
        letters,
        heads,
        n,
        states,
        raising,
    };
    let rules = Rules {
        frame,
        numbers,
        sizes,
        bytes: rules,
        firsts: &firsts[..],
        nexts: &nexts,
        readers: &readers,
    };
    let mut arrays = Arrays {
        all: [0u64; WORDS],
        more: [0u64; WORDS],
        keys: [0u32; LINES],
        rests: [0u32; LINES],
        hints: [0u32; HINTS],
        ends: [0u64; ENDS],
        added: [0u64; GIVEN],
    };
    let mut kept = Kept {
        lines: 0,
        gains: [0u64; 32],
        stirred: [0u64; 32],
    };
    let mut marks = Marks {
        fresh: [0usize; 64],
        alive: [0usize; 64],
        news: [0u64; 32],
        held: [0u64; 4],
    };
    rounds_of(
        &rules,
        numbering.count,
        targets,
        &mut marks,
        &mut kept,
        &mut arrays,
        table,
        work,
    )
}

// The same over rules, with nothing in what is kept.
fn rounds_of<
    const WORDS: usize,
    const LINES: usize,
    const HINTS: usize,
    const GIVEN: usize,
    const ENDS: usize,
>(
    rules: &Rules<'_, '_>,
    elements: usize,
    targets: &[u32],
    marks: &mut Marks,
    kept: &mut Kept,
    arrays: &mut Arrays<WORDS, LINES, HINTS, GIVEN, ENDS>,
    table: &mut [u32],
    work: &mut [u32],
) -> Result<Solved, Refusal>
    requires { ((g : PushdownGame) × Given g rules.now.sizes rules.now.bytes.now targets.now) × (length table.old ≡ length work.old) × (length table.old ≤ 6144)
        × (rules.now.frame.heads ≡ rules.now.sizes.states * rules.now.sizes.letters) × (elements ≤ 10)
        × Room rules.now.frame.heads rules.now.frame.n rules.now.sizes.rulecount WORDS WORDS LINES LINES HINTS ENDS GIVEN × (kept.old.lines ≤ LINES) }
    ensures { (g : PushdownGame) (m : ℕ) → Given g rules.now.sizes rules.now.bytes.now targets.now
        → Reads rules.now.bytes.now rules.now.sizes.rulecount rules.now.readers.now
        → Linked rules.now.bytes.now rules.now.sizes.rulecount rules.now.frame.letters rules.now.sizes.control rules.now.firsts.now rules.now.nexts.now
        → table.old ≡ replicate (m * 3) 0 → Few g elements rules.now.frame.n rules.now.frame.states rules.now.numbers → Raising rules.now.frame.raising.now
        → kept.old.lines ≡ 0 → Blanks arrays.old.all arrays.old.more arrays.old.added arrays.old.ends
        → called result table.new work.new ≡ leaving (solving_game g m) (length table.old) (length work.old) }
{
    let size = table.len() / EntryWords::STRIDE;
    let Some(first) = note_targets(
        targets,
        rules.sizes.targetcount,
        &rules.numbers,
        rules.frame.letters,
        rules.frame.heads,
        rules.frame.n,
        &mut arrays.all,
        &mut arrays.more,
        work,
        size,
        &mut marks.news,
    ) else {
        return give_up(table, work, Question::Entries.at(0));
    };
    set_masks(
        elements,
        &rules.frame.states,
        rules.frame.letters,
        rules.frame.heads,
        rules.frame.n,
        &arrays.all,
        &arrays.more,
        &mut marks.fresh,
        &mut marks.alive,
    );
    rounds_on(rules, marks, kept, arrays, table, work, first)
}

// The rounds after round 0, taken in order until settled. The work area has the entries in the order in which they came.
fn rounds_on<
    const WORDS: usize,
    const LINES: usize,
    const HINTS: usize,
    const GIVEN: usize,
    const ENDS: usize,
>(
    rules: &Rules<'_, '_>,
    marks: &mut Marks,
    kept: &mut Kept,
    arrays: &mut Arrays<WORDS, LINES, HINTS, GIVEN, ENDS>,
    table: &mut [u32],
    log: &mut [u32],
    first: usize,
) -> Result<Solved, Refusal>
    requires { Room rules.now.frame.heads rules.now.frame.n rules.now.sizes.rulecount WORDS WORDS LINES LINES HINTS ENDS GIVEN × (length table.old ≡ length log.old)
        × (length table.old ≤ 6144) × (first ≤ length table.old / 3) × (kept.old.lines ≤ LINES) }
    ensures { (el : List ℕ) (g : PushdownGame) (m : ℕ) → rules.now.sizes.control ≡ g.control → rules.now.sizes.states ≡ g.states
        → Reads rules.now.bytes.now rules.now.sizes.rulecount rules.now.readers.now
        → Linked rules.now.bytes.now rules.now.sizes.rulecount rules.now.frame.letters rules.now.sizes.control rules.now.firsts.now rules.now.nexts.now
        → table.old ≡ replicate (m * 3) 0
        → Rested el g [] (round_zero g) 0 rules.now marks.old arrays.old.all arrays.old.more arrays.old.keys arrays.old.rests arrays.old.ends arrays.old.added log.old kept.old.lines first
        → called result table.new log.new ≡ leaving (solving_rounds g m) (length table.old) (length log.old) }
{
    let size = table.len() / EntryWords::STRIDE;
    let mut entries = first;
    let mut i = 0u32;
    let mut older = 0;
    let mut oldest = 0;
    loop {
        kept.lines = lines_kept(kept.lines, oldest, older, entries, size);
        let Some(next) = take_round(
            rules,
            marks,
            kept,
            &mut arrays.all,
            &mut arrays.more,
            &mut arrays.keys,
            &mut arrays.rests,
            &mut arrays.hints,
            &mut arrays.ends,
            &mut arrays.added,
            log,
            size,
            i + 1,
            entries,
        ) else {
            if Game::MAX_ROUNDS <= i {
                return give_up(table, log, Question::Rounds.at(i as usize + 1));
            }
            return give_up(table, log, Question::Entries.at(i as usize + 1));
        };
        if next == entries {
            return settle(
                table,
                log,
                next,
                i,
                &arrays.all,
                &mut arrays.more,
                &rules.frame,
            );
        }
        if Game::MAX_ROUNDS <= i {
            return give_up(table, log, Question::Rounds.at(i as usize + 1));
        }
        oldest = older;
        older = entries;
        entries = next;
        i += 1;
    }
}

// How many lines are kept for a round: none, where it is likely not to fit. Then each is made again when it is asked for, and those that the
// round does not come to are not brought up. It is likely where there is no room for what the round adds if it adds more than the last one
// by the factor by which that added more than the one before; and if the last one added an eighth of all entries or more, since with less
// bringing lines up takes little.
fn lines_kept(lines: usize, oldest: usize, older: usize, entries: usize, size: usize) -> usize
    requires { (entries ≤ size) × (size ≤ 2048) }
    ensures { (result ≡ lines) ⊎ (result ≡ 0) }
{
    if entries < older {
        return lines;
    }
    if older < oldest {
        return lines;
    }
    let gained = entries - older;
    if gained * gained <= (size - entries) * (older - oldest) {
        return lines;
    }
    if 8 * gained <= entries {
        return lines;
    }
    0
}

// The entries written into the table in order. What `places` held is lost.
fn settle(
    table: &mut [u32],
    log: &mut [u32],
    entries: usize,
    rounds: u32,
    all: &[u64],
    places: &mut [u64],
    frame: &Frame,
) -> Result<Solved, Refusal>
    requires { Sized frame.now.letters frame.now.heads frame.now.n entries frame.now.states all.now places.old log.old }
    ensures by_index { (el : List ℕ) (g : PushdownGame) (es : List Entry) (m : ℕ)
        → Noted el g frame.now.n frame.now.letters frame.now.heads frame.now.states all.now log.old entries es m
        → table.old ≡ replicate (m * 3) 0
        → called result table.new log.new ≡ called (solved_with entries rounds) (table_words es (m - length es)) (replicate (length log.old) 0) }
{
    write_entries(
        table,
        log,
        entries,
        all,
        places,
        &frame.states,
        frame.letters,
        frame.heads,
        frame.n,
    );
    clear(log);
    Ok(Solved { entries, rounds })
}
