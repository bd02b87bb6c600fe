// A round, from what the last one added: the lines are brought up, the rules and Abelard's heads give what is new, as far as they read
// something new, and the heads take it.
ghost use Rattle.std.specs.Prelude.{IfSome, ◌≡◌, List, ℕ, suc, ◌*◌, ◌<◌, ◌≤◌, length};
ghost use Rattle.game.specs.Game.{PushdownGame};
ghost use Rattle.table.specs.Table.{Entry};
ghost use Rattle.noting.specs.Signs.{Reads};
ghost use Rattle.noting.specs.Taking.{counted};
ghost use Rattle.saturation.specs.RuleLinks.{Linked};
ghost use Rattle.saturation.specs.Kept.{Room, Rested, Taken, NotedIn};

use crate::heads::take_heads;
use crate::kept::{Kept, Rules};
use crate::rules::take_rules;
use family::clear_at;
use noting::{Marks, close_heads, find_active};
use unions::renew_lines;

// How many entries there are afterwards; nothing where they do not fit. The areas are of any length that has room: `all` has the families
// of the heads and, after them, of the lines, and `more` what each has more than before; of each line `keys` has the set and letter and
// `rests` the family of the set without its lowest element; `hints` has for each set where its line may be found; `ends` the ends of each
// rule of Abelard's; and `added` what the heads were given in the round.
pub fn take_round(
    rules: &Rules<'_, '_>,
    marks: &mut Marks,
    kept: &mut Kept,
    all: &mut [u64],
    more: &mut [u64],
    keys: &mut [u32],
    rests: &mut [u32],
    hints: &mut [u32],
    ends: &mut [u64],
    added: &mut [u64],
    log: &mut [u32],
    size: usize,
    birthdate: u32,
    before: usize,
) -> Option<usize>
    requires { Room rules.now.frame.heads rules.now.frame.n rules.now.sizes.rulecount (length all.old) (length more.old) (length keys.old) (length rests.old) (length hints.old) (length ends.old)
        (length added.old) × (size * 3 ≤ length log.old) × (size ≤ 2048) × (before ≤ size) × (kept.old.lines ≤ length keys.old) × (birthdate < 65536) }
    ensures by_index { (el : List ℕ) (g : PushdownGame) (old es : List Entry) (i : ℕ) → rules.now.sizes.control ≡ g.control → rules.now.sizes.states ≡ g.states → birthdate ≡ suc i
        → Reads rules.now.bytes.now rules.now.sizes.rulecount rules.now.readers.now
        → Linked rules.now.bytes.now rules.now.sizes.rulecount rules.now.frame.letters rules.now.sizes.control rules.now.firsts.now rules.now.nexts.now
        → Rested el g old es i rules.now marks.old all.old more.old keys.old rests.old ends.old added.old log.old kept.old.lines before
        → Taken el g es i birthdate size rules.now marks.new all.new more.new keys.new rests.new ends.new added.new log.new kept.new.lines (counted size result) }
    ensures upper_bound { IfSome result (λ k. k ≤ size) }
    ensures lines_bound { kept.new.lines ≤ length keys.old }
{
    let entries = note_round(
        rules, marks, kept, all, more, keys, rests, hints, ends, added, log, size, birthdate,
        before,
    )?;
    close_heads(
        rules.sizes.control as usize,
        rules.sizes.states as usize,
        rules.frame.letters,
        &rules.numbers,
        rules.frame.heads,
        rules.frame.n,
        all,
        more,
        added,
        &mut marks.fresh,
        &mut marks.alive,
        &mut marks.news,
        &mut kept.gains,
    );
    Some(entries)
}

// All that the runs give, noted.
fn note_round(
    rules: &Rules<'_, '_>,
    marks: &mut Marks,
    kept: &mut Kept,
    all: &mut [u64],
    more: &mut [u64],
    keys: &mut [u32],
    rests: &mut [u32],
    hints: &mut [u32],
    ends: &mut [u64],
    added: &mut [u64],
    log: &mut [u32],
    size: usize,
    birthdate: u32,
    before: usize,
) -> Option<usize>
    requires { Room rules.now.frame.heads rules.now.frame.n rules.now.sizes.rulecount (length all.old) (length more.old) (length keys.old) (length rests.old) (length hints.old) (length ends.old)
        (length added.old) × (size * 3 ≤ length log.old) × (size ≤ 2048) × (before ≤ size) × (kept.old.lines ≤ length keys.old) × (birthdate < 65536) }
    ensures by_index { (el : List ℕ) (g : PushdownGame) (old es : List Entry) (i : ℕ) → rules.now.sizes.control ≡ g.control → rules.now.sizes.states ≡ g.states → birthdate ≡ suc i
        → Reads rules.now.bytes.now rules.now.sizes.rulecount rules.now.readers.now
        → Linked rules.now.bytes.now rules.now.sizes.rulecount rules.now.frame.letters rules.now.sizes.control rules.now.firsts.now rules.now.nexts.now
        → Rested el g old es i rules.now marks.old all.old more.old keys.old rests.old ends.old added.old log.old kept.old.lines before
        → NotedIn el g old es i birthdate size rules.now marks.new kept.new all.new more.new keys.new rests.new ends.new added.new log.new (counted size result) }
    ensures upper_bound { IfSome result (λ k. k ≤ size) }
    ensures lines_bound { kept.new.lines ≤ length keys.old }
    ensures unchanged { (marks.new.fresh ≡ marks.old.fresh) × (marks.new.alive ≡ marks.old.alive) × (marks.new.news ≡ marks.old.news) }
{
    clear_at(&mut kept.stirred, 0, 32);
    renew_lines(
        &rules.frame,
        all,
        more,
        kept.lines,
        keys,
        rests,
        &marks.fresh,
    );
    let mut active = [0u64; 4];
    find_active(
        rules.sizes.states as usize,
        rules.frame.letters,
        &marks.news,
        &marks.fresh,
        rules.readers,
        birthdate == 1,
        &mut marks.held,
        &mut active,
    );
    let offered = take_rules(
        &active, rules, marks, kept, all, more, keys, rests, hints, ends, added, log, size,
        birthdate, before,
    )?;
    take_heads(
        rules,
        ends,
        &kept.stirred,
        all,
        added,
        &mut kept.gains,
        log,
        offered,
        size,
        birthdate,
    )
}
