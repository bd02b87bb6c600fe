// Question 13 in parts: a table cut between two entries, checked by two calls. It leaves out cuts into more parts.
ghost use Rattle.std.specs.Prelude.{◌≡◌, true, ◌*◌, ◌<◌, ◌≤◌, length};
ghost use Rattle.game.specs.Game.{PushdownGame};
ghost use Rattle.game.specs.Held.{Held, Safe};
ghost use Rattle.game.specs.Outcome.{said};
ghost use Rattle.table.specs.Table.{entry_stride, length_in_form, table_form};

use game::{Refusal, Sizes};
use table::{EntryWords, entries_form};

// 13 of a table by two calls: of the entries before the cut and, if they pass, of those from it on, with the entry before them.
pub fn form_of_parts(sizes: Sizes, rules: &[u8], words: &[u32], cut: usize) -> Result<(), Refusal>
    requires { Safe sizes rules.now × (length_in_form (length words.now) ≡ true) × (0 < cut) × (cut * entry_stride ≤ length words.now) }
    ensures { (g : PushdownGame) → Held g sizes rules.now → said result ≡ table_form g words.now }
{
    let n = cut * EntryWords::STRIDE;
    entries_form(sizes, rules, 0, EntryWords::none(), &words[..n])?;
    entries_form(
        sizes,
        rules,
        cut,
        EntryWords::at(words, cut - 1),
        &words[n..],
    )
}
