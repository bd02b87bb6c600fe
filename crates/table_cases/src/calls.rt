// Direct calls over parts of the sample's table, whose answers are known: each kind of call is made at every entry that it fits, and is
// counted apart.
ghost use Rattle.std.specs.Prelude.{◌≤◌};
ghost use Rattle.table_cases.specs.Sample.{sample_words, far_index};

use crate::cases::{Case, What, same};
use crate::damage::{Damage, Kind};
use crate::entries::{ENTRIES, Place, Sample, USED, WORDS, entry_at, fields_of};
use crate::expected::{Expected, Why};
use game::Refusal;
use output::Tally;
use std::fmt;
use table::{EntryWords, entries_form};

#[derive(Clone, Copy, Debug, PartialEq, Eq)]
pub enum Call {
    Empty,
    FromStart,
    AfterUnused,
    AfterEqual,
    FromIndex,
    LeftOver,
}

impl Call {
    const ALL: [Call; 6] = [
        Call::Empty,
        Call::FromStart,
        Call::AfterUnused,
        Call::AfterEqual,
        Call::FromIndex,
        Call::LeftOver,
    ];

    // The start of the line of its calls.
    fn heading(self) -> &'static str {
        match self {
            Call::Empty => "empty parts",
            Call::FromStart => "parts from index 0, any entry before",
            Call::AfterUnused => "parts after an unused entry",
            Call::AfterEqual => "parts after an entry of the same key",
            Call::FromIndex => "parts from index 1,000",
            Call::LeftOver => "words left over at the end of a part",
        }
    }
}

impl fmt::Display for Call {
    fn fmt<W: fmt::Write>(&self, f: &mut fmt::Formatter<W>) -> fmt::Result {
        f.write_str(match self {
            Call::Empty => "empty part",
            Call::FromStart => "part from index 0",
            Call::AfterUnused => "part after an unused entry",
            Call::AfterEqual => "part after an equal key",
            Call::FromIndex => "part from an index",
            Call::LeftOver => "words left over",
        })
    }
}

// An index beyond those of the table.
const FAR: usize = 1000;

// All kinds of calls, each with its line.
pub fn every_call(t: &mut Tally, sample: &Sample<'_>) {
    for call in Call::ALL {
        let mut c = Tally::new(t.out);
        for i in 0..ENTRIES {
            one_call(&mut c, call, sample, Place { entry: i });
        }
        let _ = t.out.println(format_args!(
            "{}: {} checks, {} failed",
            call.heading(),
            c.tried,
            c.failed
        ));
        t.add(c);
    }
}

// The calls of a kind at an entry that it fits.
fn one_call(t: &mut Tally, call: Call, sample: &Sample<'_>, place: Place) {
    let i = place.entry;
    match call {
        Call::Empty => empty(t, sample, place),
        Call::FromStart => from_start(t, sample, place),
        Call::AfterUnused if 0 < i => after_unused(t, sample, place),
        Call::AfterEqual if 0 < i && i < USED => after_equal(t, sample, place),
        Call::FromIndex if 0 < i && i < USED => from_index(t, sample, place),
        Call::LeftOver if i < USED => left_over(t, sample, place),
        _ => {}
    }
}

// What `entries_form` answers to the words from one offset to another, as a part of which index and entry before are these.
fn form_at(
    sample: &Sample<'_>,
    first: usize,
    before: EntryWords,
    words: &[u32; WORDS],
    from: usize,
    to: usize,
) -> Result<(), Refusal>
    requires { (first ≤ far_index) × (from ≤ to) × (to ≤ sample_words) }
{
    entries_form(sample.sizes, sample.rules, first, before, &words[from..to])
}

fn case_of(call: Call, i: usize) -> Case {
    Case {
        what: What::Called(call),
        entry: i,
        cut: i,
    }
}

// No entry fails where there is none.
fn empty(t: &mut Tally, sample: &Sample<'_>, place: Place) {
    let i = place.entry;
    let table = sample.table;
    let at = place.offset();
    let got = form_at(sample, i, entry_at(table, i), table, at, at);
    same(
        t,
        case_of(Call::Empty, i),
        Expected::Sound { used: USED },
        got,
    );
}

// The first entry of a table has none before it, whatever is handed in its place.
fn from_start(t: &mut Tally, sample: &Sample<'_>, place: Place) {
    let i = place.entry;
    let table = sample.table;
    let got = form_at(sample, 0, entry_at(table, i), table, 0, WORDS);
    same(
        t,
        case_of(Call::FromStart, i),
        Expected::Sound { used: USED },
        got,
    );
}

// The first entry of the part fails if it is used, and so are those after it, of which it is the first.
fn after_unused(t: &mut Tally, sample: &Sample<'_>, place: Place) {
    let i = place.entry;
    let at = place.offset();
    let got = form_at(sample, i, EntryWords::none(), sample.table, at, WORDS);
    let expected = if i < USED {
        Expected::refused(Why::Unused, i)
    } else {
        Expected::Sound { used: USED }
    };
    same(t, case_of(Call::AfterUnused, i), expected, got);
}

// An entry fails after itself, and after one of the same state, letter and set with another birthdate.
fn after_equal(t: &mut Tally, sample: &Sample<'_>, place: Place) {
    let i = place.entry;
    let other = Kind::BirthdateBeyond.damaged(fields_of(i));
    for before in [entry_at(sample.table, i), other.words()] {
        let got = form_at(sample, i, before, sample.table, place.offset(), WORDS);
        let expected = Expected::refused(Why::Equal, i);
        same(t, case_of(Call::AfterEqual, i), expected, got);
    }
}

// The entries from entry 1 on, counted from another index, one of them damaged: its place is counted from there too.
fn from_index(t: &mut Tally, sample: &Sample<'_>, place: Place) {
    let i = place.entry;
    let damage = Damage {
        kind: Kind::RuleOther,
        entry: i,
    };
    let words = damage.of(sample.table);
    let before = entry_at(&words, 0);
    let got = form_at(sample, FAR, before, &words, EntryWords::STRIDE, WORDS);
    let expected = Expected::refused(Why::Alone, FAR + i - 1);
    same(t, case_of(Call::FromIndex, i), expected, got);
}

// A part that ends with one or two words of a damaged entry, which are not looked at, and one that ends with the whole entry.
fn left_over(t: &mut Tally, sample: &Sample<'_>, place: Place) {
    let i = place.entry;
    let damage = Damage {
        kind: Kind::RuleBeyond,
        entry: i,
    };
    let words = damage.of(sample.table);
    let case = case_of(Call::LeftOver, i);
    for left in 1..EntryWords::STRIDE + 1 {
        let to = place.offset() + left;
        let got = form_at(sample, 0, EntryWords::none(), &words, 0, to);
        let expected = if left < EntryWords::STRIDE {
            Expected::Sound { used: i }
        } else {
            Expected::refused(Why::Alone, i)
        };
        same(t, case, expected, got);
    }
}
