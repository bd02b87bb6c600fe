// The entries of sample D with 40 letters above the bottom, by document 01, and entries at places of an area.
//
// Entry 0 is the target transition 0, 0, {1}. Entry i is of letter i and has the set {0}: the last letter is popped in round 1, and letter i
// is taken to two of the next, so that it comes one round later. Its rule is number i.
ghost use Rattle.std.specs.Prelude.{◌≡◌, ◌*◌, ◌<◌};
ghost use Rattle.game.specs.Held.{Safe};
ghost use Rattle.table.specs.Table.{entry_stride};
ghost use Rattle.table_cases.specs.Sample.{sample_entries};

use game::Sizes;
use script::{byte_of, word_of};
use table::EntryWords;

// The letters above the bottom, and the entries that they take: one for each letter and for the bottom.
pub const LETTERS: usize = 40;

pub const USED: usize = 41;

// The entries and words of the table, with unused entries after those that are used.
pub const ENTRIES: usize = 45;

pub const WORDS: usize = 135;

// A place among the entries of the table.
#[derive(Clone, Copy)]
pub struct Place {
    pub entry: usize,
    pub ghost within: { entry < sample_entries },
}

impl Place {
    // The offset of its first word.
    pub fn offset(self) -> usize
        ensures { result ≡ self.entry * entry_stride }
    {
        self.entry * EntryWords::STRIDE
    }
}

// The sample's game in parts, and its table.
#[derive(Clone, Copy)]
pub struct Sample<'a> {
    pub sizes: Sizes,
    pub rules: &'a [u8],
    pub table: &'a [u32; WORDS],
    pub ghost safe: { Safe sizes rules.now },
}

// All 0 where the entry is unused.
#[derive(Clone, Copy, Debug, Default, PartialEq, Eq)]
pub struct Fields {
    pub state: u8,
    pub letter: u8,
    pub set: u32,
    pub birthdate: u8,
    pub rule: u32,
}

impl Fields {
    // State + 256 × letter + 65,536 × birthdate; the set; the rule field.
    pub fn words(self) -> EntryWords {
        EntryWords {
            first: u32::from_le_bytes([self.state, self.letter, self.birthdate, 0]),
            set: self.set,
            rule: self.rule,
        }
    }
}

// The fields of an entry of the sample.
pub fn fields_of(i: usize) -> Fields {
    match i {
        0 => Fields {
            set: 2,
            ..Fields::default()
        },
        1..USED => Fields {
            state: 0,
            letter: byte_of(i),
            set: 1,
            birthdate: byte_of(USED - i),
            rule: word_of(i + 1),
        },
        _ => Fields::default(),
    }
}

// The entry at a place; an unused one beyond the area.
pub fn entry_at(words: &[u32; WORDS], i: usize) -> EntryWords {
    if i < ENTRIES {
        EntryWords::at(words, i)
    } else {
        EntryWords::none()
    }
}

// Puts an entry at a place; nothing beyond the area.
pub fn put_entry(words: &mut [u32; WORDS], i: usize, entry: EntryWords) {
    if i < ENTRIES {
        let at = i * EntryWords::STRIDE;
        words[at..at + EntryWords::STRIDE].copy_from_slice(&[entry.first, entry.set, entry.rule]);
    }
}
