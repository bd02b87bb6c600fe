// Kinds of damage to one entry of the sample's table, each with what question 13 must answer by document 01: "index from 0 of the first
// entry that fails, of two out of order the later". What is before the damaged entry stays sound, so that it is the first to fail where it
// fails alone.
use crate::entries::{Fields, USED, WORDS, entry_at, fields_of, put_entry};
use crate::expected::{Expected, Why};
use game::Game;
use script::{byte_of, word_of};
use std::fmt;
use table::EntryWords;

#[derive(Clone, Copy, Debug, PartialEq, Eq)]
pub enum Kind {
    // The table as it is, which counts for entry 0 only.
    None,
    // The set empty. Entry 0 has no other word, and so is unused.
    SetEmpty,
    // A set with state 2, where S is 2.
    SetBeyond,
    // State 2.
    StateBeyond,
    // State 1, which is no control state: entries of a round fail; entry 0 is in form, and entry 1 is out of order after it.
    StateFinal,
    // A letter that is L.
    LetterBeyond,
    // A birthdate beyond the rounds.
    BirthdateBeyond,
    // Birthdate 0 with a control state in the set; of entry 0 a birthdate without a rule.
    BirthdateOther,
    // Rule field 0 where a rule is to be named; of entry 0 one that is not 0.
    RuleOther,
    // The rule of the letter before; of entry 0 that of letter 1.
    RuleBeside,
    // The number after the last rule's.
    RuleBeyond,
    // A copy of the entry before it. Entry 0 has none.
    Copied,
    // Exchanged with the entry before it.
    Exchanged,
    // Unused, with used entries after it. After the last used one there is none.
    Unused,
}

#[derive(Clone, Copy, Debug, PartialEq, Eq)]
pub struct Damage {
    pub kind: Kind,
    pub entry: usize,
}

impl Kind {
    pub const ALL: [Kind; 14] = [
        Kind::None,
        Kind::SetEmpty,
        Kind::SetBeyond,
        Kind::StateBeyond,
        Kind::StateFinal,
        Kind::LetterBeyond,
        Kind::BirthdateBeyond,
        Kind::BirthdateOther,
        Kind::RuleOther,
        Kind::RuleBeside,
        Kind::RuleBeyond,
        Kind::Copied,
        Kind::Exchanged,
        Kind::Unused,
    ];

    // Fields after this damage of one of them.
    pub fn damaged(self, f: Fields) -> Fields {
        match self {
            Kind::SetEmpty => Fields { set: 0, ..f },
            Kind::SetBeyond => Fields {
                set: 4 + f.set % 4,
                ..f
            },
            Kind::StateBeyond => Fields { state: 2, ..f },
            Kind::StateFinal => Fields { state: 1, ..f },
            Kind::LetterBeyond => Fields {
                letter: byte_of(USED),
                ..f
            },
            Kind::BirthdateBeyond => Fields {
                birthdate: byte_of(Game::MAX_ROUNDS as usize + 1),
                ..f
            },
            Kind::BirthdateOther => Fields {
                birthdate: u8::from(f.birthdate == 0),
                ..f
            },
            Kind::RuleOther => Fields {
                rule: u32::from(f.rule == 0),
                ..f
            },
            Kind::RuleBeside => Fields {
                rule: f.rule.checked_sub(1).unwrap_or(2),
                ..f
            },
            Kind::RuleBeyond => Fields {
                rule: word_of(USED + 1),
                ..f
            },
            Kind::None | Kind::Copied | Kind::Exchanged | Kind::Unused => f,
        }
    }
}

impl Damage {
    // The kind is one of the entry's.
    pub fn is_case(self) -> bool {
        match self.kind {
            Kind::None => self.entry == 0,
            Kind::Copied | Kind::Exchanged => 0 < self.entry,
            _ => true,
        }
    }

    // The answer of question 13 to the table with this damage.
    pub fn expected(self) -> Expected {
        let i = self.entry;
        match self.kind {
            Kind::None => Expected::Sound { used: USED },
            Kind::SetEmpty => first_or(i, Why::Unused),
            Kind::StateFinal => first_or(i, Why::Order),
            Kind::Copied => Expected::refused(Why::Equal, i),
            Kind::Exchanged => Expected::refused(Why::Order, i),
            Kind::Unused => without(i),
            _ => Expected::refused(Why::Alone, i),
        }
    }

    // The words of a table with this damage.
    pub fn of(self, table: &[u32; WORDS]) -> [u32; WORDS] {
        let mut words = *table;
        let i = self.entry;
        let entry = entry_at(table, i);
        let before = entry_at(table, i.saturating_sub(1));
        let after = match self.kind {
            Kind::Copied | Kind::Exchanged => before,
            Kind::Unused => EntryWords::none(),
            kind => kind.damaged(fields_of(i)).words(),
        };
        put_entry(&mut words, i, after);
        if self.kind == Kind::Exchanged {
            put_entry(&mut words, i.saturating_sub(1), entry);
        }
        words
    }
}

// Entry 0 is passed and the next one fails against it; any other entry fails alone.
fn first_or(i: usize, why: Why) -> Expected {
    match i {
        0 => Expected::refused(why, 1),
        _ => Expected::refused(Why::Alone, i),
    }
}

// An entry is unused: the next one fails, if it is used.
fn without(i: usize) -> Expected {
    let next = i.saturating_add(1);
    if next < USED {
        Expected::refused(Why::Unused, next)
    } else {
        Expected::Sound { used: i }
    }
}

impl fmt::Display for Kind {
    fn fmt<W: fmt::Write>(&self, f: &mut fmt::Formatter<W>) -> fmt::Result {
        f.write_str(match self {
            Kind::None => "no damage",
            Kind::SetEmpty => "set empty",
            Kind::SetBeyond => "set beyond",
            Kind::StateBeyond => "state beyond",
            Kind::StateFinal => "state final",
            Kind::LetterBeyond => "letter beyond",
            Kind::BirthdateBeyond => "birthdate beyond",
            Kind::BirthdateOther => "birthdate other",
            Kind::RuleOther => "rule other",
            Kind::RuleBeside => "rule beside",
            Kind::RuleBeyond => "rule beyond",
            Kind::Copied => "copied",
            Kind::Exchanged => "exchanged",
            Kind::Unused => "unused",
        })
    }
}
