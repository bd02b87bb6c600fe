// What question 13 must answer to a table, and why: the place of a refusal is that of an entry which fails alone, or of the later of two.
use game::{Question, Refusal};
use std::fmt;

#[derive(Clone, Copy, Debug, PartialEq, Eq)]
pub enum Expected {
    // How many entries are used.
    Sound { used: usize },
    Refused { why: Why, place: usize },
}

#[derive(Clone, Copy, Debug, PartialEq, Eq)]
pub enum Why {
    // An entry fails, whatever is before it.
    Alone,
    // Two entries have one key.
    Equal,
    // An entry's key is below that of the one before it.
    Order,
    // A used entry comes after an unused one.
    Unused,
}

impl Expected {
    pub fn refused(why: Why, place: usize) -> Expected {
        Expected::Refused { why, place }
    }

    pub fn answer(self) -> Result<(), Refusal> {
        match self {
            Expected::Sound { .. } => Ok(()),
            Expected::Refused { place, .. } => Err(Question::Table.at(place)),
        }
    }
}

// An answer as a line has it.
#[derive(Clone, Copy)]
pub struct Told(pub Result<(), Refusal>);

impl fmt::Display for Told {
    fn fmt<W: fmt::Write>(&self, f: &mut fmt::Formatter<W>) -> fmt::Result {
        match self.0 {
            Ok(()) => f.write_str("done"),
            Err(refusal) => write!(f, "{refusal}"),
        }
    }
}
