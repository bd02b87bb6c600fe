// The questions of documents 01 and 02 by name, and what an entry point answers where one of them is answered no.
ghost use Rattle.std.specs.Prelude.{◌≡◌};
ghost use Rattle.game.specs.Outcome.{number};

use std::fmt;

// The questions, in the order of their numbers. 15 and 18 are not put.
#[derive(Clone, Copy, Debug, PartialEq, Eq)]
pub enum Question {
    Length,
    Known,
    Order,
    Range,
    Bottom,
    New,
    Room,
    Last,
    Heads,
    Areas,
    Entries,
    Rounds,
    Table,
    Position,
    Head,
    Height,
    Operands,
}

impl Question {
    // The number that the documents give it.
    pub fn number(self) -> u8
        ensures { result ≡ number self }
    {
        match self {
            Question::Length => 1,
            Question::Known => 2,
            Question::Order => 3,
            Question::Range => 4,
            Question::Bottom => 5,
            Question::New => 6,
            Question::Room => 7,
            Question::Last => 8,
            Question::Heads => 9,
            Question::Areas => 10,
            Question::Entries => 11,
            Question::Rounds => 12,
            Question::Table => 13,
            Question::Position => 14,
            Question::Head => 16,
            Question::Height => 17,
            Question::Operands => 19,
        }
    }

    // Answered no, at a place.
    pub fn at(self, place: usize) -> Refusal
        ensures { result ≡ record { question = self; place = place } }
    {
        Refusal {
            question: self,
            place,
        }
    }
}

// The first question that was answered no, and its place.
#[derive(Clone, Copy, Debug, PartialEq, Eq)]
pub struct Refusal {
    pub question: Question,
    pub place: usize,
}

// The line that the programs print.
impl fmt::Display for Refusal {
    fn fmt<W: fmt::Write>(&self, f: &mut fmt::Formatter<W>) -> fmt::Result {
        write!(f, "refused {} at {}", self.question.number(), self.place)
    }
}
