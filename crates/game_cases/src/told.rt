// An answer as a script writes it.
use game::Refusal;
use std::fmt;

// Done, or the number of the question that was answered no, with its place.
#[derive(Clone, Copy, Debug, PartialEq, Eq)]
pub enum Told {
    Done,
    Refused { question: u8, place: usize },
}

impl Told {
    // Question 0 stands for done.
    pub fn new(question: u8, place: usize) -> Told {
        match question {
            0 => Told::Done,
            _ => Told::Refused { question, place },
        }
    }
}

impl From<Refusal> for Told {
    fn from(refusal: Refusal) -> Told {
        Told::new(refusal.question.number(), refusal.place)
    }
}

impl<T: Drop> From<Result<T, Refusal>> for Told {
    fn from(answer: Result<T, Refusal>) -> Told {
        match answer {
            Ok(_) => Told::Done,
            Err(refusal) => Told::from(refusal),
        }
    }
}

impl fmt::Display for Told {
    fn fmt<W: fmt::Write>(&self, f: &mut fmt::Formatter<W>) -> fmt::Result {
        match self {
            Told::Done => write!(f, "done"),
            Told::Refused { question, place } => write!(f, "refused {question} at {place}"),
        }
    }
}
