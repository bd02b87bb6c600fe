// A judgement as a script writes it: a word and two numbers, so that two can be compared and printed.
use game::Refusal;
use judge::Verdict;
use std::fmt;

#[derive(Clone, Copy, Debug, PartialEq, Eq)]
pub enum Kind {
    Lost,
    Target,
    Eloise,
    Abelard,
    Refused,
}

impl Kind {
    // The kind of a verdict by the first letter of its word.
    pub fn of_letter(letter: u8) -> Option<Kind> {
        match letter {
            b'l' => Some(Kind::Lost),
            b't' => Some(Kind::Target),
            b'e' => Some(Kind::Eloise),
            b'a' => Some(Kind::Abelard),
            _ => None,
        }
    }
}

impl fmt::Display for Kind {
    fn fmt<W: fmt::Write>(&self, f: &mut fmt::Formatter<W>) -> fmt::Result {
        f.write_str(match self {
            Kind::Lost => "lost",
            Kind::Target => "target",
            Kind::Eloise => "eloise",
            Kind::Abelard => "abelard",
            Kind::Refused => "refused",
        })
    }
}

// The kind, and two numbers: the rule's number plus 1, or 0, and 0 of a lost position; rule and bound; bound and 0; question and place.
#[derive(Clone, Copy, Debug, PartialEq, Eq)]
pub struct Told {
    pub kind: Kind,
    pub first: u64,
    pub second: u64,
}

impl Told {
    pub fn new(kind: Kind, first: u64, second: u64) -> Told {
        Told {
            kind,
            first,
            second,
        }
    }
}

impl From<Result<Verdict, Refusal>> for Told {
    fn from(judged: Result<Verdict, Refusal>) -> Told {
        match judged {
            Ok(Verdict::Lost { rule }) => {
                Told::new(Kind::Lost, rule.map_or(0, |r| u64::from(r) + 1), 0)
            }
            Ok(Verdict::Target) => Told::new(Kind::Target, 0, 0),
            Ok(Verdict::Eloise { rule, bound }) => Told::new(Kind::Eloise, u64::from(rule), bound),
            Ok(Verdict::Abelard { bound }) => Told::new(Kind::Abelard, bound, 0),
            Err(refusal) => {
                let question = u64::from(refusal.question.number());
                Told::new(Kind::Refused, question, refusal.place as u64)
            }
        }
    }
}

impl fmt::Display for Told {
    fn fmt<W: fmt::Write>(&self, f: &mut fmt::Formatter<W>) -> fmt::Result {
        write!(f, "{} {} {}", self.kind, self.first, self.second)
    }
}
