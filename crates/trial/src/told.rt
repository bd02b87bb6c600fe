// What solving and judging answer, so that two answers can be compared and printed.
use game::Refusal;
use judge::Verdict;
use output::Tally;
use solver::Solved;
use std::fmt;

#[derive(Clone, Copy, Debug, PartialEq, Eq)]
pub enum Told {
    Solved(Solved),
    Judged(Verdict),
    Refused(Refusal),
}

impl From<Result<Solved, Refusal>> for Told {
    fn from(solved: Result<Solved, Refusal>) -> Told {
        match solved {
            Ok(solved) => Told::Solved(solved),
            Err(refusal) => Told::Refused(refusal),
        }
    }
}

impl From<Result<Verdict, Refusal>> for Told {
    fn from(judged: Result<Verdict, Refusal>) -> Told {
        match judged {
            Ok(verdict) => Told::Judged(verdict),
            Err(refusal) => Told::Refused(refusal),
        }
    }
}

// A word and two numbers. Of a lost position they are the number of the rule plus 1, or 0, and 0.
impl fmt::Display for Told {
    fn fmt<W: fmt::Write>(&self, f: &mut fmt::Formatter<W>) -> fmt::Result {
        match self {
            Told::Solved(Solved { entries, rounds }) => write!(f, "solved {entries} {rounds}"),
            Told::Judged(Verdict::Lost { rule: None }) => write!(f, "lost 0 0"),
            Told::Judged(Verdict::Lost { rule: Some(rule) }) => {
                write!(f, "lost {} 0", u64::from(*rule) + 1)
            }
            Told::Judged(Verdict::Target) => write!(f, "target 0 0"),
            Told::Judged(Verdict::Eloise { rule, bound }) => write!(f, "eloise {rule} {bound}"),
            Told::Judged(Verdict::Abelard { bound }) => write!(f, "abelard {bound} 0"),
            Told::Refused(Refusal { question, place }) => {
                write!(f, "refused {} {place}", question.number())
            }
        }
    }
}

// One check: a fact that was found to hold or not.
pub fn held(t: &mut Tally, holds: bool) {
    let number = t.next();
    t.check(holds, format_args!("failed: check {number}"));
}

// One check: an answer is this one.
pub fn same(t: &mut Tally, expected: Told, got: Told) {
    if expected != got {
        let _ = t
            .out
            .println(format_args!("expected {expected}, got {got}"));
    }
    held(t, expected == got);
}
