// What is checked, and its line.
use crate::calls::Call;
use crate::damage::Kind;
use crate::expected::{Expected, Told};
use game::Refusal;
use output::Tally;
use std::fmt;

#[derive(Clone, Copy, Debug, PartialEq, Eq)]
pub enum What {
    Entry,
    Damaged(Kind),
    Called(Call),
}

impl fmt::Display for What {
    fn fmt<W: fmt::Write>(&self, f: &mut fmt::Formatter<W>) -> fmt::Result {
        match self {
            What::Entry => f.write_str("sample"),
            What::Damaged(kind) => write!(f, "{kind}"),
            What::Called(call) => write!(f, "{call}"),
        }
    }
}

// A kind of damage or of call, the entry that it is about, and the cut, or the index of a part.
#[derive(Clone, Copy, Debug, PartialEq, Eq)]
pub struct Case {
    pub what: What,
    pub entry: usize,
    pub cut: usize,
}

impl fmt::Display for Case {
    fn fmt<W: fmt::Write>(&self, f: &mut fmt::Formatter<W>) -> fmt::Result {
        write!(f, "{}, entry {}, cut {}", self.what, self.entry, self.cut)
    }
}

// One check: an answer is the one expected.
pub fn same(t: &mut Tally, case: Case, expected: Expected, got: Result<(), Refusal>) {
    let expected = expected.answer();
    t.check(
        expected == got,
        format_args!(
            "failed: {case}: expected {}, got {}",
            Told(expected),
            Told(got)
        ),
    );
}
