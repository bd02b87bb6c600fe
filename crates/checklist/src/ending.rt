// The end of a line: passed, or failed and how often.
use output::Tally;
use std::fmt;
use std::fmt::Display;

#[derive(Clone, Copy)]
pub struct Ending(pub Tally);

impl fmt::Display for Ending {
    fn fmt<W: fmt::Write>(&self, f: &mut fmt::Formatter<W>) -> fmt::Result {
        match self.0.failed {
            0 => write!(f, "passed"),
            failed => write!(f, "failed {failed}"),
        }
    }
}

// Prints the line of some tries, which is left out where it cannot be written, and adds them to the others.
pub fn end(all: &mut Tally, tries: Tally, line: impl Display + Drop) {
    let _ = tries.out.println(format_args!("{line}: {}", Ending(tries)));
    all.add(tries);
}
