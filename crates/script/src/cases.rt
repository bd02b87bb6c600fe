// The cases of a script. A case that fails prints one line, which starts with its number and the script's line that it is on.
use output::Tally;
use std::fmt::Display;
use std::io;
use std::io::Stdout;

// The tally, and the line that the case at hand is on.
#[derive(Clone, Copy)]
pub struct Cases {
    pub tally: Tally,
    pub line: usize,
}

impl Cases {
    pub fn new(out: Stdout) -> Cases {
        Cases {
            tally: Tally::new(out),
            line: 0,
        }
    }

    // One case, with what was expected and what came instead.
    pub fn check(&mut self, holds: bool, told: impl Display + Drop) {
        let number = self.tally.next();
        let line = self.line;
        self.tally.check(
            holds,
            format_args!("case {number}, line {line}: expected {told}"),
        );
    }

    // One case: two values are the same.
    pub fn same<T: PartialEq + Display + Drop>(&mut self, expected: T, got: T) {
        self.check(expected == got, format_args!("{expected}, got {got}"));
    }

    // One case: a test says yes.
    pub fn yes(&mut self, got: bool) {
        self.check(got, "yes, got no");
    }

    // The last line.
    pub fn print(&self, name: &str) -> io::Result<()> {
        let Tally { tried, failed, out } = self.tally;
        println!(out; "{name} cases: {tried} tried, {failed} failed")
    }
}
