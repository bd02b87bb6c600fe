// The tally of a test program: how many cases were tried and how many failed. The line of a case that fails is left out where it cannot be
// written: the last line, which each program prints by itself, says how many there are.
use std::fmt::Display;
use std::io::Stdout;

#[derive(Clone, Copy)]
pub struct Tally {
    pub tried: usize,
    pub failed: usize,
    pub out: Stdout,
}

impl Tally {
    // A count stays where it is from this number on.
    const MOST: usize = 1000000;

    pub fn new(out: Stdout) -> Tally {
        Tally {
            tried: 0,
            failed: 0,
            out,
        }
    }

    // The number of the next case.
    pub fn next(&self) -> usize {
        next_count(self.tried)
    }

    // One case, which holds or not.
    pub fn count(&mut self, holds: bool) {
        self.tried = next_count(self.tried);
        if !holds {
            self.failed = next_count(self.failed);
        }
    }

    // One case, with the line that is printed where it does not hold.
    pub fn check(&mut self, holds: bool, line: impl Display + Drop) {
        self.count(holds);
        if !holds {
            let _ = self.out.println(line);
        }
    }

    // The cases of another tally too.
    pub fn add(&mut self, other: Tally) {
        self.tried = self.tried.saturating_add(other.tried);
        self.failed = self.failed.saturating_add(other.failed);
    }
}

fn next_count(n: usize) -> usize {
    if n < Tally::MOST { n + 1 } else { n }
}
