// The same game solved twice, over areas that held other words before: equal answers, equal words, and a work area that is zero.
// The digest of the table's words is printed, to be held against that of another host.
//
// It leaves out areas of other lengths than the largest.
use crate::areas::Areas;
use crate::digest::Digest;
use crate::ending::end;
use crate::samples::{FILES, Sample};
use game::{Question, Refusal};
use output::Tally;
use solver::Solved;
use std::fmt;

// What solving answered.
#[derive(Clone, Copy, Debug, PartialEq, Eq)]
struct Answer(Result<Solved, Refusal>);

impl fmt::Display for Answer {
    fn fmt<W: fmt::Write>(&self, f: &mut fmt::Formatter<W>) -> fmt::Result {
        match self.0 {
            Ok(Solved { entries, rounds }) => write!(f, "rounds {rounds} entries {entries}"),
            Err(Refusal { question, place }) => {
                write!(f, "refused by question {} at {place}", question.number())
            }
        }
    }
}

pub fn every_solve(t: &mut Tally, areas: &mut Areas) {
    for sample in FILES {
        one_game(t, sample, areas);
    }
}

// The line of one game: five tries.
fn one_game(t: &mut Tally, sample: Sample, areas: &mut Areas) {
    let file = sample.file();
    let first = Answer(areas.solve_over(file.as_slice(), 4294967295, 1));
    let is_clean = areas.is_work_zero();
    let table = areas.table;
    let second = Answer(areas.solve_over(file.as_slice(), 65536, 2863311530));
    let mut tries = Tally::new(t.out);
    tries.count(first == expected(sample));
    tries.count(first == second);
    tries.count(areas.table == table);
    tries.count(is_clean);
    tries.count(areas.is_work_zero());
    let digest = Digest::of(&areas.table);
    end(
        t,
        tries,
        format_args!(
            "solved twice, {sample}: {first}, equal words, work area zero, digest {digest}"
        ),
    );
}

// What document 01's rounds give for the samples.
fn expected(sample: Sample) -> Answer {
    let (entries, rounds) = match sample {
        Sample::A => (4, 2),
        Sample::B => (3, 1),
        Sample::C => (3, 2),
        Sample::D(40) => (41, 40),
        _ => return Answer(Err(Question::Rounds.at(41))),
    };
    Answer(Ok(Solved { entries, rounds }))
}
