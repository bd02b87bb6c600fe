// A cut game file, told from one with an unknown command: every cut of every sample file, from no byte to all but the last, is
// refused by reader, solver, judge and move with one question and place, 19 where it ends within a command; and with an unknown byte
// in the place of a command's own the file is refused by 2 at that command, whole and where it ends with that byte. The question and
// the place are worked out here by a walk of their own, from documents 01 and 02.
//
// It leaves out files damaged in another way.
ghost use Rattle.std.specs.Prelude.{length};
ghost use Rattle.std.specs.Iterator.{at_most};

use crate::areas::Areas;
use crate::ending::end;
use crate::samples::{FILES, Sample};
use game::{Game, Question, Refusal};
use judge::judge;
use output::Tally;
use script::front;
use session::{Session, play_move};
use std::fmt;

// What the areas hold before each call.
const BEFORE: u32 = 4294967295;

// A byte that is no command.
const UNKNOWN: u8 = 254;

// The whole commands that a file begins with, each with its operands.
#[derive(Clone, Copy)]
struct Commands<'a>(&'a [u8]);

impl<'a> Iterator for Commands<'a> {
    type Item = &'a [u8];

    ghost remaining = { λ s. at_most (length s.0.now) };

    fn next(&mut self) -> Option<&'a [u8]> {
        let (code, rest) = self.0.split_first()?;
        let (operands, rest) = rest.split_at_checked(operands_of(*code)?)?;
        self.0 = rest;
        Some(operands)
    }
}

// How many operands a command has; none for an unknown one.
fn operands_of(code: u8) -> Option<usize> {
    match code {
        1 => Some(3),
        2 | 3 => Some(1),
        4 | 5 => Some(6),
        255 => Some(0),
        _ => None,
    }
}

// A refusal, or none, as the line of a try that fails has it.
#[derive(Clone, Copy)]
struct Asked(Option<Refusal>);

impl fmt::Display for Asked {
    fn fmt<W: fmt::Write>(&self, f: &mut fmt::Formatter<W>) -> fmt::Result {
        match self.0 {
            None => write!(f, "question 0 at 0"),
            Some(Refusal { question, place }) => {
                write!(f, "question {} at {place}", question.number())
            }
        }
    }
}

pub fn every_file(t: &mut Tally, areas: &mut Areas) {
    for sample in FILES {
        every_cut(t, sample, areas);
        every_command(t, sample, areas);
    }
}

// The cuts of one file. The whole of it is read, so that no cut is refused for what stands before it.
fn every_cut(t: &mut Tally, sample: Sample, areas: &mut Areas) {
    let file = sample.file();
    let file = file.as_slice();
    let mut tries = Tally::new(t.out);
    let mut within = 0usize;
    for n in 0..file.len() {
        let cut = front(file, n);
        let refusal = expected(cut);
        within = within.saturating_add(usize::from(refusal.question == Question::Operands));
        refused_alike(&mut tries, refusal, cut, areas);
    }
    tries.count(Game::read(file).is_ok());
    let cuts = file.len();
    end(
        t,
        tries,
        format_args!(
            "cut file, {sample}: {cuts} cuts, {within} in a command (19), refused as asked by reader, solver, judge and move"
        ),
    );
}

// Each command of a file in turn with an unknown byte in the place of its own: the whole file, and the file up to that byte.
fn every_command(t: &mut Tally, sample: Sample, areas: &mut Areas) {
    let file = sample.file();
    let mut tries = Tally::new(t.out);
    let mut at = 0usize;
    for operands in Commands(file.as_slice()) {
        let mut unknown = file;
        unknown.put(at, UNKNOWN);
        let refusal = Question::Known.at(at);
        refused_alike(&mut tries, refusal, unknown.as_slice(), areas);
        at = at.saturating_add(1);
        refused_alike(&mut tries, refusal, unknown.front(at), areas);
        at = at.saturating_add(operands.len());
    }
    if at != file.len() {
        tries.count(false);
    }
    let tried = tries.tried;
    end(
        t,
        tries,
        format_args!(
            "unknown command, {sample}: {tried} tries (2), refused as asked by reader, solver, judge and move"
        ),
    );
}

// What a cut of a file is refused with. No cut of a file that is read as a whole holds FF, which is its last byte, and questions 2 to 7
// are answered yes for each whole command. So only a missing operand is met, or the end.
fn expected(cut: &[u8]) -> Refusal {
    if cut.is_empty() {
        return Question::Length.at(0);
    }
    let mut at = 0usize;
    for operands in Commands(cut) {
        at = at.saturating_add(1).saturating_add(operands.len());
    }
    match cut.get(at) {
        None => Question::Last.at(at),
        Some(code) if operands_of(*code).is_some() => Question::Operands.at(at),
        Some(_) => Question::Known.at(at),
    }
}

// A file that is refused, by all with the same question and place: five tries. A refused solve leaves no word in either area.
fn refused_alike(t: &mut Tally, expected: Refusal, file: &[u8], areas: &mut Areas) {
    let start = Session {
        state: 0,
        stack: [0; Game::MAX_STACK],
        height: 1,
    };
    same(t, "reader", file, expected, Game::read(file).err());
    same(
        t,
        "move",
        file,
        expected,
        play_move(file, start, 0).answer.err(),
    );
    let solved = areas.solve_over(file, BEFORE, BEFORE);
    same(t, "solver", file, expected, solved.err());
    t.count(areas.is_table_zero() && areas.is_work_zero());
    let judged = judge(file, &areas.table, b"\x00\x00");
    same(t, "judge", file, expected, judged.err());
}

// One try: an answer is the expected refusal.
fn same(t: &mut Tally, who: &str, file: &[u8], expected: Refusal, got: Option<Refusal>) {
    let length = file.len();
    let expected = Some(expected);
    t.check(
        got == expected,
        format_args!(
            "{who} on the first {length} bytes: expected {}, got {}",
            Asked(expected),
            Asked(got)
        ),
    );
}
