// The verdict program: reads a game and then positions from standard input, each as a piece, and prints one verdict a line.
// A piece is two length bytes, lower first, and then so many bytes. The lines: `lost`, with the number of Abelard's rule that leads
// to a lost position if there is one, `target`, `eloise` with rule and bound, `abelard` with bound, or the refusal line. A game that
// is refused, or not solved, prints its one line and ends the run; a refused position does not.
//
// A piece cut short is taken as the bytes that came, and without both length bytes the run ends. A read or a write that fails
// ends the run with its error. It leaves out playing.
#![tactic(auto)]

use game::{Game, Refusal};
use judge::{Verdict, judge};
use output::read_full;
use solver::solve;
use std::io::Read;
use std::{fmt, io};
use table::EntryWords;

// The most bytes that two length bytes can announce. Pieces are read whole, also those beyond the limits of files and
// positions, so that the next one begins where its length bytes stand.
const LONGEST: usize = 65535;

fn main(rt: HostRuntime) -> io::Result<()> {
    let mut buffer = [0u8; LONGEST];
    let mut table = [0u32; EntryWords::STRIDE * Game::MAX_ENTRIES];
    let mut work = [0u32; EntryWords::STRIDE * Game::MAX_ENTRIES];
    let mut input = rt.stdin();
    let Some(file) = read_piece(&mut input, &mut buffer)? else {
        return Ok(());
    };
    match solve(file, &mut table, &mut work) {
        Ok(_) => judge_all(&mut input, &rt, file, &table),
        Err(refusal) => println!(rt; "{refusal}"),
    }
}

// A verdict for each position that is left in the input.
fn judge_all(input: &mut impl Read, rt: &impl Print, file: &[u8], table: &[u32]) -> io::Result<()> {
    let mut buffer = [0u8; LONGEST];
    for _ in 0..u64::MAX {
        let Some(position) = read_piece(input, &mut buffer)? else {
            break;
        };
        println!(rt; "{}", Judged(judge(file, table, position)))?;
    }
    Ok(())
}

// The next piece, read into a buffer, if the input has one.
fn read_piece<'a>(
    input: &mut impl Read,
    buffer: &'a mut [u8; LONGEST],
) -> io::Result<Option<&'a [u8]>> {
    let mut announced = [0u8; 2];
    if read_full(input, &mut announced)?.len() < 2 {
        return Ok(None);
    }
    let n = usize::from(u16::from_le_bytes(announced));
    Ok(Some(read_full(input, &mut buffer[..n])?))
}

// The line of a position.
#[derive(Clone, Copy)]
struct Judged(Result<Verdict, Refusal>);

impl fmt::Display for Judged {
    fn fmt<W: fmt::Write>(&self, f: &mut fmt::Formatter<W>) -> fmt::Result {
        match self.0 {
            Ok(Verdict::Lost { rule: None }) => f.write_str("lost"),
            Ok(Verdict::Lost { rule: Some(rule) }) => write!(f, "lost {rule}"),
            Ok(Verdict::Target) => f.write_str("target"),
            Ok(Verdict::Eloise { rule, bound }) => write!(f, "eloise {rule} {bound}"),
            Ok(Verdict::Abelard { bound }) => write!(f, "abelard {bound}"),
            Err(refusal) => write!(f, "{refusal}"),
        }
    }
}
