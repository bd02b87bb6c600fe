// The C interface: each entry point with plain numbers and slices. A slice is a pointer and a length in C; what each holds is in
// the header, `include/pushdown.h`.
//
// A result is 0, the number of the question that was answered no, or 100 where an area has the wrong length; the rest is
// written to `out`. With 100 nothing is written.
#![tactic(auto)]

mod areas;

ghost use Rattle.std.specs.Prelude.{◌≡◌, ◌<◌, ◌-◌, ◌∷◌, length, replicate};
ghost use Rattle.game.specs.Outcome.{done, number};
ghost use Rattle.judge.specs.Judged.{field_of, verdict_as};
ghost use Rattle.pushdown.specs.Interface.{version, read_call, solve_with, judge_told, judge_call, play_call};

use crate::areas::{session_of, store};
use game::{Game, Refusal};
use judge::{Verdict, judge};
use session::play;
use solver::solve;

pub const VERSION_MAJOR: u32 = 4;

pub const VERSION_MINOR: u32 = 0;

pub const WRONG_LENGTH: u32 = 100;

pub const READ_WORDS: usize = 8;

pub const SOLVE_WORDS: usize = 3;

pub const JUDGE_WORDS: usize = 4;

pub const PLAY_WORDS: usize = 1;

pub const SESSION_BYTES: usize = 259;

// The version of the library: major × 65,536 + minor, as `PUSHDOWN_VERSION` of the header that it goes with.
#[unsafe(no_mangle)]
pub extern "C" fn pushdown_version() -> u32
    ensures { result ≡ version }
{
    VERSION_MAJOR * 65536 + VERSION_MINOR
}

// Reads a game file. `out` has 8 words: place, control states, states, letters, Abelard's set, the finals' set, rules, target
// transitions.
#[unsafe(no_mangle)]
pub extern "C" fn pushdown_read(file: &[u8], out: &mut [u64]) -> u32
    ensures { record { number = result; out = out.new } ≡ read_call file.now out.old }
{
    if out.len() != READ_WORDS {
        return WRONG_LENGTH;
    }
    match Game::read(file) {
        Ok(game) => {
            let sizes = game.sizes();
            out.copy_from_slice(&[
                0,
                sizes.control as u64,
                sizes.states as u64,
                sizes.letters as u64,
                sizes.abelard as u64,
                sizes.finals as u64,
                sizes.rulecount as u64,
                sizes.targetcount as u64,
            ]);
            0
        }
        Err(unread) => refuse(unread, out),
    }
}

// Solves a game file. `out` has 3 words: place, entries, rounds.
#[unsafe(no_mangle)]
pub extern "C" fn pushdown_solve(
    file: &[u8],
    table: &mut [u32],
    work: &mut [u32],
    out: &mut [u64],
) -> u32
    ensures { record { number = result; out = out.new; table = table.new; work = work.new }
        ≡ solve_with file.now table.old work.old out.old }
{
    if out.len() != SOLVE_WORDS {
        return WRONG_LENGTH;
    }
    match solve(file, table, work) {
        Ok(solved) => {
            out.copy_from_slice(&[0, solved.entries as u64, solved.rounds as u64]);
            0
        }
        Err(unsolved) => refuse(unsolved, out),
    }
}

// Judges a position. `out` has 4 words: place, kind, rule, bound.
#[unsafe(no_mangle)]
pub extern "C" fn pushdown_judge(
    file: &[u8],
    table: &[u32],
    position: &[u8],
    out: &mut [u64],
) -> u32
    ensures { record { number = result; out = out.new }
        ≡ judge_call file.now table.now position.now out.old }
{
    if out.len() != JUDGE_WORDS {
        return WRONG_LENGTH;
    }
    match judge(file, table, position) {
        Ok(verdict) => {
            out.copy_from_slice(&words_of(verdict));
            0
        }
        Err(unjudged) => refuse(unjudged, out),
    }
}

// Plays the rule of a number in a session of 259 bytes: state, height (lower byte first), 256 cells, bottom letter first. `out`
// has 1 word: place.
#[unsafe(no_mangle)]
pub extern "C" fn pushdown_play(file: &[u8], session: &mut [u8], rule: u32, out: &mut [u64]) -> u32
    ensures { record { number = result; out = out.new; session = session.new }
        ≡ play_call file.now session.old rule out.old }
{
    if session.len() != SESSION_BYTES {
        return WRONG_LENGTH;
    }
    if out.len() != PLAY_WORDS {
        return WRONG_LENGTH;
    }
    let mut played = session_of(session);
    match play(file, &mut played, rule) {
        Ok(()) => {
            store(session, played);
            out[0] = 0;
            0
        }
        Err(unplayed) => refuse(unplayed, out),
    }
}

// A verdict's words: place 0, kind, rule, bound. The rule of a lost position is told as its number plus 1, or 0.
fn words_of(verdict: Verdict) -> [u64; JUDGE_WORDS]
    ensures { record { number = 0; out = result } ≡ judge_told (done (verdict_as verdict)) }
{
    match verdict {
        Verdict::Lost { rule } => [0, 1, field_of(rule), 0],
        Verdict::Target => [0, 2, 0, 0],
        Verdict::Eloise { rule, bound } => [0, 3, rule as u64, bound],
        Verdict::Abelard { bound } => [0, 4, 0, bound],
    }
}

fn field_of(rule: Option<u32>) -> u64
    ensures { result ≡ field_of rule }
{
    match rule {
        Some(number) => number as u64 + 1,
        None => 0,
    }
}

// A refusal's words, the place and zeros, and its number.
fn refuse(refusal: Refusal, out: &mut [u64]) -> u32
    requires { 0 < length out.old }
    ensures told { result ≡ number refusal.question }
    ensures written { out.new ≡ refusal.place ∷ replicate (length out.old - 1) 0 }
{
    out.fill(0);
    out[0] = refusal.place as u64;
    refusal.question.number() as u32
}
