// Commands, and what stands at an offset of a game file.
ghost use Rattle.std.specs.Prelude.{◌≡◌, ◌<◌, ◌+◌, length};
ghost use Rattle.game.specs.Command.{set_of, operands_at, command_at};
ghost use Rattle.game.specs.Outcome.{unread_as};

use crate::refusal::Question;
use crate::rule::{RuleBytes, TargetWords};

#[derive(Clone, Copy, Debug, PartialEq, Eq)]
pub enum Command {
    Sizes {
        control: u8,
        states: u8,
        letters: u8,
    },
    Abelard {
        state: u8,
    },
    Final {
        state: u8,
    },
    Rule(RuleBytes),
    Target(TargetWords),
    End,
}

// Why no command stands at an offset: a known one is cut by the file's end, or the command byte is unknown.
#[derive(Clone, Copy, Debug, PartialEq, Eq)]
pub enum Unread {
    Cut,
    Unknown,
}

// The question that is answered no: 19, and 2.
impl From<Unread> for Question {
    ghost from_gives = { λ unread question. question ≡ unread_as unread };

    fn from(unread: Unread) -> Question {
        match unread {
            Unread::Cut => Question::Operands,
            Unread::Unknown => Question::Known,
        }
    }
}

// What stands at an offset of a file: a command with the offset after it.
pub fn command_at(file: &[u8], at: usize) -> Result<(Command, usize), Unread>
    ensures { result ≡ command_at file.now at }
{
    if file.len() <= at {
        return Err(Unread::Cut);
    }
    match file[at] {
        1 => {
            let [control, states, letters] = operands::<3>(file, at)?;
            let sizes = Command::Sizes {
                control,
                states,
                letters,
            };
            Ok((sizes, at + 4))
        }
        2 => {
            let [state] = operands::<1>(file, at)?;
            Ok((Command::Abelard { state }, at + 2))
        }
        3 => {
            let [state] = operands::<1>(file, at)?;
            Ok((Command::Final { state }, at + 2))
        }
        4 => {
            let [from, top, to, count, above, below] = operands::<6>(file, at)?;
            let rule = RuleBytes {
                from,
                top,
                to,
                count,
                above,
                below,
            };
            Ok((Command::Rule(rule), at + 7))
        }
        5 => {
            let [state, letter, b0, b1, b2, b3] = operands::<6>(file, at)?;
            let target = TargetWords {
                state,
                letter,
                set: set_of(b0, b1, b2, b3),
            };
            Ok((Command::Target(target), at + 7))
        }
        255 => Ok((Command::End, at + 1)),
        _ => Err(Unread::Unknown),
    }
}

// The operands of a command that stands at an offset, which the file's end may cut.
fn operands<const N: usize>(file: &[u8], at: usize) -> Result<[u8; N], Unread>
    requires { at < length file.now }
    ensures { result ≡ operands_at N file.now at }
{
    if file.len() - at < N + 1 {
        return Err(Unread::Cut);
    }
    let mut bytes = [0; N];
    bytes.copy_from_slice(&file[at + 1..at + 1 + N]);
    Ok(bytes)
}

// A set of four bytes, lowest first.
fn set_of(b0: u8, b1: u8, b2: u8, b3: u8) -> u32
    ensures { result ≡ set_of b0 b1 b2 b3 }
{
    (b0 as u32) + (b1 as u32) * 256 + (b2 as u32) * 65536 + (b3 as u32) * 16777216
}
