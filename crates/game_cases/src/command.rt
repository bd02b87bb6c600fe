// Cases of the command reader by itself.
use game::{Command, Unread, command_at};
use script::Cases;

// Two cases: the command at an offset is that of this byte, and this is the offset after it.
pub fn kind(t: &mut Cases, file: &[u8], at: usize, byte: usize, next: usize) {
    let (code, after) = match command_at(file, at) {
        Ok((command, after)) => (code_of(command), after),
        Err(Unread::Cut) => (0, 0),
        Err(Unread::Unknown) => (0, 1),
    };
    t.same(byte, code);
    t.same(next, after);
}

fn code_of(command: Command) -> usize {
    match command {
        Command::Sizes { .. } => 1,
        Command::Abelard { .. } => 2,
        Command::Final { .. } => 3,
        Command::Rule(_) => 4,
        Command::Target(_) => 5,
        Command::End => 255,
    }
}

// One case: operand i, from 1, of the command at an offset is this number.
pub fn operand(t: &mut Cases, file: &[u8], at: usize, i: usize, number: usize) {
    match command_at(file, at) {
        Ok((command, _)) => t.same(number, operand_of(command, i)),
        Err(_) => t.yes(false),
    }
}

fn operand_of(command: Command, i: usize) -> usize {
    match command {
        Command::Sizes {
            control,
            states,
            letters,
        } => pick(i, control, states, usize::from(letters)),
        Command::Abelard { state } | Command::Final { state } => usize::from(state),
        Command::Rule(r) if 3 < i => pick(i - 3, r.count, r.above, usize::from(r.below)),
        Command::Rule(r) => pick(i, r.from, r.top, usize::from(r.to)),
        Command::Target(t) => pick(i, t.state, t.letter, t.set as usize),
        Command::End => 0,
    }
}

fn pick(i: usize, one: u8, two: u8, three: usize) -> usize {
    match i {
        1 => usize::from(one),
        2 => usize::from(two),
        _ => three,
    }
}
