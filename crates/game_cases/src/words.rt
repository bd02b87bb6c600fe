// A script is words with operands. Each word is told by its first letter. `#` starts a comment, to the end of its line.
// Numbers are decimal; bytes are two hexadecimal digits, in upper case.
//
// Words that build, in a buffer of 4,098 bytes:
//   file BYTES           a new file
//   more BYTES           bytes after it
//   put AT BYTES         bytes in it from an offset on; its length stays
//   length N             its length
//   x N NUMBER           a byte N times after it
//   d N                  a new file: sample D with N letters above the bottom
//   heads P L            after it: a rule (p, a) to (0, [a]) for each of P control states and L letters
//   automaton Q L BYTE   after it: a target transition of each of Q states on each of L letters, to the set whose lowest byte
//                        is this number and whose others are 0
//
// Words that are cases:
//   no QUESTION PLACE    the file is refused so, and no game is handed out
//   cuts START END       the same for the file's first bytes: 19 at START for each number of them between, 8 at END for END
//   bytes LOW HIGH QUESTION PLACE   the same with each of these numbers as its last byte
//   game P S L A F R T   it is accepted: sizes, Abelard's states, finals, numbers of rules and of target transitions
//   rules START          the rules are those from START on, one after the other in the file, and zeros after them
//   targets START        the same for target transitions
//   stored BYTES         the first bytes of the rules
//   words NUMBERS        the first words of the target transitions
//   kind AT BYTE NEXT    the command reader finds this command at an offset, with the offset after it; where it finds none,
//                        byte 0, and then 0 for a command that the file's end cuts and 1 for an unknown one
//   operand AT I NUMBER  operand I, from 1, of the command at an offset; a set is one operand
//   valid P L            the file's bytes are a position of a game of P control states and L letters
//   unfit P L PLACE      they are not: question 14, at a place
//   in SET S BIT         whether state s is in a set, 1 or 0
use crate::accepted::{accepted, game_of, has_rules, has_targets};
use crate::command::{kind, operand};
use crate::refused::{cuts, every_byte, refused};
use crate::told::Told;
use game::{Game, has_state, position_form};
use script::{Cases, File, Script, byte_of, word_of};

// The bytes of the buffer.
const ROOM: usize = 4098;

// All words of a script. Each takes up at least one byte.
pub fn run(t: &mut Cases, script: Script<'_>) {
    let mut script = script;
    let mut file = File::new();
    for _ in 0..script.len() {
        let Some(word) = script.word() else {
            return;
        };
        t.line = script.line();
        one_word(t, word, &mut script, &mut file);
    }
}

// One word with its operands.
fn one_word(t: &mut Cases, word: u8, script: &mut Script<'_>, file: &mut File<ROOM>) {
    match word {
        b'f' => {
            file.set_len(0);
            file.list(script);
        }
        b'm' => file.list(script),
        b'p' => file.patch(script),
        b's' => stored_rules(t, script, game_of(file.as_slice())),
        b'w' => stored_targets(t, script, game_of(file.as_slice())),
        _ => with_numbers(t, word, script.numbers(), file),
    }
}

// Bytes with which the rules begin.
fn stored_rules(t: &mut Cases, script: &mut Script<'_>, game: Game) {
    let rules = game.rules;
    listed(t, script, 16, |i| {
        rules.get(i).copied().map_or(0, usize::from)
    });
}

// Words with which the target transitions begin.
fn stored_targets(t: &mut Cases, script: &mut Script<'_>, game: Game) {
    let targets = game.targets;
    listed(t, script, 10, |i| targets.get(i).map_or(0, |x| *x as usize));
}

// A case for each value of a list: what is stored begins with these.
fn listed<S: Fn(usize) -> usize + Drop>(t: &mut Cases, script: &mut Script<'_>, base: u8, stored: S)
    requires { S.IsAlwaysCallable stored }
{
    for i in 0..script.len() {
        let Some(expected) = script.value(base) else {
            return;
        };
        t.same(expected, stored(i));
    }
}

// A word with numbers.
fn with_numbers(t: &mut Cases, word: u8, numbers: [usize; 7], file: &mut File<ROOM>) {
    let [a, b, c, ..] = numbers;
    match word {
        b'l' => file.set_len(a),
        b'x' => file.repeat(a, byte_of(b)),
        b'd' => file.sample_d(a),
        b'h' => put_heads(file, 4, a, b, |p, l| [p, l, 0, 1, l, 0]),
        b'a' => put_heads(file, 5, a, b, |q, l| [q, l, byte_of(c), 0, 0, 0]),
        b'b' => every_byte(t, file, numbers),
        _ => one_case(t, word, numbers, file.as_slice()),
    }
}

// Puts a command with these operands for each of so many states and letters.
fn put_heads<O: Fn(u8, u8) -> [u8; 6] + Drop>(
    file: &mut File<ROOM>,
    code: u8,
    states: usize,
    letters: usize,
    operands: O,
)
    requires { O.IsAlwaysCallable operands }
{
    for p in 0..states {
        for a in 0..letters {
            file.command(code, operands(byte_of(p), byte_of(a)));
        }
    }
}

// A case, or an unknown word, which is a case that fails.
fn one_case(t: &mut Cases, word: u8, numbers: [usize; 7], file: &[u8]) {
    let [a, b, c, ..] = numbers;
    match word {
        b'n' => refused(t, file, byte_of(a), b),
        b'c' => cuts(t, file, a, b),
        b'g' => accepted(t, file, numbers),
        b'r' => t.yes(has_rules(game_of(file), file, a)),
        b't' => t.yes(has_targets(game_of(file), file, a)),
        b'k' => kind(t, file, a, b, c),
        b'o' => operand(t, file, a, b, c),
        b'v' => position(t, file, a, b, Told::Done),
        b'u' => position(t, file, a, b, Told::new(14, c)),
        b'i' => t.same(c, usize::from(has_state(word_of(a), byte_of(b)))),
        _ => t.yes(false),
    }
}

// One case: the bytes are a position of a game of so many control states and letters, or the place at which they are not.
fn position(t: &mut Cases, bytes: &[u8], control: usize, letters: usize, expected: Told) {
    let answer = position_form(byte_of(control), byte_of(letters), bytes);
    t.same(expected, Told::from(answer));
}
