// A script is words with operands. Each word is told by its first letter. `#` starts a comment, to the end of its line.
// Numbers are decimal; bytes are two hexadecimal digits, in upper case.
//
// Words that build a file, in a buffer of 4,098 bytes:
//   file BYTES           a new file
//   more BYTES           bytes after it
//   put AT BYTES         bytes in it from an offset on; its length stays
//   length N             its length
//   x N BYTE             a byte, as a decimal number, N times after it
//   d N                  a new file: sample D with N letters above the bottom
//   rules P A Q B N K    K rules after it, (P,A) to state Q with two letters written: the pairs of N letters from B on, in order
//
// Words that build a table, in a buffer of 6,150 words:
//   table N              a new table: N words, all 0; its next entry is entry 0
//   entry Q A SET B R    its next entry: state, letter, set, birthdate, rule field
//   sets Q A SET B R N   its N next entries, with sets from SET on
//   unused N             its N next entries stay unused
//   word AT N            a word of it
//
// Words that build a position, in a buffer of 300 bytes:
//   at BYTES             a new position
//   high P A N           a new position: control state, N times a letter, and the bottom
//
// Words that are cases, each of one judgement:
//   verdict lost FIELD (0 if left out), verdict target, verdict eloise RULE BOUND, verdict abelard BOUND
//   no QUESTION PLACE    it is refused so
use crate::build::{Table, put_pairs};
use crate::told::{Kind, Told};
use judge::judge;
use script::{Cases, File, Script, byte_of, word_of};

// What is judged, in its buffers.
#[derive(Drop)]
struct State {
    file: File<4098>,
    table: Table,
    position: File<300>,
}

// All words of a script. Each takes up at least one byte.
pub fn run(t: &mut Cases, script: Script<'_>) {
    let mut script = script;
    let mut s = State {
        file: File::new(),
        table: Table::new(),
        position: File::new(),
    };
    for _ in 0..script.len() {
        let Some(word) = script.word() else {
            return;
        };
        t.line = script.line();
        one_word(t, word, &mut script, &mut s);
    }
}

// One word with its operands.
fn one_word(t: &mut Cases, word: u8, script: &mut Script<'_>, s: &mut State) {
    match word {
        b'f' => {
            s.file.set_len(0);
            s.file.list(script);
        }
        b'm' => s.file.list(script),
        b'p' => s.file.patch(script),
        b'a' => {
            s.position.set_len(0);
            s.position.list(script);
        }
        b'n' => one_case(t, Some(Kind::Refused), script.numbers(), s),
        b'v' => {
            let kind = script.word().and_then(Kind::of_letter);
            one_case(t, kind, script.numbers(), s);
        }
        _ => with_numbers(t, word, script.numbers(), s),
    }
}

// A word that builds, or an unknown one, which is a case that fails.
fn with_numbers(t: &mut Cases, word: u8, numbers: [usize; 7], s: &mut State) {
    let [a, b, c, d, e, f, _] = numbers;
    match word {
        b'l' => s.file.set_len(a),
        b'x' => s.file.repeat(a, byte_of(b)),
        b'd' => s.file.sample_d(a),
        b'r' => put_pairs(&mut s.file, numbers),
        b't' => s.table.clear(a),
        b'e' => s.table.entry(a, b, c, d, e),
        b's' => {
            for i in 0..f {
                s.table.entry(a, b, c.saturating_add(i), d, e);
            }
        }
        b'u' => s.table.skip(a),
        b'w' => s.table.put(a, word_of(b)),
        b'h' => s.position.high(byte_of(a), byte_of(b), c),
        _ => one_case(t, None, numbers, s),
    }
}

// One judgement, of this kind and with these numbers; a word that names no kind is a case that fails.
fn one_case(t: &mut Cases, kind: Option<Kind>, numbers: [usize; 7], s: &State) {
    let Some(kind) = kind else {
        t.check(false, "a known word");
        return;
    };
    let [first, second, ..] = numbers;
    let judged = judge(s.file.as_slice(), s.table.as_slice(), s.position.as_slice());
    t.same(
        Told::new(kind, first as u64, second as u64),
        Told::from(judged),
    );
}
