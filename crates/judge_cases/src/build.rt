// Tables built in a buffer, and rules in a file.
use script::{File, byte_of, front, word_of};
use table::EntryWords;

// The words of the buffer.
const ROOM: usize = 6150;

// Words, how many of them the table has, and the offset of its next entry. What does not fit the buffer is left out.
#[derive(Clone, Copy)]
pub struct Table {
    words: [u32; ROOM],
    length: usize,
    next: usize,
}

impl Table {
    pub fn new() -> Table {
        Table {
            words: [0; ROOM],
            length: 0,
            next: 0,
        }
    }

    pub fn as_slice(&self) -> &[u32] {
        front(&self.words, self.length)
    }

    // A new table of so many words, all 0.
    pub fn clear(&mut self, length: usize) {
        self.words.fill(0);
        self.length = length;
        self.next = 0;
    }

    // One word.
    pub fn put(&mut self, at: usize, x: u32) {
        if let Some(word) = self.words.get_mut(at) {
            *word = x;
        }
    }

    // The next entry: state, letter, set, birthdate and rule field.
    pub fn entry(
        &mut self,
        state: usize,
        letter: usize,
        set: usize,
        birthdate: usize,
        rule: usize,
    ) {
        for x in [
            first_word(state, letter, birthdate),
            word_of(set),
            word_of(rule),
        ] {
            self.put(self.next, x);
            self.next = self.next.saturating_add(1);
        }
    }

    // Unused entries. No script has so many that the place stays.
    pub fn skip(&mut self, n: usize) {
        if self.next <= 10000 && n <= 10000 {
            self.next += EntryWords::STRIDE * n;
        }
    }
}

// The first word of an entry; a number that is beyond 16 bits alone.
fn first_word(state: usize, letter: usize, birthdate: usize) -> u32 {
    if 65535 < state {
        return word_of(state);
    }
    if 65535 < letter {
        return word_of(letter);
    }
    if 65535 < birthdate {
        return word_of(birthdate);
    }
    word_of(state + 256 * letter + 65536 * birthdate)
}

// So many rules from state and letter to a state, each with two letters written: the pairs of `letters` letters from `first` on, in order.
pub fn put_pairs<const N: usize>(file: &mut File<N>, numbers: [usize; 7]) {
    let [state, letter, to, first, letters, count, _] = numbers;
    if letters == 0 {
        return;
    }
    for i in 0..count {
        let above = byte_of(first.saturating_add(i / letters));
        let below = byte_of(first.saturating_add(i % letters));
        file.command(
            4,
            [
                byte_of(state),
                byte_of(letter),
                byte_of(to),
                2,
                above,
                below,
            ],
        );
    }
}
