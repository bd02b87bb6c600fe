// Files built in a buffer.
use crate::numbers::byte_of;
use crate::words::Script;

// Bytes, and how many of them the file has. What does not fit the buffer is left out, and counts to the length all the same; the bytes
// beyond the length stay as they were.
#[derive(Clone, Copy)]
pub struct File<const N: usize> {
    bytes: [u8; N],
    length: usize,
}

impl<const N: usize> File<N> {
    pub fn new() -> File<N> {
        File {
            bytes: [0; N],
            length: 0,
        }
    }

    // The file; the whole buffer where its length is beyond it.
    pub fn as_slice(&self) -> &[u8] {
        self.front(self.length)
    }

    // The first n bytes of the buffer; all of them where there are fewer.
    pub fn front(&self, n: usize) -> &[u8] {
        self.bytes.get(..n).unwrap_or(&self.bytes)
    }

    pub fn len(&self) -> usize {
        self.length
    }

    pub fn set_len(&mut self, n: usize) {
        self.length = n;
    }

    // One byte in its place; the length stays.
    pub fn put(&mut self, at: usize, x: u8) {
        if let Some(byte) = self.bytes.get_mut(at) {
            *byte = x;
        }
    }

    // One byte more.
    pub fn push(&mut self, x: u8) {
        self.put(self.length, x);
        self.length = self.length.saturating_add(1);
    }

    // Bytes after the others.
    pub fn extend(&mut self, bytes: &[u8]) {
        for x in bytes {
            self.push(*x);
        }
    }

    // One byte n times.
    pub fn repeat(&mut self, n: usize, x: u8) {
        for _ in 0..n {
            self.push(x);
        }
    }

    // The bytes of a script's list, after the others.
    pub fn list(&mut self, script: &mut Script<'_>) {
        for _ in 0..script.len() {
            let Some(x) = script.value(16) else {
                return;
            };
            self.push(byte_of(x));
        }
    }

    // A script's offset and list of bytes, which are put there; the length stays.
    pub fn patch(&mut self, script: &mut Script<'_>) {
        let length = self.length;
        self.length = script.number().unwrap_or(0);
        self.list(script);
        self.length = length;
    }

    // A command 04 or 05 with its six bytes of operands.
    pub fn command(&mut self, code: u8, operands: [u8; 6]) {
        self.push(code);
        self.extend(&operands);
    }

    // A position: a control state, one letter n times, and the bottom.
    pub fn high(&mut self, state: u8, letter: u8, n: usize) {
        self.length = 0;
        self.push(state);
        self.repeat(n, letter);
        self.push(0);
    }

    // Sample D with n letters above the bottom: rule j takes letter j to [j + 1, j + 1], the last letter is popped.
    pub fn sample_d(&mut self, n: usize) {
        self.length = 0;
        self.extend(&[1, 1, 2, byte_of(n.saturating_add(1)), 3, 1]);
        self.command(4, [0, 0, 0, 1, 0, 0]);
        for j in 1..n {
            self.command(4, [0, byte_of(j), 0, 2, byte_of(j + 1), byte_of(j + 1)]);
        }
        self.command(4, [0, byte_of(n), 0, 0, 0, 0]);
        self.command(5, [0, 0, 2, 0, 0, 0]);
        self.push(255);
    }
}
