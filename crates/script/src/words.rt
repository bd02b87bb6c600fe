// The text of a script: its words, and the values after them. `#` starts a comment, to the end of its line.

// What is left of a script, and the number of the line, from 1, that it begins on.
#[derive(Clone, Copy, Debug)]
pub struct Script<'a> {
    rest: &'a [u8],
    line: usize,
}

impl<'a> Script<'a> {
    // A value above this number takes no further digit.
    const LARGEST: usize = 100000000000000000;

    pub fn new(text: &'a [u8]) -> Script<'a> {
        Script {
            rest: text,
            line: 1,
        }
    }

    pub fn line(&self) -> usize {
        self.line
    }

    // The bytes that are left, comments with them.
    pub fn len(&self) -> usize {
        self.rest.len()
    }

    // The first letter of the next word, if there is one. The script goes on after the word.
    pub fn word(&mut self) -> Option<u8> {
        self.skip_blanks();
        let first = self.rest.first().copied();
        self.skip(self.rest.iter().take_while(|c| b' ' < **c).count());
        first
    }

    // The value of base 10 or 16, with upper-case digits, that stands next, if a digit does.
    pub fn value(&mut self, base: u8) -> Option<usize> {
        self.skip_blanks();
        let mut value = None;
        for digit in self.rest.iter().map_while(|c| digit_of(*c, base)) {
            self.skip(1);
            value = Some(match value {
                None => usize::from(digit),
                Some(x) if Script::LARGEST < x => x,
                Some(x) => usize::from(digit).saturating_add(x.saturating_mul(usize::from(base))),
            });
        }
        value
    }

    // The decimal number that stands next, if a digit does.
    pub fn number(&mut self) -> Option<usize> {
        self.value(10)
    }

    // Up to seven numbers that stand next, 0 where there are fewer.
    pub fn numbers(&mut self) -> [usize; 7] {
        let mut numbers = [0; 7];
        for n in numbers.iter_mut() {
            *n = self.number().unwrap_or(0);
        }
        numbers
    }

    // Goes on to the first byte that is neither blank nor in a comment; to the script's end where none is.
    fn skip_blanks(&mut self) {
        let mut comment = false;
        for c in self.rest {
            match c {
                b'#' => comment = true,
                b'\n' => {
                    comment = false;
                    self.line = self.line.saturating_add(1);
                }
                _ => {}
            }
            if !comment && b' ' < *c {
                return;
            }
            self.skip(1);
        }
    }

    fn skip(&mut self, n: usize) {
        self.rest = self.rest.get(n..).unwrap_or(&[]);
    }
}

// The value of an upper-case digit, if it is one of the base.
fn digit_of(c: u8, base: u8) -> Option<u8> {
    let digit = match c {
        b'0'..=b'9' => c - b'0',
        b'A'..=b'F' => c - b'A' + 10,
        _ => return None,
    };
    if digit < base { Some(digit) } else { None }
}
