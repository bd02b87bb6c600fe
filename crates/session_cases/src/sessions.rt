// Sessions made for the cases, and how they are printed.
use game::Game;
use script::front;
use session::Session;
use std::fmt;

// A session with these lowest letters, bottom letter first, and every other cell `fill`.
pub fn of(state: u8, height: usize, low: [u8; 4], fill: u8) -> Session {
    let mut stack = [fill; Game::MAX_STACK];
    stack[..4].copy_from_slice(&low);
    Session {
        state,
        stack,
        height,
    }
}

// A session with the bottom letter in its lowest cell and one letter in every other.
pub fn tall(state: u8, height: usize, letter: u8) -> Session {
    let mut stack = [letter; Game::MAX_STACK];
    stack[0] = 0;
    Session {
        state,
        stack,
        height,
    }
}

// The same with zeros from the height up.
pub fn filled(state: u8, height: usize, letter: u8) -> Session {
    let mut stack = [0; Game::MAX_STACK];
    for cell in stack.iter_mut().take(height).skip(1) {
        *cell = letter;
    }
    Session {
        state,
        stack,
        height,
    }
}

// The session with another letter in one cell; as it is, where there is no such cell.
pub fn with(s: Session, cell: usize, letter: u8) -> Session {
    let mut stack = s.stack;
    if let Some(x) = stack.get_mut(cell) {
        *x = letter;
    }
    Session { stack, ..s }
}

// The state and the letters below the height, top letter first; of a tall stack, or one that cannot be, only the height.
#[derive(Clone, Copy)]
pub struct Shown(pub Session);

impl fmt::Display for Shown {
    fn fmt<W: fmt::Write>(&self, f: &mut fmt::Formatter<W>) -> fmt::Result {
        let Session { state, height, .. } = self.0;
        if 8 < height {
            return write!(f, "{state} height {height}");
        }
        write!(f, "{state} [")?;
        for (i, letter) in front(&self.0.stack, height).iter().rev().enumerate() {
            if 0 < i {
                f.write_str(" ")?;
            }
            write!(f, "{letter}")?;
        }
        f.write_str("]")
    }
}
