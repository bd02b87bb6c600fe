// The move on a session that is lent.
ghost use Rattle.std.specs.Prelude.{◌≡◌};
ghost use Rattle.session.specs.Session.{move, left};

use crate::moving::after_move;
use game::{Game, Refusal};

// A session: the control state, the stack with its bottom letter first, and how many of its cells are in use.
#[derive(Clone, Copy, Debug, PartialEq, Eq)]
pub struct Session {
    pub state: u8,
    pub stack: [u8; Game::MAX_STACK],
    pub height: usize,
}

// Plays the rule of a number in the session, for the game that a file describes. A refused move leaves the session
// untouched; after a move its cells from the height up are 0.
pub fn play(file: &[u8], s: &mut Session, rule: u32) -> Result<(), Refusal>
    ensures { left result s.new ≡ move file.now s.old rule }
{
    let after = after_move(file, *s, rule)?;
    let stack = after.stack;
    s.state = after.state;
    s.stack = stack;
    s.height = after.height;
    Ok(())
}
