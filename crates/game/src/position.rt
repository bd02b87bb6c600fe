// The form of a position: question 14.
ghost use Rattle.std.specs.Prelude.{◌≡◌};
ghost use Rattle.game.specs.Outcome.{said};
ghost use Rattle.game.specs.Position.{form};

use crate::game::Game;
use crate::refusal::{Question, Refusal};

// Whether the bytes, a control state and a stack with its top letter first, are a position of a game of `control`
// control states and `letters` letters.
pub fn position_form(control: u8, letters: u8, bytes: &[u8]) -> Result<(), Refusal>
    ensures { said result ≡ form control letters bytes.now }
{
    if bytes.len() < 2 {
        return Err(Question::Position.at(0));
    }
    if Game::MAX_STACK + 1 < bytes.len() {
        return Err(Question::Position.at(0));
    }
    if control <= bytes[0] {
        return Err(Question::Position.at(0));
    }
    let last = bytes.len() - 1;
    for i in 1..last {
        let a = bytes[i];
        if a == 0 {
            return Err(Question::Position.at(i));
        }
        if letters <= a {
            return Err(Question::Position.at(i));
        }
    }
    if bytes[last] != 0 {
        return Err(Question::Position.at(last));
    }
    Ok(())
}
