// The bytes of a session.
ghost use Rattle.std.specs.Prelude.{◌≡◌, length};
ghost use Rattle.pushdown.specs.Interface.{session_at, bytes_of};

use game::Game;
use session::Session;

// The session that 259 bytes are.
pub fn session_of(bytes: &[u8]) -> Session
    requires { length bytes.now ≡ 259 }
    ensures { result ≡ session_at bytes.now }
{
    let mut stack = [0; Game::MAX_STACK];
    stack.copy_from_slice(&bytes[3..]);
    Session {
        state: bytes[0],
        stack,
        height: (bytes[1] as usize) + 256 * (bytes[2] as usize),
    }
}

// Writes a session's bytes.
pub fn store(bytes: &mut [u8], session: Session)
    requires { length bytes.old ≡ 259 }
    ensures { bytes.new ≡ bytes_of session }
{
    bytes[0] = session.state;
    bytes[1] = (session.height % 256) as u8;
    bytes[2] = (session.height / 256 % 256) as u8;
    bytes[3..].copy_from_slice(&session.stack);
}
