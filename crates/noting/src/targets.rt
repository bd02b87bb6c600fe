// Round 0: the target's transitions, noted as entries and put into the families of their heads, which are marked.
ghost use Rattle.std.specs.Prelude.{IfSome, ◌≡◌, List, ℕ, ◌+◌, ◌*◌, ◌<◌, ◌≤◌, length, get_or};
ghost use Rattle.game.specs.Game.{PushdownGame};
ghost use Rattle.game.specs.GoodGame.{Good};
ghost use Rattle.unions.specs.ElementsOf.{ElementsOf, HeldTargets};
ghost use Rattle.unions.specs.Pool.{Layout};
ghost use Rattle.noting.specs.Taking.{counted};
ghost use Rattle.noting.specs.RoundZero.{Bare, Starts};

use crate::signs::mark;
use family::put_at;
use game::{Game, Sizes};
use unions::{element_set, put_entry};

// How many entries round 0 has, if they fit. A head or a set that no game has ends it too.
pub fn note_targets(
    targets: &[u32],
    targetcount: usize,
    numbers: &[usize],
    letters: usize,
    heads: usize,
    n: usize,
    all: &mut [u64],
    new: &mut [u64],
    log: &mut [u32],
    size: usize,
    news: &mut [u64],
) -> Option<usize>
    requires { (size * 3 ≤ length log.old) × (size ≤ 2048) × (targetcount ≤ 256) × (targetcount * 3 ≤ length targets.now) × (length numbers.now ≡ 32)
        × ((q : ℕ) → q < 32 → get_or numbers.now q 0 < 1024) × (heads ≤ 2048) × (n ≤ 16) × (heads * n ≤ length all.old) × (length new.old ≡ length all.old)
        × (letters ≤ 64) × (length news.old ≡ 32) }
    ensures starts { (g : PushdownGame) (el : List ℕ) (count : ℕ) (states : List ℕ) (sizes : Sizes) (rules : List ℕ) → HeldTargets g sizes rules targets.now → Good g
        → ElementsOf g el count states numbers.now → Layout el g n → letters ≡ g.letters → heads ≡ g.states * g.letters → targetcount ≡ length g.targets
        → Bare g n all.old → Bare g n new.old
        → Starts el g n size log.new all.new new.new news.new (counted size result) }
    ensures upper_bound { IfSome result (λ k. k ≤ size) }
{
    if size < targetcount {
        return None;
    }
    for t in 0..targetcount {
        let at = t * Game::TARGET_STRIDE;
        let head = head_at(targets[at], targets[at + 1], letters, heads);
        if heads <= head {
            return None;
        }
        let x = element_set(numbers, targets[at + 2]);
        if n <= x / 64 {
            return None;
        }
        put_at(all, head * n, x);
        put_at(new, head * n, x);
        mark(news, targets[at] as usize, targets[at + 1] as usize);
        put_entry(log, t * 3, targets[at] + 256 * targets[at + 1], x as u32, 0);
    }
    Some(targetcount)
}

// The number of a head, or that of all heads where there is no such head.
fn head_at(state: u32, letter: u32, letters: usize, heads: usize) -> usize
    requires { letters ≤ 64 }
    ensures value { state < 32 → letter < 64 → state * letters + letter < heads → result ≡ state * letters + letter }
    ensures state_bound { result < heads → (state < 32) × (letter < 64) }
{
    if 32 <= state {
        return heads;
    }
    if 64 <= letter {
        return heads;
    }
    state as usize * letters + letter as usize
}
