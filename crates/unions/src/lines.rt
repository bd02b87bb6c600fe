// The families of the unions over a set and a letter: that of a head, where the set has one element, or a line. Lines are found by a
// hint, which may be wrong, and made where they are missing, one element after another, the highest first. Where there is no room
// for more, all lines are given up.
ghost use Rattle.std.specs.Prelude.{◌≡◌, true, List, ℕ, suc, ◌+◌, ◌*◌, ◌%◌, ◌<◌, ◌≤◌, length, get_or};
ghost use Rattle.game.specs.LowestLaws.{LowestOf};
ghost use Rattle.game.specs.Game.{PushdownGame};
ghost use Rattle.table.specs.Table.{Entry};
ghost use Rattle.family.specs.Masks.{Raising};
ghost use Rattle.unions.specs.Pool.{Fits, key_for};
ghost use Rattle.unions.specs.PoolLaws.{Passing};
ghost use Rattle.unions.specs.Finding.{Renewable, Renewing};
ghost use Rattle.unions.specs.Finding.{Finds, Finding, Top, Kept};

use crate::families::Frame;
use crate::pairs::unite_pair;
use family::{clear_at, copy_at, take_in, unite_into};

// The number of a family, and how many lines there are.
#[derive(Clone, Copy)]
pub struct Found {
    pub family: usize,
    pub count: usize,
}

// The family of the unions over set x of elements on letter c.
pub fn family_of(
    x: usize,
    c: usize,
    frame: &Frame,
    all: &mut [u64],
    count: usize,
    keys: &mut [u32],
    rests: &mut [u32],
    hints: &mut [u32],
) -> Found
    requires { Fits frame.now.letters frame.now.heads frame.now.n frame.now.states all.old keys.old rests.old hints.old × (0 < x) × (x < 1024) × (c < frame.now.letters)
        × (count ≤ length keys.old) }
    ensures finds { Finds frame.now.letters frame.now.heads frame.now.n x c frame.now.states frame.now.raising.now all.old keys.old rests.old count
        all.new keys.new rests.new result.family result.count }
    ensures family_bound { (result.family < frame.now.heads + result.count) × (result.count ≤ length keys.old) }
{
    if (x & (x - 1)) == 0 {
        let family = head_of(&frame.states, lowest(x), frame.letters, c);
        return Found { family, count };
    }
    let line = hint_at(hints, frame.n, x, c);
    if is_line(keys, count, line, x, c) {
        return Found {
            family: frame.heads + line,
            count,
        };
    }
    make_lines(x, c, frame, all, count, keys, rests, hints)
}

// The family of the head of an element and a letter.
fn head_of(states: &[u8], i: usize, letters: usize, c: usize) -> usize
    requires { (length states.now ≡ 16) × (i < 16) × (letters ≤ 64) × (c < letters) }
    ensures { result ≡ get_or states.now i 0 * letters + c }
{
    usize::from(states[i]) * letters + c
}

// The lowest element of a set.
fn lowest(x: usize) -> usize
    requires { (0 < x) × (x < 1024) }
    ensures { LowestOf 10 x result }
{
    u64::trailing_zeros(x as u64) as usize
}

// The highest element of a set.
fn highest(x: usize) -> usize
    requires { (0 < x) × (x < 1024) }
    ensures { Top x result }
{
    63 - (u64::leading_zeros(x as u64) as usize)
}

// Where the line of a set and a letter may be.
fn hint_at(hints: &[u32], n: usize, x: usize, c: usize) -> usize
    requires { (0 < length hints.now) × (n ≤ 16) × (x < 1024) × (c < 64) }
{
    hints[place_of(hints.len(), n, x, c)] as usize
}

// Letter by letter the place of each set of a family of n words, as far as there are places; then from the first on again.
fn place_of(size: usize, n: usize, x: usize, c: usize) -> usize
    requires { (0 < size) × (n ≤ 16) × (x < 1024) × (c < 64) }
    ensures { result < size }
{
    let place = c * n * 64 + x;
    if place < size {
        return place;
    }
    place % size
}

// A line is that of a set and a letter.
fn is_line(keys: &[u32], count: usize, line: usize, x: usize, c: usize) -> bool
    requires { (count ≤ length keys.now) × (x < 1024) × (c < 64) }
    ensures { result ≡ true → (line < count) × (get_or keys.now line 0 ≡ key_for x c) }
{
    if count <= line {
        return false;
    }
    keys[line] == key_of(x, c)
}

fn key_of(x: usize, c: usize) -> u32
    requires { (x < 1024) × (c < 64) }
    ensures { result ≡ key_for x c }
{
    (x + 1024 * c) as u32
}

// The lines of a set, one element after another, the highest first.
fn make_lines(
    x: usize,
    c: usize,
    frame: &Frame,
    all: &mut [u64],
    count: usize,
    keys: &mut [u32],
    rests: &mut [u32],
    hints: &mut [u32],
) -> Found
    requires { Fits frame.now.letters frame.now.heads frame.now.n frame.now.states all.old keys.old rests.old hints.old × (0 < x) × (x < 1024) × (c < frame.now.letters)
        × (count ≤ length keys.old) }
    ensures finds { Finds frame.now.letters frame.now.heads frame.now.n x c frame.now.states frame.now.raising.now all.old keys.old rests.old count
        all.new keys.new rests.new result.family result.count }
    ensures family_bound { (result.family < frame.now.heads + result.count) × (result.count ≤ length keys.old) }
{
    let top = highest(x);
    let mut rest = x % (1usize << top);
    let mut found = Found {
        family: head_of(&frame.states, top, frame.letters, c),
        count: room_after(count, keys.len()),
    };
    while rest != 0 {
        let s = highest(rest);
        rest = rest % (1usize << s);
        found = line_for(x - rest, s, c, frame, all, found, keys, rests, hints);
    }
    found
}

// How many lines are kept: none, where there is no room for ten more.
fn room_after(count: usize, room: usize) -> usize
    requires { count ≤ room }
    ensures { Kept count room result }
{
    if room - count < 10 {
        return 0;
    }
    count
}

// The line of set y, which has element s below those of the set of the family found last.
fn line_for(
    y: usize,
    s: usize,
    c: usize,
    frame: &Frame,
    all: &mut [u64],
    before: Found,
    keys: &mut [u32],
    rests: &mut [u32],
    hints: &mut [u32],
) -> Found
    requires { Fits frame.now.letters frame.now.heads frame.now.n frame.now.states all.old keys.old rests.old hints.old × (y < 1024) × (s < 10) × (c < frame.now.letters)
        × (before.count < length keys.old) × (before.family < frame.now.heads + before.count) }
    ensures finding { Finding frame.now.letters frame.now.heads frame.now.n y s c frame.now.states frame.now.raising.now all.old keys.old rests.old before.family before.count
        all.new keys.new rests.new result.family result.count }
    ensures family_bound { (result.family < frame.now.heads + result.count) × (result.count ≤ before.count + 1) }
{
    let line = hint_at(hints, frame.n, y, c);
    let count = before.count;
    if is_line(keys, count, line, y, c) {
        return Found {
            family: frame.heads + line,
            count,
        };
    }
    let family = before.family;
    let mut unions = [0u64; 16];
    unite_pair(
        &mut unions,
        all,
        family * frame.n,
        head_of(&frame.states, s, frame.letters, c) * frame.n,
        frame.raising,
        frame.n,
    );
    copy_at(all, (frame.heads + count) * frame.n, &unions, 0, frame.n);
    keys[count] = key_of(y, c);
    rests[count] = family as u32;
    let place = place_of(hints.len(), frame.n, y, c);
    hints[place] = count as u32;
    Found {
        family: frame.heads + count,
        count: count + 1,
    }
}

// Brings every line up to a table: what is new in the heads, with anything. `fresh` has for each letter the elements with a new
// transition. What each line has more is left in `new`.
#[inline(always)]
pub fn renew_lines(
    frame: &Frame,
    all: &mut [u64],
    new: &mut [u64],
    count: usize,
    keys: &[u32],
    rests: &[u32],
    fresh: &[usize],
)
    requires { Renewable frame.now.letters frame.now.heads frame.now.n frame.now.states all.old new.old keys.now rests.now fresh.now × (count ≤ length keys.now) }
    ensures by_index { (el : List ℕ) (g : PushdownGame) (old es : List Entry) → Raising frame.now.raising.now → frame.now.letters ≡ g.letters
        → Renewing el g frame.now.n frame.now.heads frame.now.states old es fresh.now keys.now rests.now count
        → Passing el g frame.now.n frame.now.heads keys.now old es all.old new.old 0 count
        → Passing el g frame.now.n frame.now.heads keys.now old es all.new new.new count count }
{
    for k in 0..count {
        renew_line(k, frame, all, new, keys, rests, fresh);
    }
}

// The same for one line. The tests of letter and rest never fail.
#[inline(always)]
fn renew_line(
    k: usize,
    frame: &Frame,
    all: &mut [u64],
    new: &mut [u64],
    keys: &[u32],
    rests: &[u32],
    fresh: &[usize],
)
    requires { Renewable frame.now.letters frame.now.heads frame.now.n frame.now.states all.old new.old keys.now rests.now fresh.now × (k < length keys.now) }
    ensures by_index { (el : List ℕ) (g : PushdownGame) (old es : List Entry) (count : ℕ) → Raising frame.now.raising.now → frame.now.letters ≡ g.letters → k < count
        → Renewing el g frame.now.n frame.now.heads frame.now.states old es fresh.now keys.now rests.now count
        → Passing el g frame.now.n frame.now.heads keys.now old es all.old new.old k count
        → Passing el g frame.now.n frame.now.heads keys.now old es all.new new.new (suc k) count }
{
    let key = keys[k] as usize;
    let x = key % 1024;
    let c = key / 1024;
    let rest = rests[k] as usize;
    let to = (frame.heads + k) * frame.n;
    if frame.letters <= c {
        return;
    }
    if frame.heads + k <= rest {
        return;
    }
    if (x & fresh[c]) == 0 {
        clear_at(new, to, frame.n);
        return;
    }
    let head = head_of(&frame.states, lowest(x), frame.letters, c);
    let mut more = [0u64; 16];
    unite_into(
        &mut more,
        all,
        rest * frame.n,
        new,
        head * frame.n,
        frame.raising,
        frame.n,
    );
    unite_into(
        &mut more,
        all,
        head * frame.n,
        new,
        rest * frame.n,
        frame.raising,
        frame.n,
    );
    take_in(all, new, to, &more, frame.n);
}
