// A memo of sub-enumerations that are finished in a round: lines of three words, overwritten where two keys meet. Where
// a key's line is, is nobody's concern but this file's: a lookup that says yes has found the key in some line.
ghost use Rattle.std.specs.Prelude.{◌≡◌, ◌⊎◌, true, ℕ, ◌<◌};
ghost use Rattle.enumeration.specs.Memo.{line_at};

// How many lines it has, and how many words a line has.
pub const LINES: usize = 8192;

pub const LINE: usize = 3;

// Whether the key stands in its line.
pub fn is_finished(memo: &[u32], tag: u32, left: u32, union: u32) -> bool
    ensures { result ≡ true → (k : ℕ) × (line_at memo.now k ≡ record { tag = tag; left = left; union = union }) }
{
    let line = line_of(memo.len() / LINE, tag, left, union);
    if memo.len() / LINE <= line {
        return false;
    }
    let at = line * LINE;
    if memo[at] != tag {
        return false;
    }
    if memo[at + 1] != left {
        return false;
    }
    memo[at + 2] == union
}

// Writes the key into its line.
pub fn finish(memo: &mut [u32], tag: u32, left: u32, union: u32)
    ensures { (k : ℕ) → (line_at memo.new k ≡ record { tag = tag; left = left; union = union })
        ⊎ (line_at memo.new k ≡ line_at memo.old k) }
{
    let line = line_of(memo.len() / LINE, tag, left, union);
    if memo.len() / LINE <= line {
        return;
    }
    let at = line * LINE;
    memo[at] = tag;
    memo[at + 1] = left;
    memo[at + 2] = union;
}

// The line of a key among so many.
fn line_of(lines: usize, tag: u32, left: u32, union: u32) -> usize {
    let mixed = (tag as u64) * 2654435769 + (left as u64) * 374761393 + (union as u64) * 668265263;
    let line = ((mixed / 65536) % 16384) as usize;
    if 16384 <= lines {
        return line;
    }
    scaled(line, lines)
}

// One of 16,384 lines among fewer, in their order.
fn scaled(line: usize, lines: usize) -> usize
    requires { (line < 16384) × (lines < 16384) }
{
    line * lines / 16384
}
