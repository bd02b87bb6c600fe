// What the families of a game are over.
ghost use Rattle.std.specs.Prelude.{◌≡◌, ℕ, ◌+◌, ◌*◌, ◌<◌, ◌≤◌, length, get_or};

// How many letters and heads there are and how many words a family has, the states of the elements, and the table of masks, of whose
// words nothing is asked.
#[derive(Drop)]
pub struct Frame<'a> {
    pub letters: usize,
    pub heads: usize,
    pub n: usize,
    pub states: [u8; 16],
    pub raising: &'a [u64],
    ghost long: { length states ≡ 16 },
    ghost masks: { 512 ≤ length raising.now },
    ghost few: { letters ≤ 64 },
    ghost most: { heads ≤ 2048 },
    ghost words: { n ≤ 16 },
    ghost rows: { (i : ℕ) → i < 16 → get_or states i 0 * letters + letters ≤ heads },
}
