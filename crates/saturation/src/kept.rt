// What rounds read, and what is kept from round to round.
ghost use Rattle.std.specs.Prelude.{◌≡◌, ℕ, ◌+◌, ◌*◌, ◌<◌, ◌≤◌, length, get_or};
ghost use Rattle.unions.specs.Ending.{RuleFits};
ghost use Rattle.saturation.specs.RuleLinks.{Climbs};

use game::Sizes;
use unions::Frame;

// Each state's number as a set of elements, a game's rules as bytes, the first rule of each head and the next of each rule, and the rules
// by what they read.
#[derive(Drop)]
pub struct Rules<'a, 'b> {
    pub frame: Frame<'b>,
    pub numbers: [usize; 32],
    pub sizes: Sizes,
    pub bytes: &'a [u8],
    pub firsts: &'a [usize],
    pub nexts: &'a [usize],
    pub readers: &'a [u64],
    ghost wide: { length numbers ≡ 32 },
    ghost small: { (q : ℕ) → q < 32 → get_or numbers q 0 < 1024 },
    ghost lettered: { sizes.letters ≡ frame.letters },
    ghost ruled: { (r : ℕ) → r < sizes.rulecount → RuleFits bytes.now frame.letters frame.heads r },
    ghost headed: { (r : ℕ) → r < sizes.rulecount → get_or bytes.now (r * 6) 0 * frame.letters + get_or bytes.now (r * 6 + 1) 0 < frame.heads },
    ghost owned: { (r : ℕ) → r < sizes.rulecount → (get_or bytes.now (r * 6) 0 < 32) × (get_or bytes.now (r * 6 + 1) 0 < 64) },
    ghost some: { sizes.rulecount ≤ 256 },
    ghost controls: { sizes.control ≤ 24 },
    ghost lower: { sizes.control ≤ sizes.states },
    ghost states_few: { sizes.states ≤ 32 },
    ghost rows: { sizes.control * frame.letters ≤ frame.heads },
    ghost all_rows: { sizes.states * frame.letters ≤ frame.heads },
    ghost first: { sizes.control * frame.letters ≤ length firsts.now },
    ghost chained: { 256 ≤ length nexts.now },
    ghost climbs: { Climbs nexts.now sizes.rulecount },
    ghost reading: { length readers.now ≡ 644 },
}

// How many lines there are, and of each state the letters whose heads were given something in the round, and those whose heads have a
// rule with more ends.
#[derive(Drop)]
pub struct Kept {
    pub lines: usize,
    pub gains: [u64; 32],
    pub stirred: [u64; 32],
    ghost gaining: { length gains ≡ 32 },
    ghost stirring: { length stirred ≡ 32 },
}
