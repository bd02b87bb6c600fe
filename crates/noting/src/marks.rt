// Marks of what is new since the last round.
ghost use Rattle.std.specs.Prelude.{◌≡◌, ℕ, ◌<◌, length, get_or};

// For each letter the elements with a new transition, and those with any; for each state the letters whose heads have new transitions; and
// the rules whose first head had a transition.
#[derive(Drop)]
pub struct Marks {
    pub fresh: [usize; 64],
    pub alive: [usize; 64],
    pub news: [u64; 32],
    pub held: [u64; 4],
    ghost freshes: { length fresh ≡ 64 },
    ghost alives: { length alive ≡ 64 },
    ghost tidings: { length news ≡ 32 },
    ghost holding: { length held ≡ 4 },
    ghost few: { (c : ℕ) → c < 64 → get_or alive c 0 < 1024 },
}
