// The game that a file describes, its limits and its makers.
ghost use Rattle.std.specs.Prelude.{◌≡◌, List, ℕ, ◌<◌, ◌*◌, length};
ghost use Rattle.game.specs.Limits.{max_rules, max_targets, rule_stride, target_stride, slot_words};
ghost use Rattle.game.specs.Game.{PushdownGame, empty_game};
ghost use Rattle.game.specs.Questions.{Room, add};
ghost use Rattle.game.specs.Stored.{stored, sizes_of, held_sizes, limits_are};
ghost use Rattle.game.specs.Parts.{Parts};
ghost use Rattle.game.specs.Marks.{Filtered};
ghost use Rattle.game.specs.declared.command.Command.TheVariants.{Rule as RuleIs, Target};

use crate::command::Command;
use crate::filter::mark;
use crate::rule::{RuleBytes, TargetWords};

// A game by value. Rules and target transitions are flat, one after the other in file order; what is not used is 0.
#[derive(Clone, Copy)]
pub struct Game {
    pub sizes: Sizes,
    // A rule is RULE_STRIDE bytes: from, top, to, number of letters written, the upper and the lower one.
    pub rules: [u8; Game::MAX_RULES * Game::RULE_STRIDE],
    // A target transition is TARGET_STRIDE words: state, letter, set.
    pub targets: [u32; Game::MAX_TARGETS * Game::TARGET_STRIDE],
}

// A game but for its rules and target transitions: what those above hand on beside the flat rules.
#[derive(Clone, Copy, Debug, PartialEq, Eq)]
pub struct Sizes {
    // P, S and L of document 01.
    pub control: u8,
    pub states: u8,
    pub letters: u8,
    // Abelard's control states and the final states, as sets: bit s for state s.
    pub abelard: u32,
    pub finals: u32,
    // How many rules and target transitions there are.
    pub rulecount: usize,
    pub targetcount: usize,
}

// The limits of document 01.
#[derive(Clone, Copy, Debug, PartialEq, Eq)]
pub struct Limits {
    pub file: usize,
    pub control: u8,
    pub states: u8,
    pub letters: u8,
    pub rules: usize,
    pub targets: usize,
    pub entries: usize,
    pub rounds: u32,
    pub stack: usize,
}

impl Game {
    pub const MAX_FILE: usize = 4096;

    pub const MAX_CONTROL: u8 = 24;

    pub const MAX_STATES: u8 = 32;

    pub const MAX_LETTERS: u8 = 64;

    pub const MAX_RULES: usize = 256;

    pub const MAX_TARGETS: usize = 256;

    pub const MAX_ENTRIES: usize = 2048;

    pub const MAX_ROUNDS: u32 = 40;

    pub const MAX_STACK: usize = 256;

    pub const RULE_STRIDE: usize = 6;

    pub const TARGET_STRIDE: usize = 3;

    // The filter of question 6: how many slots, and how many words of 64 bits.
    pub const SLOTS: usize = 16384;

    pub const SLOT_WORDS: usize = 256;

    // The game before any command.
    pub fn empty() -> Game
        ensures { result ≡ stored empty_game }
    {
        Game {
            sizes: Sizes::none(),
            rules: [0; Game::MAX_RULES * Game::RULE_STRIDE],
            targets: [0; Game::MAX_TARGETS * Game::TARGET_STRIDE],
        }
    }

    // What the game holds beside its rules and target transitions.
    pub fn sizes(self) -> Sizes
        ensures { result ≡ held_sizes self }
    {
        self.sizes
    }

    // The limits, for whoever reads the definitions: these are theirs.
    pub fn limits() -> Limits
        ensures { result ≡ limits_are }
    {
        Limits {
            file: Game::MAX_FILE,
            control: Game::MAX_CONTROL,
            states: Game::MAX_STATES,
            letters: Game::MAX_LETTERS,
            rules: Game::MAX_RULES,
            targets: Game::MAX_TARGETS,
            entries: Game::MAX_ENTRIES,
            rounds: Game::MAX_ROUNDS,
            stack: Game::MAX_STACK,
        }
    }
}

impl Sizes {
    // The sizes before any command.
    pub fn none() -> Sizes
        ensures { result ≡ sizes_of empty_game }
    {
        Sizes {
            control: 0,
            states: 0,
            letters: 0,
            abelard: 0,
            finals: 0,
            rulecount: 0,
            targetcount: 0,
        }
    }

    // The sizes with one command more; its rule or target transition is stored after the others, and marked in the filter.
    pub fn with(
        self,
        rules: &mut [u8],
        targets: &mut [u32],
        marks: &mut [u64],
        command: Command,
    ) -> Sizes
        requires { Room self.rulecount self.targetcount command × (length rules.old ≡ max_rules * rule_stride)
            × (length targets.old ≡ max_targets * target_stride) × (length marks.old ≡ slot_words) }
        ensures parts { (g : PushdownGame) → Parts g self rules.old targets.old
            → Parts (add g command) result rules.new targets.new }
        ensures filtered { (g : PushdownGame) → Filtered g marks.old → Filtered (add g command) marks.new }
    {
        let mut next = self;
        match command {
            Command::Sizes {
                control,
                states,
                letters,
            } => {
                next.control = control;
                next.states = states;
                next.letters = letters;
                next
            }
            Command::Abelard { state } => {
                next.abelard = self.abelard | (1u32 << state);
                next
            }
            Command::Final { state } => {
                next.finals = self.finals | (1u32 << state);
                next
            }
            Command::Rule(rule) => self.with_rule(rules, marks, rule),
            Command::Target(target) => self.with_target(targets, marks, target),
            Command::End => next,
        }
    }

    fn with_rule(self, rules: &mut [u8], marks: &mut [u64], rule: RuleBytes) -> Sizes
        requires { (self.rulecount < max_rules) × (length rules.old ≡ max_rules * rule_stride) × (length marks.old ≡ slot_words) }
        ensures parts { (g : PushdownGame) (targets : List ℕ) → Parts g self rules.old targets
            → Parts (add g (RuleIs rule)) result rules.new targets }
        ensures filtered { (g : PushdownGame) → Filtered g marks.old → Filtered (add g (RuleIs rule)) marks.new }
    {
        mark(marks, rule.slot());
        rule.store(rules, self.rulecount);
        let mut next = self;
        next.rulecount += 1;
        next
    }

    fn with_target(self, targets: &mut [u32], marks: &mut [u64], target: TargetWords) -> Sizes
        requires { (self.targetcount < max_targets) × (length targets.old ≡ max_targets * target_stride) × (length marks.old ≡ slot_words) }
        ensures parts { (g : PushdownGame) (rules : List ℕ) → Parts g self rules targets.old
            → Parts (add g (Target target)) result rules targets.new }
        ensures filtered { (g : PushdownGame) → Filtered g marks.old → Filtered (add g (Target target)) marks.new }
    {
        mark(marks, target.slot());
        target.store(targets, self.targetcount);
        let mut next = self;
        next.targetcount += 1;
        next
    }
}
