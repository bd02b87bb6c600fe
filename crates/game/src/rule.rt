// Rules and target transitions as a file states them, and as a game holds them: one after the other in flat areas.
ghost use Rattle.std.specs.Prelude.{◌≡◌, List, [], ◌∷◌, ◌++◌, ◌<◌, ◌≤◌, ◌+◌, ◌*◌, length};
ghost use Rattle.game.specs.Limits.{max_rules, max_targets, rule_stride, target_stride, slots};
ghost use Rattle.game.specs.Game.{Rule, Transition};
ghost use Rattle.game.specs.Parts.{rule_area, target_area};
ghost use Rattle.game.specs.Marks.{slot_of, rule_word};
ghost use Rattle.game.specs.Stated.{stated, stated_target, rule_held};

use crate::filter::slot_of;
use crate::game::Game;

// A rule: the head, the state that it leads to, the number of letters written, the upper and the lower one.
#[derive(Clone, Copy, Debug, PartialEq, Eq)]
pub struct RuleBytes {
    pub from: u8,
    pub top: u8,
    pub to: u8,
    pub count: u8,
    pub above: u8,
    pub below: u8,
}

impl RuleBytes {
    // The rule of a number.
    pub fn at(rules: &[u8], number: usize) -> RuleBytes
        requires { (number + 1) * rule_stride ≤ length rules.now }
        ensures { result ≡ rule_held rules.now number }
    {
        let at = number * Game::RULE_STRIDE;
        RuleBytes {
            from: rules[at],
            top: rules[at + 1],
            to: rules[at + 2],
            count: rules[at + 3],
            above: rules[at + 4],
            below: rules[at + 5],
        }
    }

    // Stored as the rule of a number.
    pub fn store(self, rules: &mut [u8], number: usize)
        requires { (number < max_rules) × (length rules.old ≡ max_rules * rule_stride) }
        ensures { (rs : List Rule) → number ≡ length rs → rules.old ≡ rule_area rs
            → rules.new ≡ rule_area (rs ++ (stated number self ∷ [])) }
    {
        let at = number * Game::RULE_STRIDE;
        rules[at] = self.from;
        rules[at + 1] = self.top;
        rules[at + 2] = self.to;
        rules[at + 3] = self.count;
        rules[at + 4] = self.above;
        rules[at + 5] = self.below;
    }

    // Its slot in the filter of question 6.
    pub fn slot(self) -> usize
        ensures { (result ≡ slot_of self.from self.top (rule_word self.to self.count self.above self.below)) × (result < slots) }
    {
        slot_of(self.from, self.top, self.word())
    }

    // What a rule has beside its head, as a word.
    #[tactic(auto, unfolding(crate::specs::Marks::rule_word))]
    fn word(self) -> u32
        ensures { result ≡ rule_word self.to self.count self.above self.below }
    {
        (((self.to as u32) * 4 + (self.count as u32)) * 64 + (self.above as u32)) * 64
            + (self.below as u32)
    }
}

// A target transition.
#[derive(Clone, Copy, Debug, PartialEq, Eq)]
pub struct TargetWords {
    pub state: u8,
    pub letter: u8,
    pub set: u32,
}

impl TargetWords {
    // Stored as the target transition of a place.
    pub fn store(self, targets: &mut [u32], place: usize)
        requires { (place < max_targets) × (length targets.old ≡ max_targets * target_stride) }
        ensures { (ts : List Transition) → place ≡ length ts → targets.old ≡ target_area ts
            → targets.new ≡ target_area (ts ++ (stated_target self ∷ [])) }
    {
        let at = place * Game::TARGET_STRIDE;
        targets[at] = self.state as u32;
        targets[at + 1] = self.letter as u32;
        targets[at + 2] = self.set;
    }

    // Its slot in the filter of question 6.
    pub fn slot(self) -> usize
        ensures { (result ≡ slot_of self.state self.letter self.set) × (result < slots) }
    {
        slot_of(self.state, self.letter, self.set)
    }
}
