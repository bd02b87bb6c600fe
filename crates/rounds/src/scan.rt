// The first rule of a head from a place on, and the highest state of a set.
ghost use Rattle.std.specs.Prelude.{◌*◌, ◌<◌, ◌≤◌, length, unwrap_or, IfSome};
ghost use Rattle.game.specs.Limits.{max_rules};
ghost use Rattle.rounds.specs.Scans.{NextRule, Highest};

use game::{Game, is_rule_of};

// The first place from `from` on, before `end`, of a rule of the head.
pub fn next_rule(rules: &[u8], end: usize, from: usize, state: u8, letter: u8) -> Option<usize>
    requires { (end * 6 ≤ length rules.now) × (from ≤ end) × (end ≤ max_rules) }
    ensures next { NextRule rules.now end from state letter (unwrap_or result end) }
    ensures within { IfSome result (λ r. r < end) }
{
    for r in from..end {
        if is_rule_of(rules, r * Game::RULE_STRIDE, state, letter) {
            return Some(r);
        }
    }
    None
}

// The highest state of a set that is not empty.
pub fn highest(set: u32) -> u8
    ensures { Highest set result }
{
    if set == 0 {
        return 0;
    }
    (31 - u32::leading_zeros(set)) as u8
}
