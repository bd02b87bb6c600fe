// The rules of each head one after another: the first rule of each head, by the head's number, and for each rule the next of its head.
ghost use Rattle.std.specs.Prelude.{◌≡◌, ℕ, ◌+◌, ◌*◌, ◌<◌, ◌≤◌, length};
ghost use Rattle.saturation.specs.RuleLinks.{Linked, LinkedFrom, Climbs};

use game::Game;
use rounds::next_rule;

// One number for each head of a control state, and one for each rule; `count` where there is no rule more.
pub fn link(
    rules: &[u8],
    count: usize,
    letters: usize,
    control: usize,
    firsts: &mut [usize],
    nexts: &mut [usize],
)
    requires { (count * 6 ≤ length rules.now) × (count ≤ 256) × (letters ≤ 64) × (control ≤ 24) × (control * letters ≤ length firsts.old) × (256 ≤ length nexts.old) }
    ensures linked { Linked rules.now count letters control firsts.new nexts.new }
    ensures climbs { Climbs nexts.new count }
{
    firsts.fill(count);
    for r in (0..count).rev() {
        link_rule(rules, count, letters, control, r, firsts, nexts);
    }
}

// Rule r put before the first of its head. A head that is not among the numbered ones is looked for among the rules.
fn link_rule(
    rules: &[u8],
    count: usize,
    letters: usize,
    control: usize,
    r: usize,
    firsts: &mut [usize],
    nexts: &mut [usize],
)
    requires { (count * 6 ≤ length rules.now) × (count ≤ 256) × (letters ≤ 64) × (control ≤ 24) × (r < count) × (control * letters ≤ length firsts.old)
        × (256 ≤ length nexts.old) }
    ensures linked_from { LinkedFrom rules.now count letters control firsts.old nexts.old (r + 1)
        → LinkedFrom rules.now count letters control firsts.new nexts.new r }
{
    let p = rules[r * Game::RULE_STRIDE];
    let a = rules[r * Game::RULE_STRIDE + 1];
    let state = usize::from(p);
    let letter = usize::from(a);
    if control <= state {
        nexts[r] = next_rule(rules, count, r + 1, p, a).unwrap_or(count);
        return;
    }
    if letters <= letter {
        nexts[r] = next_rule(rules, count, r + 1, p, a).unwrap_or(count);
        return;
    }
    let head = state * letters + letter;
    nexts[r] = firsts[head];
    firsts[head] = r;
}
