// Cases of accepted files: every field of the game. Where the file is refused the game is taken to be all zero.
use crate::told::Told;
use game::Game;
use script::Cases;

// The bytes of a command 04 or 05.
const LONG: usize = 7;

pub fn game_of(file: &[u8]) -> Game {
    Game::read(file).unwrap_or(Game::empty())
}

// Eight cases: the file is accepted, and the game's numbers are these.
pub fn accepted(t: &mut Cases, file: &[u8], numbers: [usize; 7]) {
    t.same(Told::Done, Told::from(Game::read(file)));
    let sizes = game_of(file).sizes();
    let got = [
        usize::from(sizes.control),
        usize::from(sizes.states),
        usize::from(sizes.letters),
        sizes.abelard as usize,
        sizes.finals as usize,
        sizes.rulecount,
        sizes.targetcount,
    ];
    for (expected, got) in numbers.iter().zip(got.iter()) {
        t.same(*expected, *got);
    }
}

// The rules have the operands of as many commands 04, one after the other in the file from `start` on, and zeros after them.
pub fn has_rules(game: Game, file: &[u8], start: usize) -> bool {
    let rules = game.rules;
    rules.chunks_exact(Game::RULE_STRIDE).enumerate().all(|(i, rule)| rule
        == operands(i, game.sizes.rulecount, file, start).as_slice())
}

// The target transitions have state, letter and set of as many commands 05, and zeros after them.
pub fn has_targets(game: Game, file: &[u8], start: usize) -> bool {
    let targets = game.targets;
    targets.chunks_exact(Game::TARGET_STRIDE).enumerate().all(|(i, target)| {
        let [state, letter, a, b, c, d] = operands(i, game.sizes.targetcount, file, start);
        let set = u32::from_le_bytes([a, b, c, d]);
        target == [u32::from(state), u32::from(letter), set].as_slice()
    })
}

// The operands of command i of those that stand from `start` on; 0 where there are not so many, and past the file's end.
fn operands(i: usize, count: usize, file: &[u8], start: usize) -> [u8; 6] {
    if count <= i {
        return [0; 6];
    }
    let at = start.saturating_add(i.saturating_mul(LONG));
    let mut operands = [0; 6];
    for (operand, byte) in operands.iter_mut().zip(file.iter().skip(at).skip(1)) {
        *operand = *byte;
    }
    operands
}
