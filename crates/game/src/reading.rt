// Reading a game file: the file's questions, 1 to 9 and 19, and the game.
ghost use Rattle.std.specs.Prelude.{◌≡◌, ◌<◌, ◌≤◌, length};
ghost use Rattle.game.specs.Limits.{max_control, max_letters, max_rules};
ghost use Rattle.game.specs.Game.{PushdownGame};
ghost use Rattle.game.specs.Questions.{ending, reading};
ghost use Rattle.game.specs.Stored.{Reports};
ghost use Rattle.game.specs.Parts.{Parts};

use crate::command::Command;
use crate::game::{Game, Sizes};
use crate::question::{ask_command, is_every_head};
use crate::reader::read_command;
use crate::refusal::{Question, Refusal};

impl Game {
    // The game that a file describes, or the first question that is answered no, with its place.
    pub fn read(file: &[u8]) -> Result<Game, Refusal>
        ensures { Reports (reading file.now) result }
    {
        if file.len() < 1 {
            return Err(Question::Length.at(0));
        }
        if Game::MAX_FILE < file.len() {
            return Err(Question::Length.at(0));
        }
        let mut sizes = Sizes::none();
        let mut rules = [0u8; Game::MAX_RULES * Game::RULE_STRIDE];
        let mut targets = [0u32; Game::MAX_TARGETS * Game::TARGET_STRIDE];
        let mut marks = [0u64; Game::SLOT_WORDS];
        let mut at = 0;
        while at < file.len() {
            let found = read_command(file, at);
            let Ok((command, next)) = found else {
                return Err(Question::from(found.unwrap_err()).at(at));
            };
            if let Err(question) = ask_command(sizes, &rules, &targets, &marks, command) {
                return Err(question.at(at));
            }
            if let Command::End = command {
                return close(file.len(), at, sizes, rules, targets);
            }
            sizes = sizes.with(&mut rules, &mut targets, &mut marks, command);
            at = next;
        }
        Err(Question::Last.at(file.len()))
    }
}

// Questions 8 and 9, at FF; where both are answered yes, the game of its parts.
fn close(
    size: usize,
    at: usize,
    sizes: Sizes,
    rules: [u8; Game::MAX_RULES * Game::RULE_STRIDE],
    targets: [u32; Game::MAX_TARGETS * Game::TARGET_STRIDE],
) -> Result<Game, Refusal>
    requires { (at < size) × (sizes.rulecount ≤ max_rules) × (sizes.control ≤ max_control) × (sizes.letters ≤ max_letters) }
    ensures { (g : PushdownGame) → Parts g sizes rules targets → Reports (ending size at g) result }
{
    let after = at + 1;
    if after != size {
        return Err(Question::Last.at(at));
    }
    if !is_every_head(&rules, sizes.rulecount, sizes.control, sizes.letters) {
        return Err(Question::Heads.at(at));
    }
    Ok(Game {
        sizes,
        rules,
        targets,
    })
}
