// Judging a position over a table: the file's questions, 13 and 14, then the verdict.
ghost use Rattle.std.specs.Prelude.{◌≡◌};
ghost use Rattle.game.specs.Game.{PushdownGame};
ghost use Rattle.game.specs.GoodGame.{Ranged};
ghost use Rattle.game.specs.Stored.{stored};
ghost use Rattle.judge.specs.Verdict.{judging_game, judging};
ghost use Rattle.judge.specs.Judged.{judged};

use crate::verdict::{Verdict, verdict_on};
use game::{Game, Refusal, position_form};
use table::{table_form, used_part};

// The verdict on a position of the game that a file describes, over a table's words.
pub fn judge(file: &[u8], table: &[u32], position: &[u8]) -> Result<Verdict, Refusal>
    ensures { judged result ≡ judging file.now table.now position.now }
{
    let game = Game::read(file).map_err(told)?;
    judge_game(game, table, position)
}

// The same for a game that was read.
pub fn judge_game(game: Game, table: &[u32], position: &[u8]) -> Result<Verdict, Refusal>
    requires { (g : PushdownGame) × (game ≡ stored g) × Ranged g }
    ensures { (g : PushdownGame) → game ≡ stored g → Ranged g
        → judged result ≡ judging_game g table.now position.now }
{
    let sizes = game.sizes();
    let rules = game.rules;
    table_form(sizes, &rules, table).map_err(told)?;
    position_form(sizes.control, sizes.letters, position).map_err(told)?;
    Ok(verdict_on(sizes, &rules, used_part(table), position[0], &position[1..]))
}

// A refusal by a question before the verdict is told as it came, the question at its place.
fn told(refusal: Refusal) -> Refusal
    ensures { result ≡ refusal }
{
    refusal.question.at(refusal.place)
}
