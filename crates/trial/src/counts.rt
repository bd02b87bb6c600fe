// What was tried of random games, as counts. A check that fails prints one line with the game's number, the control state and
// the stack's number, which is left out where it cannot be written: the last line of the counts tells how many failed.
use crate::contests::Contested;
use crate::plain::Position;
use crate::plays::{Bound, End, Place, Played};
use game::Refusal;
use judge::Verdict;
use std::io;
use std::io::Stdout;

#[derive(Clone, Copy, Debug, Default, PartialEq, Eq)]
pub struct Counts {
    // Games made, those refused for their size, and the most rounds of one.
    games: usize,
    refused: usize,
    rounds: u32,
    // Positions by verdict, and the largest bound of one.
    target: usize,
    eloise: usize,
    abelard: usize,
    lost: usize,
    bound: u64,
    // Positions judged won of which the plain solver found no win within its depth.
    deep: usize,
    // Plays, their moves, and those given up as too long.
    plays: usize,
    moves: usize,
    long: usize,
    // Lost positions whose rule was compared, Abelard's and Éloise's.
    named: usize,
    unnamed: usize,
    // Contests from lost positions, their moves, Abelard's among them, and the letters of the highest stack.
    contests: usize,
    steps: usize,
    turns: usize,
    letters: usize,
    failed: usize,
}

fn add(count: &mut usize, n: usize) {
    *count = count.saturating_add(n);
}

impl Counts {
    pub fn solved(&mut self, rounds: u32) {
        add(&mut self.games, 1);
        self.rounds = self.rounds.max(rounds);
    }

    // A refusal by a question of reading, or of the areas, is a failure: the games are made to pass those.
    pub fn refused(&mut self, out: Stdout, number: usize, refusal: Refusal) {
        add(&mut self.games, 1);
        add(&mut self.refused, 1);
        let late = 10 < refusal.question.number();
        self.check(out, late, number, Position::default());
    }

    // A verdict, and whether the plain solver found a win.
    pub fn judged(&mut self, place: Place, plain: bool) {
        match place.judged {
            Ok(Verdict::Target) => add(&mut self.target, 1),
            Ok(Verdict::Eloise { .. }) => add(&mut self.eloise, 1),
            Ok(Verdict::Abelard { .. }) => add(&mut self.abelard, 1),
            Ok(Verdict::Lost { .. }) | Err(_) => add(&mut self.lost, 1),
        }
        if let Bound::Within(bound) = place.bound() {
            self.bound = self.bound.max(bound);
            add(&mut self.deep, usize::from(!plain));
        }
    }

    // A play.
    pub fn played(&mut self, p: Played) {
        add(&mut self.plays, 1);
        add(&mut self.moves, p.moves);
        add(&mut self.long, usize::from(p.end == End::Long));
    }

    // The rule of a lost position, Abelard's or not, was compared.
    pub fn reported(&mut self, abelards: bool) {
        if abelards {
            add(&mut self.named, 1);
        } else {
            add(&mut self.unnamed, 1);
        }
    }

    // A contest.
    pub fn contested(&mut self, c: Contested) {
        add(&mut self.contests, 1);
        add(&mut self.steps, c.moves);
        add(&mut self.turns, c.turns);
        self.letters = self.letters.max(c.letters);
    }

    // A check at a position.
    pub fn check(&mut self, out: Stdout, holds: bool, number: usize, at: Position) {
        if !holds {
            let _ = println!(out; "failed: game {number} {at}");
            add(&mut self.failed, 1);
        }
    }

    pub fn print(&self, rt: &impl Print) -> io::Result<()> {
        let Counts {
            games,
            refused,
            rounds,
            target,
            eloise,
            abelard,
            lost,
            bound,
            deep,
            plays,
            moves,
            long,
            named,
            unnamed,
            contests,
            steps,
            turns,
            letters,
            failed,
        } = *self;
        let won = target.saturating_add(eloise).saturating_add(abelard);
        let positions = won.saturating_add(lost);
        println!(rt; "random games: {games}, refused {refused}, most rounds {rounds}")?;
        println!(rt;
            "positions: {positions}, lost {lost}, won {won}, of these beyond the plain solver's depth {deep}"
        )?;
        println!(rt;
            "won: target {target}, eloise {eloise}, abelard {abelard}, largest bound {bound}"
        )?;
        println!(rt; "plays: {plays}, moves {moves}, given up as too long {long}")?;
        println!(rt;
            "lost: abelard {named} with the lowest rule that stays lost, eloise {unnamed} with none"
        )?;
        println!(rt;
            "contests: {contests}, moves {steps}, by Abelard {turns}, letters of the highest stack {letters}"
        )?;
        println!(rt; "random games: {failed} failed")
    }
}
