// Abelard playing worst: from every position of a list that is judged won, Éloise plays the advised rule and Abelard the rule
// whose position has the largest bound. Each move is played in a session and makes the bound smaller, and the target is reached
// within the first bound.
//
// It leaves out play against Abelard's other choices.
use crate::areas::Areas;
use crate::ending::end;
use crate::samples::Sample;
use crate::sessions::{Place, Solution};
use game::Game;
use judge::Verdict;
use output::Tally;
use script::byte_of;
use session::{Session, play_move};

// Of the plays of one game: positions judged won and lost, moves, Abelard's among them, and the sum of the first bounds.
#[derive(Clone, Copy)]
struct Counts {
    tries: Tally,
    won: usize,
    lost: usize,
    moves: usize,
    turns: usize,
    bounds: u64,
}

// How a play went: its moves, Abelard's among them, and whether all was right.
#[derive(Clone, Copy, Debug, PartialEq, Eq)]
struct Played {
    moves: usize,
    turns: usize,
    right: bool,
}

// The games, and how many of their positions are lost: in B Abelard's with letters above the bottom, in E4 his with none.
const GAMES: [(Sample, usize); 9] = [
    (Sample::A, 0),
    (Sample::B, 13),
    (Sample::C, 0),
    (Sample::D(1), 0),
    (Sample::D(2), 0),
    (Sample::D(3), 0),
    (Sample::D(6), 0),
    (Sample::E4, 1),
    (Sample::F, 0),
];

// The letters above the bottom of the positions of a game.
const HEIGHTS: [usize; 14] = [0, 1, 2, 3, 4, 5, 6, 7, 8, 9, 10, 20, 60, 200];

// No bound of the list is larger.
const MOST_MOVES: usize = 100000;

pub fn every_game(t: &mut Tally, areas: &mut Areas) {
    for (sample, lost) in GAMES {
        one_game(t, sample, lost, areas);
    }
}

// The line of one game: a try for each play, and one for the positions left out as lost.
fn one_game(t: &mut Tally, sample: Sample, expected: usize, areas: &mut Areas) {
    let file = sample.file();
    let solution = Solution {
        file: file.as_slice(),
        table: areas.small_table(file.as_slice()),
    };
    let mut c = Counts {
        tries: Tally::new(t.out),
        won: 0,
        lost: 0,
        moves: 0,
        turns: 0,
        bounds: 0,
    };
    solution.every_play(&mut c);
    let Counts {
        mut tries,
        won,
        lost,
        moves,
        turns,
        bounds,
    } = c;
    tries.count(lost == expected);
    end(
        t,
        tries,
        format_args!(
            "worst play, {sample}: {won} plays of {moves} moves, {turns} by Abelard, reach the target within bounds of {bounds}; {lost} lost"
        ),
    );
}

impl Solution<'_> {
    // A play from every position of a game: of each of its control states and of each first letter above the bottom.
    fn every_play(&self, c: &mut Counts) {
        let Ok(game) = Game::read(self.file) else {
            return;
        };
        for height in HEIGHTS {
            for first in 1..game.sizes.letters.min(4) {
                for state in 0..game.sizes.control.min(2) {
                    let s = session_of(state, first, height, game.sizes.letters);
                    self.play_from(c, self.judge(s));
                }
            }
        }
    }

    // A play from a session, if the judge says that it is won.
    fn play_from(&self, c: &mut Counts, place: Place) {
        if matches!(place.judged, Ok(Verdict::Lost { .. })) {
            c.lost = c.lost.saturating_add(1);
            return;
        }
        let Session { state, height, .. } = place.session;
        let bound = place.worth();
        let Played {
            moves,
            turns,
            right,
        } = self.play(place);
        c.tries.check(
            right,
            format_args!(
                "state {state}, height {height}, bound {bound}: failed after moves {moves}"
            ),
        );
        c.won = c.won.saturating_add(1);
        c.moves = c.moves.saturating_add(moves);
        c.turns = c.turns.saturating_add(turns);
        c.bounds = c.bounds.saturating_add(bound);
    }

    // A play, move by move to the target.
    fn play(&self, first: Place) -> Played {
        let mut place = first;
        let mut turns = 0usize;
        for moves in 0..MOST_MOVES {
            if matches!(place.judged, Ok(Verdict::Target)) {
                return Played {
                    moves,
                    turns,
                    right: is_end(place.session) && moves as u64 <= first.worth(),
                };
            }
            let Some(next) = self.after(place) else {
                return Played {
                    moves,
                    turns,
                    right: false,
                };
            };
            let abelards = matches!(place.judged, Ok(Verdict::Abelard { .. }));
            turns = turns.saturating_add(usize::from(abelards));
            place = next;
        }
        Played {
            moves: MOST_MOVES,
            turns,
            right: false,
        }
    }

    // One move, by Éloise's advised rule or Abelard's worst for her. It is right where it is played and the bound is smaller afterwards.
    fn after(&self, place: Place) -> Option<Place> {
        let rule = match place.judged {
            Ok(Verdict::Abelard { .. }) => self.spread_of(place.session).worst,
            Ok(Verdict::Eloise { rule, .. }) => rule,
            _ => 0,
        };
        let played = play_move(self.file, place.session, rule);
        let next = self.judge(played.session);
        if played.answer.is_ok() && next.worth() < place.worth() {
            Some(next)
        } else {
            None
        }
    }
}

// A session with so many letters above the bottom. They run through the game's letters in order, from one of them on.
fn session_of(state: u8, first: u8, above: usize, letters: u8) -> Session {
    let mut stack = [0; Game::MAX_STACK];
    let others = usize::from(letters).saturating_sub(1);
    for (i, cell) in stack.iter_mut().skip(1).take(above).enumerate() {
        let letter = usize::from(first).saturating_add(i).checked_rem(others);
        *cell = letter.map_or(0, |l| byte_of(l.saturating_add(1)));
    }
    Session {
        state,
        stack,
        height: above.min(Game::MAX_STACK - 1) + 1,
    }
}

// The session is at (0,[0]).
fn is_end(s: Session) -> bool {
    s.state == 0 && s.height == 1
}
