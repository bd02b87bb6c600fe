// Positions where a branch of Abelard's loses: they are lost, although other rules of his lead to won positions, and the verdict
// names the rule that loses. Beside them stand positions where no rule of his loses, and one of Éloise's, who needs one rule that wins.
//
// The verdicts are worked out by hand from document 01. That the rules lead to so many won and lost positions is found by
// playing each of them and asking the judge. It leaves out stacks of more than one letter above the bottom.
use crate::areas::Areas;
use crate::ending::end;
use crate::samples::Sample;
use crate::sessions::Solution;
use game::{Game, Refusal};
use judge::Verdict;
use output::Tally;
use session::Session;
use std::fmt;

// A position (state, [1,0]) with document 01's name for it, where it has one; how many rules of its head lead to won and to lost positions,
// which is the worst for Éloise, and its verdict.
#[derive(Clone, Copy)]
struct Case {
    name: &'static str,
    sample: Sample,
    state: u8,
    won: usize,
    lost: usize,
    worst: u32,
    verdict: Verdict,
}

impl Case {
    // Abelard's position where this rule loses and so many others do not.
    fn lost_by(name: &'static str, sample: Sample, won: usize, rule: u32) -> Case {
        Case {
            name,
            sample,
            state: 1,
            won,
            lost: 1,
            worst: rule,
            verdict: Verdict::Lost { rule: Some(rule) },
        }
    }

    // Abelard's position where so many rules lead to won positions and no other does, the last being the worst.
    fn won_in(name: &'static str, sample: Sample, won: usize) -> Case {
        Case {
            name,
            sample,
            state: 1,
            won,
            lost: 0,
            worst: 5,
            verdict: Verdict::Abelard { bound: 3 },
        }
    }

    // Éloise's position, won by rule 2 although rule 1 leads to B1.
    fn b2() -> Case {
        Case {
            name: "B2 ",
            sample: Sample::B,
            state: 0,
            won: 1,
            lost: 1,
            worst: 1,
            verdict: Verdict::Eloise { rule: 2, bound: 1 },
        }
    }
}

// A judgement in words.
#[derive(Clone, Copy)]
struct Judged(Result<Verdict, Refusal>);

impl fmt::Display for Judged {
    fn fmt<W: fmt::Write>(&self, f: &mut fmt::Formatter<W>) -> fmt::Result {
        match self.0 {
            Ok(Verdict::Eloise { rule, bound }) => write!(f, "won by rule {rule}, bound {bound}"),
            Ok(Verdict::Abelard { bound }) => write!(f, "won, bound {bound}"),
            Ok(Verdict::Lost { rule: Some(rule) }) => write!(f, "lost by rule {rule}"),
            Ok(Verdict::Lost { rule: None }) => write!(f, "lost"),
            Ok(Verdict::Target) | Err(_) => write!(f, "otherwise"),
        }
    }
}

pub fn every_case(t: &mut Tally, areas: &mut Areas) {
    let cases = [
        Case::lost_by("B1 ", Sample::B, 1, 5),
        Case::b2(),
        Case::won_in("A3 ", Sample::A, 2),
        Case::lost_by("", Sample::E1, 2, 3),
        Case::lost_by("", Sample::E2, 2, 4),
        Case::lost_by("", Sample::E3, 2, 5),
        Case::won_in("", Sample::E4, 3),
    ];
    for case in cases {
        one_case(t, case, areas);
    }
}

// The line of a case: four tries.
fn one_case(t: &mut Tally, case: Case, areas: &mut Areas) {
    let file = case.sample.file();
    let solution = Solution {
        file: file.as_slice(),
        table: areas.small_table(file.as_slice()),
    };
    let s = over_bottom(case.state);
    let spread = solution.spread_of(s);
    let judged = solution.judge(s).judged;
    let mut tries = Tally::new(t.out);
    tries.count(spread.won == case.won);
    tries.count(spread.lost == case.lost);
    tries.count(spread.worst == case.worst);
    tries.count(judged == Ok(case.verdict));
    let Case {
        name,
        sample,
        state,
        ..
    } = case;
    let rules = spread.won.saturating_add(spread.lost);
    end(
        t,
        tries,
        format_args!(
            "branches, {name}({state},[1,0]) of {sample}: {rules} rules, losing {}, worst rule {}, judged {}",
            spread.lost,
            spread.worst,
            Judged(judged)
        ),
    );
}

// The session at (state, [1,0]).
fn over_bottom(state: u8) -> Session {
    let mut stack = [0; Game::MAX_STACK];
    stack[1] = 1;
    Session {
        state,
        stack,
        height: 2,
    }
}
