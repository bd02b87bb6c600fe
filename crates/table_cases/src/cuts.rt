// Every damage, entry and cut, in groups by where the cut lies: each case is of one group, and each group is counted apart. Cut 0 stands
// for the whole table in one call.
ghost use Rattle.std.specs.Prelude.{◌≤◌};
ghost use Rattle.table_cases.specs.Sample.{sample_entries};

use crate::cases::{Case, What, same};
use crate::damage::{Damage, Kind};
use crate::entries::{ENTRIES, Sample, USED, WORDS};
use crate::expected::{Expected, Why};
use crate::parts::form_of_parts;
use game::Refusal;
use output::Tally;
use std::fmt;
use table::table_form;

#[derive(Clone, Copy, Debug, PartialEq, Eq)]
enum Group {
    // The whole table in one call.
    Whole,
    // A sound table, the entry before the cut used, or unused with only unused ones after it.
    Sound,
    SoundUnused,
    // The refusal is by entries of the first part only, or by entries of the second only.
    Before,
    After,
    // The refusal is of the first entry of the second part, by the last one of the first.
    EqualAcross,
    OrderAcross,
    UnusedAcross,
}

impl Group {
    const ALL: [Group; 8] = [
        Group::Whole,
        Group::Sound,
        Group::SoundUnused,
        Group::Before,
        Group::After,
        Group::EqualAcross,
        Group::OrderAcross,
        Group::UnusedAcross,
    ];

    // The group of a cut of a table. Where the cut is at the place of a refusal, that entry is the first after it, and fails alone or against
    // the last before it.
    fn of(expected: Expected, cut: usize) -> Group {
        if cut == 0 {
            return Group::Whole;
        }
        match expected {
            Expected::Sound { used } if used < cut => Group::SoundUnused,
            Expected::Sound { .. } => Group::Sound,
            Expected::Refused { place, .. } if place < cut => Group::Before,
            Expected::Refused { place, .. } if cut < place => Group::After,
            Expected::Refused { why, .. } => match why {
                Why::Alone => Group::After,
                Why::Equal => Group::EqualAcross,
                Why::Order => Group::OrderAcross,
                Why::Unused => Group::UnusedAcross,
            },
        }
    }
}

impl fmt::Display for Group {
    fn fmt<W: fmt::Write>(&self, f: &mut fmt::Formatter<W>) -> fmt::Result {
        f.write_str(match self {
            Group::Whole => "tables in one call",
            Group::Sound => "sound table, cut after a used entry",
            Group::SoundUnused => "sound table, cut after an unused entry",
            Group::Before => "damage before the cut",
            Group::After => "damage after the cut",
            Group::EqualAcross => "equal keys across the cut",
            Group::OrderAcross => "keys out of order across the cut",
            Group::UnusedAcross => "used after unused across the cut",
        })
    }
}

// All groups, each with its line.
pub fn every_group(t: &mut Tally, sample: &Sample<'_>) {
    for group in Group::ALL {
        let mut g = Tally::new(t.out);
        for kind in Kind::ALL {
            for entry in 0..USED {
                let damage = Damage { kind, entry };
                if damage.is_case() {
                    every_cut(&mut g, group, damage, sample);
                }
            }
        }
        let _ = t.out.println(format_args!("{group}: {} checks, {} failed", g.tried, g.failed));
        t.add(g);
    }
}

// The cuts that are of the group.
fn every_cut(t: &mut Tally, group: Group, damage: Damage, sample: &Sample<'_>) {
    let expected = damage.expected();
    let words = damage.of(sample.table);
    for cut in 0..ENTRIES + 1 {
        if Group::of(expected, cut) == group {
            let case = Case {
                what: What::Damaged(damage.kind),
                entry: damage.entry,
                cut,
            };
            same(t, case, expected, form_of(sample, &words, cut));
        }
    }
}

fn form_of(sample: &Sample<'_>, words: &[u32; WORDS], cut: usize) -> Result<(), Refusal>
    requires { cut ≤ sample_entries }
{
    if cut == 0 {
        return table_form(sample.sizes, sample.rules, words);
    }
    form_of_parts(sample.sizes, sample.rules, words, cut)
}
