// A filter for question 6, so that most new statements are found new without a search. A rule and a target transition have a
// slot, a number made of their operands, and the bit of the slot is set when one is stored: where a bit is not set, no equal
// statement was stored. What a set bit says is left to the search.
//
// The same bits serve question 9, where a head has a number and its bit says that it has a rule.
ghost use Rattle.std.specs.Prelude.{◌≡◌, ◌<◌, ◌/◌, length};
ghost use Rattle.game.specs.Limits.{slots};
ghost use Rattle.game.specs.Marks.{head_slot, slot_of, marked, Marks};

use crate::game::Game;

// The slot of a state, a letter and the rest of a statement as a word. The factors are odd and near the golden section of 2^32
// and of the number of slots, so that statements that differ little are spread; of the first product the bits from 26 on are
// taken, since those below are the same for most sets, whose members are high.
pub fn slot_of(state: u8, letter: u8, word: u32) -> usize
    ensures { (result ≡ slot_of state letter word) × (result < slots) }
{
    let spread = (word as usize) * 2654435769 / 67108864;
    (spread + head_slot(state, letter) * 10125) % Game::SLOTS
}

// The number of a head; different heads have different numbers.
pub fn head_slot(p: u8, a: u8) -> usize
    ensures { result ≡ head_slot p a }
{
    (p as usize) * (Game::MAX_LETTERS as usize) + (a as usize)
}

// The bit of a slot is set.
pub fn is_marked(marks: &[u64], slot: usize) -> bool
    requires { slot / 64 < length marks.now }
    ensures { result ≡ marked marks.now slot }
{
    (marks[slot / 64] >> (slot % 64)) % 2 == 1
}

// Sets the bit of a slot.
pub fn mark(marks: &mut [u64], slot: usize)
    requires { slot / 64 < length marks.old }
    ensures { Marks marks.old slot marks.new }
{
    let i = slot / 64;
    marks[i] = marks[i] | (1u64 << (slot % 64));
}
