// The games of the list: A to D are the samples of document 01; E1 to E4 and F are made for this list.
//
// In each of them the target is the position (0,[0]) alone, and control state 1 is Abelard's where there is one. It leaves out
// random games.
use script::{File, SAMPLE_A, SAMPLE_B, SAMPLE_C};
use std::fmt;

#[derive(Clone, Copy, Debug, PartialEq, Eq)]
pub enum Sample {
    A,
    B,
    C,
    // With so many letters above the bottom.
    D(usize),
    // Abelard has three rules at (1,1), of which the first, the second, the third or none leads to a lost position.
    E1,
    E2,
    E3,
    E4,
    // Both players move, down to the bottom.
    F,
}

// The games that are cut and solved twice. 40 letters are the most that settle.
pub const FILES: [Sample; 5] = [
    Sample::A,
    Sample::B,
    Sample::C,
    Sample::D(40),
    Sample::D(41),
];

impl Sample {
    pub fn file(self) -> File<400> {
        let mut file = File::new();
        match self {
            Sample::A => file.extend(SAMPLE_A),
            Sample::B => file.extend(SAMPLE_B),
            Sample::C => file.extend(SAMPLE_C),
            Sample::D(n) => file.sample_d(n),
            Sample::E1 => file.extend(E1),
            Sample::E2 => file.extend(E2),
            Sample::E3 => file.extend(E3),
            Sample::E4 => file.extend(E4),
            Sample::F => file.extend(F),
        }
        file
    }
}

impl fmt::Display for Sample {
    fn fmt<W: fmt::Write>(&self, f: &mut fmt::Formatter<W>) -> fmt::Result {
        match self {
            Sample::A => write!(f, "game A"),
            Sample::B => write!(f, "game B"),
            Sample::C => write!(f, "game C"),
            Sample::D(n) => write!(f, "game D{n}"),
            Sample::E1 => write!(f, "game E1"),
            Sample::E2 => write!(f, "game E2"),
            Sample::E3 => write!(f, "game E3"),
            Sample::E4 => write!(f, "game E4"),
            Sample::F => write!(f, "game F"),
        }
    }
}

// P 2, S 3, L 2. Rules 0: (0,0) to (0,[0]); 1: (0,1) to (0,[]); 2: (1,0) to (1,[0]), with which Abelard stays where he is;
// 3: (1,1) to (1,[]), which loses; 4: (1,1) to (0,[]); 5: (1,1) to (0,[1]).
const E1: &[u8; 58] =
    b"\x01\x02\x03\x02\x02\x01\x03\x02\x04\x00\x00\x00\x01\x00\x00\x04\x00\x01\x00\x00\x00\x00\x04\x01\x00\x01\x01\x00\x00\x04\x01\x01\x01\x00\x00\x00\x04\x01\x01\x00\x00\x00\x00\x04\x01\x01\x00\x01\x01\x00\x05\x00\x00\x04\x00\x00\x00\xff";

// The same rules, the losing one being rule 4.
const E2: &[u8; 58] =
    b"\x01\x02\x03\x02\x02\x01\x03\x02\x04\x00\x00\x00\x01\x00\x00\x04\x00\x01\x00\x00\x00\x00\x04\x01\x00\x01\x01\x00\x00\x04\x01\x01\x00\x00\x00\x00\x04\x01\x01\x01\x00\x00\x00\x04\x01\x01\x00\x01\x01\x00\x05\x00\x00\x04\x00\x00\x00\xff";

// The same rules, the losing one being rule 5.
const E3: &[u8; 58] =
    b"\x01\x02\x03\x02\x02\x01\x03\x02\x04\x00\x00\x00\x01\x00\x00\x04\x00\x01\x00\x00\x00\x00\x04\x01\x00\x01\x01\x00\x00\x04\x01\x01\x00\x00\x00\x00\x04\x01\x01\x00\x01\x01\x00\x04\x01\x01\x01\x00\x00\x00\x05\x00\x00\x04\x00\x00\x00\xff";

// The same rules, but for the losing one (1,1) to (0,[1,1]), as rule 5.
const E4: &[u8; 58] =
    b"\x01\x02\x03\x02\x02\x01\x03\x02\x04\x00\x00\x00\x01\x00\x00\x04\x00\x01\x00\x00\x00\x00\x04\x01\x00\x01\x01\x00\x00\x04\x01\x01\x00\x00\x00\x00\x04\x01\x01\x00\x01\x01\x00\x04\x01\x01\x00\x02\x01\x01\x05\x00\x00\x04\x00\x00\x00\xff";

// P 2, S 3, L 3. Rules 0: (0,0) to (0,[0]); 1: (0,1) to (1,[2]); 2: (0,2) to (1,[]); 3: (1,0) to (0,[0]); 4: (1,1) to (0,[]);
// 5: (1,1) to (0,[2,2]); 6: (1,2) to (0,[]); 7: (1,2) to (1,[]).
const F: &[u8; 72] =
    b"\x01\x02\x03\x03\x02\x01\x03\x02\x04\x00\x00\x00\x01\x00\x00\x04\x00\x01\x01\x01\x02\x00\x04\x00\x02\x01\x00\x00\x00\x04\x01\x00\x00\x01\x00\x00\x04\x01\x01\x00\x00\x00\x00\x04\x01\x01\x00\x02\x02\x02\x04\x01\x02\x00\x00\x00\x00\x04\x01\x02\x01\x00\x00\x00\x05\x00\x00\x04\x00\x00\x00\xff";
