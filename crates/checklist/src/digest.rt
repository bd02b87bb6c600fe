// A digest of words, the same on every host: FNV-1a of 64 bits over their bytes, four to a word and lowest first.
//
// It is for comparing tables by eye. It is no guard against a forged one.
use std::fmt;

#[derive(Clone, Copy, Debug, PartialEq, Eq)]
pub struct Digest(u64);

impl Digest {
    // The digest of no bytes.
    const EMPTY: u64 = 0xcbf29ce484222325;

    // 2^40 + 435.
    const PRIME: u64 = 0x100000001b3;

    // The digest of all words of an area.
    pub fn of(words: &[u32]) -> Digest {
        let mut digest = Digest::EMPTY;
        for word in words {
            for byte in word.to_le_bytes() {
                digest = (digest ^ u64::from(byte)).wrapping_mul(Digest::PRIME);
            }
        }
        Digest(digest)
    }
}

// In 16 hexadecimal digits.
impl fmt::Display for Digest {
    fn fmt<W: fmt::Write>(&self, f: &mut fmt::Formatter<W>) -> fmt::Result {
        write!(f, "{:016x}", self.0)
    }
}
