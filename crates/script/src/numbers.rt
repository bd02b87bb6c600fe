// Numbers made to fit.

// A number as a byte; 255 where it is larger.
pub fn byte_of(x: usize) -> u8 {
    u8::try_from(x).unwrap_or(u8::MAX)
}

// A number as a word of 32 bits; the largest where it is larger.
pub fn word_of(x: usize) -> u32 {
    u32::try_from(x).unwrap_or(u32::MAX)
}
