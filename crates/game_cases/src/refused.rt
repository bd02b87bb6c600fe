// Cases of refused files.
use crate::told::Told;
use game::Game;
use script::{Cases, File, byte_of, front};

// One case: the file is refused by this question at this place.
pub fn refused(t: &mut Cases, file: &[u8], question: u8, place: usize) {
    match Game::read(file) {
        Ok(_) => t.yes(false),
        Err(refusal) => t.same(Told::new(question, place), Told::from(refusal)),
    }
}

// A case for each cut that ends within the command at `start`, and for the one that ends with it, at `end`.
pub fn cuts(t: &mut Cases, file: &[u8], start: usize, end: usize) {
    for n in after(start)..end {
        refused(t, front(file, n), 19, start);
    }
    refused(t, front(file, end), 8, end);
}

// A case for each of these values of the file's last byte: refused by this question at this place.
pub fn every_byte<const N: usize>(t: &mut Cases, file: &mut File<N>, numbers: [usize; 7]) {
    let [low, high, question, place, ..] = numbers;
    let Some(last) = file.len().checked_sub(1) else {
        t.yes(false);
        return;
    };
    for x in low..after(high) {
        file.put(last, byte_of(x));
        refused(t, file.as_slice(), byte_of(question), place);
    }
}

// The number after n. No file is near the number that it stays at.
fn after(n: usize) -> usize {
    if n < 1000000 { n + 1 } else { n }
}
