// The index that a case lends, made from its numbers. Rests on test_expected and test_tools.
use test_expected::Numbers;
use test_tools::{put, set};

// Puts a number's four bytes at a place, the highest first, as far as there is room.
fn put_word(index: &mut [u8], at: usize, word: u64) {
    let word = (word % 4294967296) as u32;
    put(index, at, &word.to_be_bytes());
}

// The next index of the list, at the front of the space, as far as there is room. It stands in the list as how many bytes of it there are; what
// stands for its length, and for its version; and how many numbers follow, of four bytes each.
pub fn next_index<'a>(numbers: &mut Numbers, space: &'a mut [u8]) -> &'a [u8] {
    let long = numbers.next_size().min(space.len());
    put_word(space, 0, numbers.next());
    set(space, 4, numbers.next_byte());
    let words = numbers.next();
    let mut place: usize = 5;
    for _ in 0..words {
        put_word(space, place, numbers.next());
        place = place.wrapping_add(4);
    }
    &space[..long]
}
