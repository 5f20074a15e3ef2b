// A file of the list: its magic, its length, where its blocks begin, how these are filled, and their headers. Rests on the rest of this
// crate and on test_tools.
use crate::{Numbers, Replay};
use test_tools::from_place;

// What a case says of its file before the headers: how it begins, how long it is, where its blocks begin, how they are filled, the seed of
// noise, and how many headers there are.
#[derive(Clone, Copy)]
struct Shape {
    magic: [u8; 4],
    long: usize,
    start: usize,
    fill: u64,
    seed: u64,
    blocks: u64,
}

fn read_shape(numbers: &mut Numbers) -> Shape {
    Shape {
        magic: [
            numbers.next_byte(),
            numbers.next_byte(),
            numbers.next_byte(),
            numbers.next_byte(),
        ],
        long: numbers.next_size(),
        start: numbers.next_size(),
        fill: numbers.next(),
        seed: numbers.next(),
        blocks: numbers.next(),
    }
}

// The payloads, before headers and magic are put over them.
fn fill_by(fill: u64, seed: u64, file: &mut [u8], start: usize) {
    file.fill(0);
    let payloads = from_place(file, start);
    match fill {
        1 => test_tools::fill_with_noise(payloads, seed),
        2 => payloads.fill(255),
        _ => {}
    }
}

// The six bytes of each of so many headers.
fn put_headers(numbers: &mut Numbers, blocks: u64, file: &mut [u8], start: usize) {
    let mut place = start;
    for _ in 0..blocks {
        for k in 0..6 {
            test_tools::set(file, place.wrapping_add(k), numbers.next_byte());
        }
        place = place.wrapping_add(512);
    }
}

// Makes the file of a shape, with the headers that stand next in the list.
fn make(numbers: &mut Numbers, shape: Shape, file: &mut [u8]) {
    fill_by(shape.fill, shape.seed, file, shape.start);
    put_headers(numbers, shape.blocks, file, shape.start);
    test_tools::put(file, 0, &shape.magic);
}

// Begins the next case of the list: its file is made at the front of the space, as far as there is room, and handed out.
pub fn next_case<'a, R: Print>(replay: &mut Replay<'_, R>, space: &'a mut [u8]) -> &'a [u8] {
    replay.begin_case();
    let shape = read_shape(&mut replay.numbers);
    let long = shape.long.min(space.len());
    let file = &mut space[..long];
    make(&mut replay.numbers, shape, file);
    file
}
