// Digests of the segments of QP and QP7 calls with the bytes of the frames and records, each found, filled and shown by the calls. All of it is
// for the crates above. Rests on frames, qp, qp7 and blocks, and on test_tools.
#![tactic(auto)]

use blocks::StreamPlace;
use test_tools::{digest_all, mix, part, word};

// What is handed out of a table: how much, how much of it short, and how many bytes; and a digest of it all. By default nothing.
#[derive(Clone, Copy, Default)]
pub struct Gathered {
    pub many: usize,
    pub short: usize,
    pub bytes: usize,
    pub digest: u64,
}

// With two numbers in front of what follows.
fn with_head(before: Gathered, first: usize, second: usize) -> Gathered {
    Gathered {
        digest: mix(mix(before.digest, first as u64), second as u64),
        ..before
    }
}

// With so many bytes of the stream, filled and shown, which are one frame or record more, maybe a short one.
fn with_bytes(
    before: Gathered,
    file: &[u8],
    place: StreamPlace,
    size: usize,
    is_short: bool,
) -> Gathered {
    let mut scratch = [0u8; 56];
    let _ = frames::fill(file, place, size, &mut scratch);
    let shown = frames::show(file, place, size, &scratch);
    Gathered {
        many: before.many.wrapping_add(1),
        short: before.short.wrapping_add(usize::from(is_short)),
        bytes: before.bytes.wrapping_add(size),
        digest: digest_all(before.digest, shown),
    }
}

// With so many frames of a segment, as far as they are there.
fn with_frames(
    before: Gathered,
    file: &[u8],
    start: StreamPlace,
    long: usize,
    frames: usize,
) -> Gathered {
    let mut all = before;
    for k in 0..frames {
        let found = frames::frame(start, long, k);
        if found.size != 0 {
            all = with_bytes(all, file, found.place, found.size, found.size < 56);
        }
    }
    all
}

// The QP segments of a table: of each its frame total, its reset, and every byte of its frames.
pub fn of_segments(file: &[u8], table: &[u32], segments: usize) -> Gathered {
    let mut all = Gathered::default();
    for entry in table.chunks(qp::ENTRY).take(segments) {
        let start = StreamPlace(word(entry, 0));
        let long = word(entry, 1);
        let frames = word(entry, 2);
        all = with_head(all, frames, word(entry, 3));
        all = with_frames(all, file, start, long, frames);
    }
    all
}

// The size of the record at a place, by its second byte.
fn record_size(file: &[u8], place: StreamPlace) -> usize {
    let mut scratch = [0u8; 56];
    let _ = frames::fill(file, place, 2, &mut scratch);
    match frames::show(file, place, 2, &scratch) {
        [_, second, ..] => if *second < 128 { 12 } else { 56 },
        _ => 0,
    }
}

// With the records at some places.
fn with_records(before: Gathered, file: &[u8], places: &[u32]) -> Gathered {
    let mut all = before;
    for place in places {
        let place = StreamPlace(*place as usize);
        all = with_bytes(all, file, place, record_size(file, place), false);
    }
    all
}

// The QP7 segments of two tables: of each how many records it has, its reset, and every byte of its records.
pub fn of_records(file: &[u8], records: &[u32], table: &[u32], segments: usize) -> Gathered {
    let mut all = Gathered::default();
    for entry in table.chunks(qp7::ENTRY).take(segments) {
        let many = word(entry, 1);
        all = with_head(all, many, word(entry, 2));
        all = with_records(all, file, part(records, word(entry, 0), many));
    }
    all
}
