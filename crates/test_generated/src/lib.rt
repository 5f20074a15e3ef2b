// Files from a number: SP recordings of both families, QP and QP7, most of them of under twelve blocks, some of under forty, and
// part of one more. All of it is for the crates above. Rests on test_tools.
#![tactic(auto)]

use test_tools::{below, from_place, noise, put};

// How files are cut.
pub mod cuts;

// What was tried of them.
pub mod tried;

// A file: its length, where its audio starts, its whole blocks, the bytes of a block that is cut, and what it is: 0 DS2 SP, 2 and 3 DSS, by
// its first byte, and 6 and 7 QP and QP7.
#[derive(Clone, Copy)]
pub struct Made {
    pub long: usize,
    pub start: usize,
    pub blocks: usize,
    pub cut: usize,
    pub kind: u64,
}

// Three of eight files are DS2 SP, three DSS.
fn kind_by(choice: u64) -> u64 {
    match choice {
        0..=2 => 0,
        3..=5 => 2 + choice % 2,
        _ => choice,
    }
}

// A block's header: its first byte, byte 1, its count and its type.
#[derive(Clone, Copy)]
struct Header {
    flag: u8,
    first: u8,
    count: u8,
    byte: u8,
}

// What one step of noise gives as a byte, below a number.
fn byte_below(state: u64, most: u64) -> u8 {
    (below(state, most) % 256) as u8
}

// The type byte for a kind: 0 to 5 are SP, 6 and 8 to 255 QP.
fn type_by(kind: u64, state: u64) -> u8 {
    match kind {
        7 => 7,
        6 => match byte_below(state, 250) % 250 {
            1 => 6,
            choice => 6 + choice,
        },
        _ => byte_below(state, 6),
    }
}

// How many frames a block announces: as a recorder has them, a few, any number, or mostly none.
fn count_by(kind: u64, style: u64, state: u64) -> u8 {
    match (kind, style) {
        (7, _) => byte_below(state, 10),
        (6, 0) => 8 + byte_below(state, 2) % 2,
        (_, 0) => 12 + byte_below(state, 2) % 2,
        (_, 1) => byte_below(state, 15),
        (_, 2) => byte_below(state, 256),
        _ if below(state, 4) == 0 => byte_below(noise(state), 30),
        _ => 0,
    }
}

// Byte 1 of a block that goes on where the frames before it end in the stream, if that is in it.
fn going_on(far: usize, block: usize) -> u8 {
    let base = 506 * (block % 40);
    if far < base || base + 504 < far {
        return 3;
    }
    (3 + (far - base) / 2) as u8
}

// Byte 1 by style: where the block before ends, near the front or anywhere.
fn first_by(style: u64, state: u64, far: usize, block: usize) -> u8 {
    match style {
        0 => going_on(far, block),
        1 => byte_below(state, 8),
        _ => byte_below(state, 256),
    }
}

// A header from where the noise stands, five steps on for each block.
fn header_by(kind: u64, style: u64, state: u64, far: usize, block: usize) -> Header {
    let a = noise(state);
    let b = noise(a);
    let c = noise(b);
    let d = noise(c);
    Header {
        flag: 15 + 128 * (byte_below(a, 2) % 2),
        first: first_by(style, b, far, block),
        count: count_by(kind, style, c),
        byte: type_by(kind, d),
    }
}

fn five_on(state: u64) -> u64 {
    noise(noise(noise(noise(noise(state)))))
}

// Where a block's frames end in the stream, each of 56 bytes.
fn frames_end(header: Header, block: usize) -> usize {
    let base = 506 * (block % 40);
    let start = (2 * usize::from(header.first)).saturating_sub(6);
    base + start + 56 * usize::from(header.count)
}

fn put_header(file: &mut [u8], place: usize, header: Header) {
    put(
        file,
        place,
        &[
            header.flag,
            header.first,
            header.count,
            255,
            header.byte,
            255,
        ],
    );
}

fn put_headers(file: &mut [u8], made: Made, style: u64, seed: u64) {
    let mut state = seed;
    let mut place = made.start;
    let mut far = 0;
    for block in 0..made.blocks {
        let header = header_by(made.kind, style, state, far, block);
        put_header(file, place, header);
        state = five_on(state);
        place = place.wrapping_add(512);
        far = frames_end(header, block);
    }
}

// `dss` or `ds2` after the first byte.
fn put_magic(file: &mut [u8], first: u64, dss: bool) {
    let last = if dss { b's' } else { b'2' };
    put(file, 0, &[(first % 256) as u8, b'd', b's', last]);
}

fn is_dss(kind: u64) -> bool {
    kind == 2 || kind == 3
}

// How many blocks a file has fewer than: twelve, or forty for one in eight.
fn blocks_by(state: u64) -> u64 {
    if state % 8 == 0 { 40 } else { 12 }
}

// What the file of a number is like.
pub fn plan(number: u64) -> Made {
    let a = noise(number);
    let b = noise(a);
    let c = noise(b);
    let d = noise(c);
    let kind = kind_by(below(a, 8));
    let start: usize = if kind == 2 { 1024 } else { 1536 };
    let blocks = (below(b, blocks_by(d)) % 40) as usize;
    let cut = if below(c, 3) == 0 {
        (below(d, 512) % 512) as usize
    } else {
        0
    };
    Made {
        long: start + 512 * blocks + cut,
        start,
        blocks,
        cut,
        kind,
    }
}

// Makes it, in a buffer of its length.
pub fn make(number: u64, made: Made, file: &mut [u8]) {
    let dss = is_dss(made.kind);
    let state = noise(number.wrapping_add(77));
    let first = if dss {
        made.kind
    } else {
        1 + 2 * (below(state, 2) % 2)
    };
    file.fill(0);
    test_tools::fill_with_noise(from_place(file, made.start), state);
    put_headers(file, made, below(noise(state), 4), noise(noise(state)));
    put_magic(file, first, dss);
}

pub fn is_sp(made: Made) -> bool {
    made.kind < 6
}
