// Blocks and places: a file's blocks after the audio start, their headers' fields, and the payload stream.
// Every function here is for the crates above. Rests on tables. File and audio start go side by side, and clauses say `Whole file.now ..` of them:
// a struct of both would have moments of its own, and make the clauses longer.
#![tactic(auto)]

ghost use Rattle.std.specs.Prelude.{◌≡◌, ◌+◌, ◌*◌, ◌<◌, ◌≤◌, ◌^◌, length, get_or};
ghost use Rattle.blocks.specs.Places.{whole_blocks, Whole, file_of, stream_at, payload_of};
ghost use Rattle.blocks.specs.Headers.{header_byte, swap_of, count_of, announced_in};

pub const BLOCK: usize = 512;

pub const HEADER: usize = 6;

pub const PAYLOAD: usize = 506;

// The most bytes that a file, or all pieces of one, may have.
pub const LIMIT: usize = 268_435_456;

// A place in the file.
#[derive(Clone, Copy, Debug, PartialEq, Eq)]
pub struct FilePlace(pub usize);

// A place in the payload stream.
#[derive(Clone, Copy, Debug, PartialEq, Eq)]
pub struct StreamPlace(pub usize);

// The one way from the stream to the file.
pub fn in_file(a: FilePlace, q: StreamPlace) -> FilePlace
    requires { file_of a.0 q.0 < 2 ^ 64 }
    ensures { result.0 ≡ file_of a.0 q.0 }
{
    let start = a.0;
    let at = q.0;
    FilePlace(start + BLOCK * (at / PAYLOAD) + HEADER + at % PAYLOAD)
}

// How many whole blocks a file of so many bytes has after a.
pub fn whole_blocks(long: usize, a: FilePlace) -> usize
    ensures { result ≡ whole_blocks long a.0 }
{
    let start = a.0;
    if long < start {
        return 0;
    }
    (long - start) / BLOCK
}

// Byte i of a block's header.
pub fn header_byte(file: &[u8], a: FilePlace, block: usize, i: usize) -> u8
    requires { Whole file.now a.0 (block + 1) × (i < 6) }
    ensures { result ≡ header_byte file.now a.0 block i }
{
    let at = a.0 + BLOCK * block + i;
    file[at]
}

// Byte 0 bit 7: whether the block's first read is swapped.
pub fn swap_flag(file: &[u8], a: FilePlace, block: usize) -> bool
    requires { Whole file.now a.0 (block + 1) }
    ensures { result ≡ swap_of file.now a.0 block }
{
    128 <= header_byte(file, a, block, 0)
}

// Byte 2: how many frames the block announces.
pub fn count_byte(file: &[u8], a: FilePlace, block: usize) -> usize
    requires { Whole file.now a.0 (block + 1) }
    ensures { (result ≡ count_of file.now a.0 block) × (result ≤ 255) }
{
    usize::from(header_byte(file, a, block, 2))
}

// How many frames the first blocks announce.
pub fn announced(file: &[u8], a: FilePlace, blocks: usize) -> usize
    requires { Whole file.now a.0 blocks }
    ensures { (result ≡ announced_in file.now a.0 blocks) × (result ≤ 255 * blocks) }
{
    let mut sum: usize = 0;
    for block in 0..blocks {
        sum += count_byte(file, a, block);
    }
    sum
}

// The byte at a place of the payload stream that lies in the file.
pub fn stream_byte(file: &[u8], a: FilePlace, q: StreamPlace) -> u8
    requires { file_of a.0 q.0 < length file.now }
    ensures { result ≡ get_or file.now (file_of a.0 q.0) 0 }
{
    let place = in_file(a, q);
    let at = place.0;
    file[at]
}

// The byte at a place of the payload stream of so many whole blocks, and 0 past its end.
pub fn byte_or_zero(file: &[u8], a: FilePlace, blocks: usize, q: StreamPlace) -> u8
    requires { Whole file.now a.0 blocks }
    ensures { result ≡ stream_at file.now a.0 blocks q.0 }
{
    if PAYLOAD * blocks <= q.0 {
        return 0;
    }
    stream_byte(file, a, q)
}

// The payload of a whole block, as those bytes of the file itself.
pub fn payload_part(file: &[u8], a: FilePlace, block: usize) -> &[u8]
    requires { Whole file.now a.0 (block + 1) }
    ensures { result.now ≡ payload_of file.now a.0 block }
{
    let first = in_file(a, StreamPlace(PAYLOAD * block));
    let start = first.0;
    let end = start + PAYLOAD;
    &file[start..end]
}
