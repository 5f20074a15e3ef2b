// Laying out a DS2 file in lent memory: a caller's header and silent blocks, then bytes put into the payload stream, and frames counted in
// the header of the block that they begin in. Every function here is for the crates above. Rests on blocks, magic and tables, and for its
// laws on detect and whole, which read what is laid.
#![tactic(auto)]

ghost use Rattle.std.specs.Prelude.{◌≡◌, ◌+◌, ◌*◌, ◌/◌, ◌≤◌, ◌<◌, ◌^◌, ◌||◌, length, get_or, eqb};
ghost use Rattle.tables.specs.Lent.{Leaves};
ghost use Rattle.laying.specs.Header.{is_header};
ghost use Rattle.laying.specs.Laid.{flag_byte, place_byte, block_byte, file_byte};
ghost use Rattle.laying.specs.Inner.{no_frames, Puts, head_at, count_at, Counts};

use blocks::{BLOCK, FilePlace, PAYLOAD, StreamPlace};

// The size of the header that a caller supplies, and so where the audio starts.
pub const HEADER: usize = 1536;

// The first byte of a header that a caller may supply.
fn is_first(first: u8) -> bool
    ensures { result ≡ (eqb first 1 || eqb first 3) }
{
    first == 1 || first == 3
}

// Whether a caller may supply this header.
#[tactic(auto, unfolding(crate::specs::Header::is_header))]
pub fn is_header(header: &[u8]) -> bool
    ensures { result ≡ is_header header.now }
{
    header.len() == HEADER && is_first(header[0]) && magic::is_spelt(header, b'd', b's', b'2')
}

// Lays a block of this type, with no frame in it, at a place of the file.
fn lay_silent(out: &mut [u8], at: usize, kind: u8)
    requires { at + 512 ≤ length out.old }
    ensures { Leaves out.old at 512 (block_byte (no_frames kind) 0) out.new }
{
    tables::clear(out, at, BLOCK);
    out[at] = 0x0F;
    out[at + 3] = 0xFF;
    out[at + 4] = kind;
    out[at + 5] = 0xFF;
}

// Lays the header, and after it so many blocks of this type with no frame in them.
pub fn begin(header: &[u8], kind: u8, blocks: usize, out: &mut [u8])
    requires { (length header.now ≡ 1536) × (1536 + 512 * blocks ≤ length out.old) }
    ensures { Leaves out.old 0 (1536 + 512 * blocks) (file_byte header.now (no_frames kind)) out.new }
{
    tables::copy(out, 0, header, 0, HEADER);
    for block in 0..blocks {
        lay_silent(out, HEADER + BLOCK * block, kind);
    }
}

// Puts so many bytes of a source, from one of its places on, at a place of the payload stream. They cross one block's end at most.
pub fn put(out: &mut [u8], place: StreamPlace, source: &[u8], from: usize, size: usize)
    requires few { (0 < size) × (size ≤ 506) × (from + size ≤ length source.now) }
    requires room { (place.0 < 2 ^ 32) × (1536 + 512 * ((place.0 + size + 505) / 506) ≤ length out.old) }
    ensures { Puts out.old place.0 size (λ i. get_or source.now (from + i) 0) out.new }
{
    let at = place.0;
    let here = blocks::in_file(FilePlace(HEADER), place);
    let to = here.0;
    let inside = at % PAYLOAD;
    if inside + size <= PAYLOAD {
        tables::copy(out, to, source, from, size);
        return;
    }
    let first = PAYLOAD - inside;
    tables::copy(out, to, source, from, first);
    let rest = size - first;
    let next = to + first + blocks::HEADER;
    tables::copy(out, next, source, from + first, rest);
}

// Byte 0 of a block's header whose first frame is swapped or not.
fn flag_byte(swap: bool) -> u8
    ensures { result ≡ flag_byte swap }
{
    if swap { 0x8F } else { 0x0F }
}

// Byte 1, if that frame begins at this place of the payload stream.
fn place_byte(at: usize) -> u8
    ensures { result ≡ place_byte at }
{
    (3 + at % PAYLOAD / 2) as u8
}

// Counts a frame that begins at a place of the payload stream; bytes 0 and 1 tell of the first in a block.
pub fn count(out: &mut [u8], place: StreamPlace, swap: bool)
    requires room { (place.0 < 2 ^ 32) × (head_at place.0 + 3 ≤ length out.old) }
    requires few { get_or out.old (count_at place.0) 0 < 255 }
    ensures { Counts out.old place.0 swap out.new }
{
    let at = place.0;
    let head = HEADER + BLOCK * (at / PAYLOAD);
    let counted = out[head + 2];
    if 0 < counted {
        out[head + 2] = counted + 1;
        return;
    }
    let flag = flag_byte(swap);
    let first = place_byte(at);
    out[head] = flag;
    out[head + 1] = first;
    out[head + 2] = 1;
}
