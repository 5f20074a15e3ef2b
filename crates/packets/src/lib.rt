// SP packets: one read of the payload stream gives one packet. Every function here is for the crates above.
// Rests on blocks, for places and the stream, and on tables.
#![tactic(auto)]

ghost use Rattle.std.specs.Prelude.{◌≡◌, ◌+◌, ◌*◌, ◌≤◌, ◌<◌, ◌^◌, ◌%◌, true, false, cond, length, eqb};
ghost use Rattle.tables.specs.Table.{table};
ghost use Rattle.blocks.specs.Places.{Whole, stream_at};
ghost use Rattle.packets.specs.Packet.{read_size, packet_byte, carry_after, from, file_count, IsPacket};
ghost use Rattle.packets.specs.Start.{dss_start};
ghost use Rattle.packets.specs.Walk.{reach, parity};
ghost use Rattle.packets.specs.Inner.{bytes_of, Shifted, Blends, Blended, Window, upto_unswapped};

use blocks::{FilePlace, PAYLOAD, StreamPlace};

// The size of a packet.
pub const PACKET: usize = 42;

// A read that begins here in its block, or before, ends inside it whatever its parity: 506 less 42.
const LAST_INSIDE: usize = 464;

// A packet, with what the next read needs.
#[derive(Clone, Copy)]
pub struct Packet {
    pub bytes: [u8; 42],
    // How many bytes of its read came from the file.
    pub count: u8,
    pub carry: u8,
    pub next: StreamPlace,
}

// How many bytes a read takes.
pub fn read_size(swap: bool) -> usize
    ensures { (result ≡ read_size swap) × (result ≤ 42) }
{
    if swap { 40 } else { 42 }
}

// How many bytes of a read at q come from a stream of so many bytes.
#[tactic(auto, unfolding(crate::specs::Packet::file_count))]
pub fn file_count(long: usize, q: StreamPlace, swap: bool) -> u8
    ensures { result ≡ file_count long swap q.0 }
{
    read_size(swap).min(long.saturating_sub(q.0)) as u8
}

// How far k packets go.
pub fn reach(swap: bool, k: usize) -> usize
    requires { k ≤ 2 ^ 48 }
    ensures { result ≡ reach swap k }
{
    if swap {
        return 41 * k - k % 2;
    }
    41 * k + k % 2
}

// The parity after k packets.
pub fn parity(swap: bool, k: usize) -> bool
    ensures { result ≡ parity swap k }
{
    if k % 2 == 0 { swap } else { !swap }
}

// How many of k reads there are up to the last unswapped one: all, if the next is swapped, and else all but the last.
pub fn upto_unswapped(swap: bool, k: usize) -> usize
    ensures { result ≡ upto_unswapped swap k }
{
    if parity(swap, k) {
        return k;
    }
    k.saturating_sub(1)
}

// How many reads end at or before m: a pair takes 82 bytes, and what is left of them is one read more or none.
pub fn reads_within(swap: bool, m: usize) -> usize
    requires { m ≤ 2 ^ 48 }
    ensures { (reach swap result ≤ m) × (m < reach swap (result + 1)) × (result ≤ m) }
{
    let pairs = m / 82;
    let left = m % 82;
    let first = read_size(swap);
    if left < first {
        return 2 * pairs;
    }
    2 * pairs + 1
}

// 1 for a swapped read.
pub fn swap_bit(swap: bool) -> usize
    ensures { (result ≡ cond swap 1 0) × (result ≤ 1) }
{
    usize::from(swap)
}

// Where the frames of a DSS block start, by its number, its byte 1 and its flag. A file within the limit has under 2^20 blocks.
pub fn dss_start(block: usize, byte1: usize, swap: bool) -> StreamPlace
    requires { (block ≤ 2 ^ 48) × (byte1 ≤ 255) }
    ensures { result.0 ≡ dss_start block byte1 swap }
{
    let base = PAYLOAD * block;
    let far = 2 * byte1 + 2 * swap_bit(swap);
    if far < 6 {
        return StreamPlace(base);
    }
    StreamPlace(base + PAYLOAD.min(far - 6))
}

// The 42 bytes that lie together there, byte 40 set to 0: an unswapped read's packet.
fn plain(src: &[u8], at: usize) -> [u8; 42]
    requires { at + 42 ≤ length src.now }
    ensures { result ≡ table 42 (packet_byte false 0 (from (bytes_of src.now) at)) }
{
    let mut bytes = [0u8; 42];
    tables::copy(&mut bytes, 0, src, at, 42);
    bytes[40] = 0;
    bytes
}

// The 40 bytes of a swapped read, 3 places on, behind the carried byte, so that a blend of two shifts gives the packet: 52 places,
// since the blend looks 4 on.
fn shifted(src: &[u8], at: usize, carry: u8) -> [u8; 52]
    requires { at + 40 ≤ length src.now }
    ensures { Shifted carry (from (bytes_of src.now) at) result }
{
    let mut read = [0u8; 52];
    read[1] = carry;
    tables::copy(&mut read, 3, src, at, 40);
    read
}

fn either(k: usize, even: u8, odd: u8) -> u8
    ensures { result ≡ cond (eqb (k % 2) 0) even odd }
{
    if k % 2 == 0 { even } else { odd }
}

// For the crates above too. What stands 4 on at even places, and as it stands at odd ones: 48 and not 42 places, so that it is whole vectors.
pub fn blend(read: [u8; 52]) -> [u8; 48]
    ensures { Blends read result }
{
    let mut blend = [0u8; 48];
    for k in 0..48 {
        blend[k] = either(k, read[k + 4], read[k]);
    }
    blend
}

// A swapped read's packet and six idle places.
fn blended(src: &[u8], at: usize, carry: u8) -> [u8; 48]
    requires { at + 40 ≤ length src.now }
    ensures { Blended carry (from (bytes_of src.now) at) result }
{
    let read = shifted(src, at, carry);
    blend(read)
}

// A swapped read's packet.
fn swapped(src: &[u8], at: usize, carry: u8) -> [u8; 42]
    requires { at + 40 ≤ length src.now }
    ensures { result ≡ table 42 (packet_byte true carry (from (bytes_of src.now) at)) }
{
    let blend = blended(src, at, carry);
    let mut bytes = [0u8; 42];
    tables::copy(&mut bytes, 0, &blend, 0, 42);
    bytes
}

// A packet from a read whose bytes lie together.
pub fn packet_bytes(src: &[u8], at: usize, swap: bool, carry: u8) -> [u8; 42]
    requires { at + read_size swap ≤ length src.now }
    ensures { result ≡ table 42 (packet_byte swap carry (from (bytes_of src.now) at)) }
{
    if swap {
        return swapped(src, at, carry);
    }
    plain(src, at)
}

// What is carried after a read whose bytes lie together.
pub fn carry_after(src: &[u8], at: usize, swap: bool, carry: u8) -> u8
    requires { at + read_size swap ≤ length src.now }
    ensures { result ≡ carry_after swap carry (from (bytes_of src.now) at) }
{
    if swap {
        return carry;
    }
    src[at + 40]
}

// The 42 bytes of the stream from q on, by one run in each of two blocks; 0 past the stream's end.
fn seam(file: &[u8], a: FilePlace, blocks: usize, q: StreamPlace) -> [u8; 42]
    requires { Whole file.now a.0 blocks × (q.0 < 2 ^ 62) }
    ensures { Window (stream_at file.now a.0 blocks) q.0 result }
{
    let mut window = [0u8; 42];
    let at = q.0;
    let block = at / PAYLOAD;
    if blocks <= block {
        return window;
    }
    let here = blocks::in_file(a, q);
    let n = PACKET.min(PAYLOAD - at % PAYLOAD);
    tables::copy(&mut window, 0, file, here.0, n);
    let next = block + 1;
    if blocks <= next {
        return window;
    }
    let there = blocks::in_file(a, StreamPlace(PAYLOAD * next));
    tables::copy(&mut window, n, file, there.0, 42 - n);
    window
}

// The packet that a read at q gives. No walk comes near 2^62: of under 2^20 blocks each
// announces at most 255 packets, of 42 bytes at most.
pub fn read_packet(
    file: &[u8],
    a: FilePlace,
    blocks: usize,
    q: StreamPlace,
    swap: bool,
    carry: u8,
) -> Packet
    requires { Whole file.now a.0 blocks × (q.0 < 2 ^ 62) }
    ensures { IsPacket (stream_at file.now a.0 blocks) (506 * blocks) swap carry q.0 result }
{
    let at = q.0;
    let next = at + read_size(swap);
    if at / PAYLOAD < blocks && at % PAYLOAD <= LAST_INSIDE {
        let here = blocks::in_file(a, q);
        return Packet {
            bytes: packet_bytes(file, here.0, swap, carry),
            count: read_size(swap) as u8,
            carry: carry_after(file, here.0, swap, carry),
            next: StreamPlace(next),
        };
    }
    let window = seam(file, a, blocks, q);
    Packet {
        bytes: packet_bytes(&window, 0, swap, carry),
        count: file_count(PAYLOAD * blocks, q, swap),
        carry: carry_after(&window, 0, swap, carry),
        next: StreamPlace(next),
    }
}
