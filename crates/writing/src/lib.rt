// DS2 SP files out: from a header that the caller supplies and a list of packets, the file, into lent memory.
// Rests on laying, which lays out blocks, on packets, for where a read lies, on refusals, blocks and tables; and for what reading the file
// gives, on sp.
#![tactic(auto)]

ghost use Rattle.std.specs.Prelude.{◌≡◌, ◌+◌, ◌*◌, ◌/◌, ◌≤◌, ◌<◌, ◌^◌, false, length, get_or};
ghost use Rattle.packets.specs.Walk.{reach};
ghost use Rattle.laying.specs.Inner.{count_at, Holds};
ghost use Rattle.writing.specs.Laying.{sp_laid, many_in, byte_in};
ghost use Rattle.writing.specs.Outcome.{sound_in, Writes};
ghost use Rattle.writing.specs.Inner.{OneOn, SwappedRead, PutsPacket, Ready};

use blocks::{BLOCK, LIMIT, StreamPlace};
use packets::PACKET;
use refusals::Refusal;

// The most packets: their file has exactly as many bytes as the limit.
const MOST: usize = 6_470_444;

// How many packets the list begins with that are all there and have 0 at byte 40.
fn sound_in(packets: &[u8]) -> usize
    ensures { (result ≡ sound_in packets.now) × (result ≤ many_in packets.now) }
{
    let many = packets.len() / PACKET;
    for k in 0..many {
        if packets[PACKET * k + 40] != 0 {
            return k;
        }
    }
    many
}

// How many blocks so many packets take.
fn blocks_for(many: usize) -> usize
    requires { many ≤ 2 ^ 32 }
    ensures { result ≡ (reach false many + 505) / 506 }
{
    (packets::reach(false, many) + 505) / blocks::PAYLOAD
}

// The packet at this place of the list, one place on, so that a blend of two shifts gives its read: 52 places, since the blend looks 4 on.
fn one_on(packets: &[u8], from: usize) -> [u8; 52]
    requires { from + 42 ≤ length packets.now }
    ensures { OneOn (λ i. get_or packets.now (from + i) 0) result }
{
    let mut packet = [0u8; 52];
    tables::copy(&mut packet, 1, packets, from, PACKET);
    packet
}

// The read that gives the packet at this place of the list where it is swapped, and eight idle places.
fn swapped_read(packets: &[u8], from: usize) -> [u8; 48]
    requires { from + 42 ≤ length packets.now }
    ensures { SwappedRead (λ i. get_or packets.now (from + i) 0) result }
{
    packets::blend(one_on(packets, from))
}

// For the crates above too. Puts the packet at this place of the list under a number, behind all that have a lower one, and counts it. Where it
// is swapped its byte 1 goes into the read before it.
pub fn put_packet(out: &mut [u8], number: usize, packets: &[u8], from: usize)
    requires there { from + 42 ≤ length packets.now }
    requires room { (number < 2 ^ 24) × (1536 + 512 * ((reach false (number + 1) + 505) / 506) ≤ length out.old) }
    requires few { get_or out.old (count_at (reach false number)) 0 < 255 }
    ensures { PutsPacket out.old number (λ i. get_or packets.now (from + i) 0) out.new }
{
    let place = packets::reach(false, number);
    if number % 2 == 0 {
        // its own bytes with 0 at byte 40, as nothing follows yet; an array, since the list might overlap the output for all a compiler knows
        let read = packets::packet_bytes(packets, from, false, 0);
        laying::put(out, StreamPlace(place), &read, 0, PACKET);
        laying::count(out, StreamPlace(place), false);
        return;
    }
    let read = swapped_read(packets, from);
    laying::put(out, StreamPlace(place - 2), packets, from + 1, 1);
    laying::put(out, StreamPlace(place), &read, 0, 40);
    laying::count(out, StreamPlace(place), true);
}

// Lays out the file of so many packets, all that the list has.
fn lay(header: &[u8], packets: &[u8], many: usize, out: &mut [u8])
    requires { Ready header.now packets.now many out.old }
    ensures { Holds out.old header.now (sp_laid many (byte_in packets.now)) out.new }
{
    let blocks = blocks_for(many);
    laying::begin(header, 0, blocks, out);
    for k in 0..many {
        put_packet(out, k, packets, PACKET * k);
    }
}

// The DS2 SP file of a header and joined packets, over the front of the output, or a refusal that changes nothing.
pub fn write_ds2_sp(header: &[u8], packets: &[u8], out: &mut [u8]) -> Result<usize, Refusal>
    ensures { Writes header.now packets.now out.old out.new result }
{
    if !laying::is_header(header) {
        return Err(Refusal::Supplied);
    }
    let many = sound_in(packets);
    if PACKET * many != packets.len() {
        return Err(Refusal::Packet(many));
    }
    if MOST < many {
        return Err(Refusal::TooLong(LIMIT));
    }
    let size = laying::HEADER + BLOCK * blocks_for(many);
    if out.len() < size {
        return Err(Refusal::Room(size));
    }
    lay(header, packets, many, out);
    Ok(size)
}
