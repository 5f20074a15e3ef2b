// What is held of a recording between its blocks: packets from the hold, which has the stream's bytes from a base on, or from a payload
// where it stands. Rests on packets, for a packet from bytes that lie together, on sp, for runs and how one is handed out, on blocks and
// on tables. What is public here is for the crates above.
#![tactic(auto)]

ghost use Rattle.std.specs.Prelude.{◌≡◌, cond, ℕ, ◌+◌, ◌*◌, ◌≤◌, ◌<◌, ◌^◌, eqb, length, get_or};
ghost use Rattle.tables.specs.Table.{table};
ghost use Rattle.packets.specs.Packet.{read_size, IsPacket};
ghost use Rattle.sp.specs.Runs.{run_begin};
ghost use Rattle.sp.specs.Inner.{RunWritten};
ghost use Rattle.hold.specs.Ready.{ends_at};
ghost use Rattle.hold.specs.Inner.{Holds, Bears};

use blocks::StreamPlace;
use packets::{PACKET, Packet};
use sp::Run;

// Runs with no walk.
pub mod places;

// Bytes into the hold and out of it.
pub mod bytes;

// DSS blocks that wait.
pub mod waiting;

// The most bytes that are held. What is held lies in arrays with numbers beside them, and in no Vec: a reader has fixed memory and no heap.
pub const HOLD: usize = 12288;

// The numbers beside the hold: frames announced, packets ready, where the hold begins, the first block's byte 0, what is carried.
#[derive(Clone, Copy)]
pub struct Standing {
    pub announced: usize,
    pub ready: usize,
    pub base: StreamPlace,
    pub first: u8,
    pub carry: u8,
}

// Blocks that leave, and the packets that they have.
#[derive(Clone, Copy)]
pub struct Released {
    pub blocks: usize,
    pub packets: usize,
}

// Byte 0 of the first block, which is known or is this block's.
pub fn first_byte(b: usize, known: u8, here: u8) -> u8
    ensures { result ≡ cond (eqb b 0) here known }
{
    if b == 0 { here } else { known }
}

// A read that begins here in the hold, or before, lies in it whatever its parity: 12,288 less 42.
const LAST_INSIDE: usize = 12246;

// The 42 bytes from there on, 0 past the hold's end.
fn window(hold: &[u8; 12288], at: usize) -> [u8; 42]
    ensures { result ≡ table 42 (λ i. get_or hold.now (at + i) 0) }
{
    let mut window = [0u8; PACKET];
    let begin = at.min(HOLD);
    let n = (HOLD - begin).min(PACKET);
    tables::copy(&mut window, 0, hold, begin, n);
    window
}

// The packet that a read at q gives, of a stream of so many bytes.
pub fn held_packet(
    hold: &[u8; 12288],
    base: StreamPlace,
    long: usize,
    q: StreamPlace,
    swap: bool,
    carry: u8,
) -> Packet
    requires { (base.0 ≤ q.0) × (q.0 < 2 ^ 62) }
    ensures { (result.next.0 ≡ q.0 + read_size swap) × ((s : ℕ → ℕ) → Holds s long base.0 hold.now → IsPacket s long swap carry q.0 result) }
{
    let at = q.0 - base.0;
    let next = StreamPlace(q.0 + packets::read_size(swap));
    let count = packets::file_count(long, q, swap);
    if at <= LAST_INSIDE {
        return Packet {
            bytes: packets::packet_bytes(hold, at, swap, carry),
            count,
            carry: packets::carry_after(hold, at, swap, carry),
            next,
        };
    }
    let window = window(hold, at);
    Packet {
        bytes: packets::packet_bytes(&window, 0, swap, carry),
        count,
        carry: packets::carry_after(&window, 0, swap, carry),
        next,
    }
}

// Hands out the packets of a run from the hold after `number` others, and gives back what is carried on.
pub fn write_held(
    hold: &[u8; 12288],
    base: StreamPlace,
    long: usize,
    run: Run,
    carry: u8,
    number: usize,
    out: &mut [u8],
    counts: &mut [u8],
) -> u8
    requires held { base.0 ≤ run.start.0 }
    requires near { (run.start.0 ≤ 2 ^ 48) × (run.count ≤ 2 ^ 48) }
    requires room { (42 * (number + run.count) ≤ length out.old) × (number + run.count ≤ length counts.old) }
    ensures { (s : ℕ → ℕ) → Holds s long base.0 hold.now → RunWritten s long (run_begin carry run) number run.count out.old out.new counts.old counts.new result }
{
    sp::hand_out_run(
        |place, swap, carried| held_packet(hold, base, long, place, swap, carried),
        run,
        carry,
        number,
        out,
        counts,
    )
}

// The packet that a read at q gives, which lies in one payload: 506 bytes of a source from a place on, the stream's from a base on.
fn source_packet(
    source: &[u8],
    at: usize,
    base: StreamPlace,
    q: StreamPlace,
    swap: bool,
    carry: u8,
) -> Packet
    requires { (at + 506 ≤ length source.now) × (base.0 ≤ q.0) × (q.0 + read_size swap ≤ base.0 + 506) × (q.0 < 2 ^ 62) }
    ensures { (result.next.0 ≡ q.0 + read_size swap) × ((s : ℕ → ℕ) → Bears source.now at base.0 s → IsPacket s (base.0 + 506) swap carry q.0 result) }
{
    let size = packets::read_size(swap);
    let here = at + (q.0 - base.0);
    Packet {
        bytes: packets::packet_bytes(source, here, swap, carry),
        count: size as u8,
        carry: packets::carry_after(source, here, swap, carry),
        next: StreamPlace(q.0 + size),
    }
}

// Hands out, as write_held does, the packets of a run whose reads all lie in one payload.
pub fn write_through(
    source: &[u8],
    at: usize,
    base: StreamPlace,
    run: Run,
    carry: u8,
    number: usize,
    out: &mut [u8],
    counts: &mut [u8],
) -> u8
    requires inside { (at + 506 ≤ length source.now) × (base.0 ≤ run.start.0) × (ends_at run ≤ base.0 + 506) }
    requires near { (run.start.0 ≤ 2 ^ 48) × (run.count ≤ 2 ^ 48) }
    requires room { (42 * (number + run.count) ≤ length out.old) × (number + run.count ≤ length counts.old) }
    ensures { (s : ℕ → ℕ) → Bears source.now at base.0 s → RunWritten s (base.0 + 506) (run_begin carry run) number run.count out.old out.new counts.old counts.new result }
{
    sp::hand_out_run(
        |place, swap, carried| source_packet(source, at, base, place, swap, carried),
        run,
        carry,
        number,
        out,
        counts,
    )
}
