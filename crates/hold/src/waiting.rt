// DSS blocks that wait: bytes 0 to 2 of their headers, three for each, the front block's first. A block leaves when all its reads are
// complete, and no block leaves before an earlier one. For the rest of this crate and for the crates above. Rests on packets, for where a
// block starts, on sp, for runs, and on tables.
ghost use Rattle.std.specs.Prelude.{◌≡◌, List, true, ℕ, ◌+◌, ◌*◌, ◌-◌, ◌≤◌, ◌<◌, length, get_or};
ghost use Rattle.tables.specs.Lent.{Leaves};
ghost use Rattle.blocks.specs.Headers.{announced_in, flag_of, header_byte};
ghost use Rattle.sp.specs.ReadLists.{dss_run};
ghost use Rattle.hold.specs.Ready.{reading_in, read_in, front};
ghost use Rattle.hold.specs.Held.{headers_from};
ghost use Rattle.hold.specs.Inner.{PartWritten, Queued};

use crate::Released;
use blocks::{PAYLOAD, StreamPlace};
use sp::Run;

// Bit 7 of a header's byte 0.
pub fn flag(byte: u8) -> bool
    ensures { result ≡ flag_of byte }
{
    128 <= byte
}

// Enters a block behind i others.
pub fn enter(waiting: &mut [u8; 66], i: usize, source: &[u8], at: usize)
    requires { (i < 22) × (at + 3 ≤ length source.now) }
    ensures { Leaves waiting.old (3 * i) 3 (λ k. get_or source.now (at + k) 0) waiting.new }
{
    tables::copy(waiting, 3 * i, source, at, 3);
}

// The run of a block, by its number and its header's bytes 0 to 2.
pub fn block_run(block: usize, byte0: u8, byte1: u8, byte2: u8) -> Run
    requires { block ≤ 524288 }
    ensures { (result.count ≤ 255) × (result.start.0 ≤ 506 * block + 506) × ((f : List ℕ) (a : ℕ) → byte0 ≡ header_byte f a block 0 → byte1 ≡ header_byte f a block 1 → byte2 ≡ header_byte f a block 2 → result ≡ dss_run f a block) }
{
    let swap = flag(byte0);
    Run {
        start: packets::dss_start(block, usize::from(byte1), swap),
        swap,
        count: usize::from(byte2),
    }
}

// The run of the i-th block that waits, whose number is this.
pub fn waiting_run(waiting: &[u8; 66], i: usize, block: usize) -> Run
    requires { (i < 22) × (block ≤ 524288) }
    ensures { (result.count ≤ 255) × (result.start.0 ≤ 506 * block + 506) × ((f : List ℕ) (a n j : ℕ) → waiting.now ≡ headers_from f a n j → j + i ≡ block → block < n → result ≡ dss_run f a block) }
{
    let at = 3 * i;
    block_run(block, waiting[at], waiting[at + 1], waiting[at + 2])
}

// How many of the blocks that wait can leave when n blocks are there, the first being block j; and how many packets they have.
pub fn released(waiting: &[u8; 66], j: usize, n: usize) -> Released
    requires { (j ≤ n) × (n ≤ j + 22) × (n ≤ 524288) }
    ensures { (result.blocks ≤ n - j) × ((f : List ℕ) (a : ℕ) → waiting.now ≡ headers_from f a n j → ((b : ℕ) → b < j → read_in f a n b ≡ true) → (j + result.blocks ≡ front f a n) × (announced_in f a j + result.packets ≡ announced_in f a (front f a n))) }
{
    let long = PAYLOAD * n;
    let mut packets: usize = 0;
    for blocks in 0..n - j {
        let run = waiting_run(waiting, blocks, j + blocks);
        if long < crate::places::ends_at(run) {
            return Released { blocks, packets };
        }
        packets += run.count;
    }
    Released {
        blocks: n - j,
        packets,
    }
}

// Hands out m packets of the blocks that wait, the first being block j of n, d packets after its first; gives back what is carried on.
pub fn write_waiting(
    hold: &[u8; 12288],
    waiting: &[u8; 66],
    n: usize,
    j: usize,
    d: usize,
    m: usize,
    carry: u8,
    number: usize,
    out: &mut [u8],
    counts: &mut [u8],
) -> u8
    requires { Queued n j d m number hold.now waiting.now carry (length out.old) (length counts.old) }
    ensures { (g : Queued n j d m number hold.now waiting.now carry (length out.old) (length counts.old)) → PartWritten (reading_in true g.f g.a n) (announced_in g.f g.a j + d) m number out.old out.new counts.old counts.new result }
{
    let base = StreamPlace(PAYLOAD * j);
    let long = PAYLOAD * n;
    let mut skip = d;
    let mut left = m;
    let mut carried = carry;
    for block in j..n {
        if left == 0 {
            return carried;
        }
        let run = waiting_run(waiting, block - j, block);
        let here = skip.min(run.count);
        let some = (run.count - here).min(left);
        let part = crate::places::part_of(run, here, some);
        let to = number + (m - left);
        carried = crate::write_held(hold, base, long, part, carried, to, out, counts);
        skip -= here;
        left -= some;
    }
    carried
}
