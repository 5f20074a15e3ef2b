// Whole SP reading: a DSS file's packets, or a DS2 SP file's, into lent memory. The two differ only in their list of reads.
// Rests on whole, which says whether the file is taken, on packets, which gives a packet for a read, on refusals, blocks and tables.
#![tactic(auto)]

ghost use Rattle.std.specs.Prelude.{ℕ, ◌≡◌, ◌+◌, ◌*◌, ◌/◌, ◌≤◌, ◌<◌, ◌^◌, min, cond, length, get_or, leb};
ghost use Rattle.tables.specs.Lent.{Leaves};
ghost use Rattle.blocks.specs.Places.{Whole, stream_at};
ghost use Rattle.packets.specs.Packet.{IsPacket};
ghost use Rattle.refusals.specs.Said.{answers};
ghost use Rattle.whole.specs.Admissions.{announced_by};
ghost use Rattle.sp.specs.Runs.{run_begin};
ghost use Rattle.sp.specs.ReadLists.{dss_run, dss_runs, ds2_runs};
ghost use Rattle.sp.specs.Readings.{reading_of, dss_reading, ds2_reading};
ghost use Rattle.sp.specs.Outcome.{Demuxes};
ghost use Rattle.sp.specs.Written.{Written};
ghost use Rattle.sp.specs.Inner.{MayRead, EachRead, Goes, RunWritten, Readable, Ready};

use blocks::{FilePlace, StreamPlace};
use detect::Kind;
use packets::{PACKET, Packet};
use refusals::Refusal;
use whole::Recording;

// Reads that follow one another: from a start, by a parity to begin with, so many packets. Public for the definitions and for the
// crates above.
#[derive(Clone, Copy)]
pub struct Run {
    pub start: StreamPlace,
    pub swap: bool,
    pub count: usize,
}

// For the crates above too. Puts a packet and its count under a number.
pub fn put(packet: Packet, number: usize, out: &mut [u8], counts: &mut [u8])
    requires room { (42 * (number + 1) ≤ length out.old) × (number < length counts.old) }
    ensures bytes { Leaves out.old (42 * number) 42 (λ i. get_or packet.bytes i 0) out.new }
    ensures count { Leaves counts.old number 1 (λ i. packet.count) counts.new }
{
    tables::copy(out, PACKET * number, &packet.bytes, 0, PACKET);
    counts[number] = packet.count;
}

// For the crates above too. Hands out the packets of a run after `base` others, each as `read` gives it for its place, its parity and what
// is carried to it, and gives back what is carried on.
pub fn hand_out_run<F: Fn(StreamPlace, bool, u8) -> Packet>(
    read: F,
    run: Run,
    carry: u8,
    base: usize,
    out: &mut [u8],
    counts: &mut [u8],
) -> u8
    requires may { MayRead (F.pre read) run }
    requires goes { EachRead (F.post read) run Goes }
    requires room { (42 * (base + run.count) ≤ length out.old) × (base + run.count ≤ length counts.old) }
    ensures { (s : ℕ → ℕ) (long : ℕ) → EachRead (F.post read) run (IsPacket s long) → RunWritten s long (run_begin carry run) base run.count out.old out.new counts.old counts.new result }
{
    let mut place = run.start;
    let mut swap = run.swap;
    let mut carried = carry;
    for n in 0..run.count {
        let packet = read(place, swap, carried);
        place = packet.next;
        carried = packet.carry;
        swap = !swap;
        put(packet, base + n, out, counts);
    }
    carried
}

// For the crates above too. Hands out the packets of a run from a file, as hand_out_run does. The bounds on place and number are far above
// a file's, and keep every place below the 2^62 of read_packet.
pub fn write_run(
    file: &[u8],
    recording: Recording,
    run: Run,
    carry: u8,
    base: usize,
    out: &mut [u8],
    counts: &mut [u8],
) -> u8
    requires whole { Whole file.now recording.start.0 recording.blocks }
    requires near { (run.start.0 ≤ 2 ^ 48) × (run.count ≤ 2 ^ 48) }
    requires room { (42 * (base + run.count) ≤ length out.old) × (base + run.count ≤ length counts.old) }
    ensures { RunWritten (stream_at file.now recording.start.0 recording.blocks) (506 * recording.blocks) (run_begin carry run) base run.count out.old out.new counts.old counts.new result }
{
    let start = recording.start;
    let blocks = recording.blocks;
    hand_out_run(
        |place, swap, carried| packets::read_packet(file, start, blocks, place, swap, carried),
        run,
        carry,
        base,
        out,
        counts,
    )
}

// For the crates above too. The run of a DSS block.
pub fn dss_run(file: &[u8], a: FilePlace, block: usize) -> Run
    requires { Whole file.now a.0 (block + 1) × (block ≤ 2 ^ 32) }
    ensures { (result ≡ dss_run file.now a.0 block) × (result.count ≤ 255) }
{
    let byte1 = usize::from(blocks::header_byte(file, a, block, 1));
    let swap = blocks::swap_flag(file, a, block);
    let start = packets::dss_start(block, byte1, swap);
    let count = blocks::count_byte(file, a, block);
    Run { start, swap, count }
}

// Hands out a DSS recording: each announcing block starts anew, and the carry runs on. A silent block is a run of no packets.
fn write_dss(file: &[u8], recording: Recording, out: &mut [u8], counts: &mut [u8])
    requires { Ready file.now recording out.old counts.old }
    ensures { Written (reading_of file.now recording dss_runs) out.old out.new counts.old counts.new }
{
    let mut first: usize = 0;
    let mut carry: u8 = 0;
    for block in 0..recording.blocks {
        let run = dss_run(file, recording.start, block);
        carry = write_run(file, recording, run, carry, first, out, counts);
        first += run.count;
    }
}

// Hands out a DS2 recording that announces so many packets: one continuous run.
fn write_ds2(file: &[u8], recording: Recording, needed: usize, out: &mut [u8], counts: &mut [u8])
    requires { Ready file.now recording out.old counts.old × (needed ≡ announced_by file.now recording) }
    ensures { Written (reading_of file.now recording ds2_runs) out.old out.new counts.old counts.new }
{
    if needed == 0 {
        return;
    }
    let run = Run {
        start: StreamPlace(0),
        swap: blocks::swap_flag(file, recording.start, 0),
        count: needed,
    };
    write_run(file, recording, run, 0, 0, out, counts);
}

// For the crates above too. Whether so many packets find room in an output and a count table of these lengths.
pub fn has_room(needed: usize, out: usize, counts: usize) -> bool
    ensures { result ≡ leb needed (min (out / 42) counts) }
{
    needed <= counts.min(out / PACKET)
}

// Hands out a recording that announces so many packets, and for which there is room. `cond dss ..` is one contract and one law for both kinds; of a
// closure in its place each would have to say what it may write to either buffer.
fn hand_out(
    file: &[u8],
    recording: Recording,
    dss: bool,
    needed: usize,
    out: &mut [u8],
    counts: &mut [u8],
)
    requires { Ready file.now recording out.old counts.old × (needed ≡ announced_by file.now recording) }
    ensures { Written (reading_of file.now recording (cond dss dss_runs ds2_runs)) out.old out.new counts.old counts.new }
{
    if dss {
        write_dss(file, recording, out, counts);
        return;
    }
    write_ds2(file, recording, needed, out, counts);
}

// Hands out a recording if there is room for all its packets.
fn read(
    file: &[u8],
    recording: Recording,
    dss: bool,
    out: &mut [u8],
    counts: &mut [u8],
) -> Result<usize, Refusal>
    requires { Readable file.now recording }
    ensures { Demuxes (answers (reading_of file.now recording (cond dss dss_runs ds2_runs))) out.old out.new counts.old counts.new result }
{
    let needed = recording.announced(file);
    if !has_room(needed, out.len(), counts.len()) {
        return Err(Refusal::Room(needed));
    }
    hand_out(file, recording, dss, needed, out, counts);
    Ok(needed)
}

// The packets of a DSS file and their file-byte counts, or a refusal that changes nothing.
#[tactic(auto, using(crate::proofs::Outcome::may_read), unfolding(crate::specs::Readings::dss_reading, crate::specs::Outcome::in_room))]
pub fn demux_dss(file: &[u8], out: &mut [u8], counts: &mut [u8]) -> Result<usize, Refusal>
    ensures { Demuxes (dss_reading file.now) out.old out.new counts.old counts.new result }
{
    let recording = whole::admit(file, true, false)?;
    read(file, recording, true, out, counts)
}

// The packets of a DS2 SP file and their file-byte counts, or a refusal that changes nothing.
#[tactic(auto, using(crate::proofs::Outcome::may_read), unfolding(crate::specs::Readings::ds2_reading, crate::specs::Outcome::in_room))]
pub fn demux_ds2(file: &[u8], out: &mut [u8], counts: &mut [u8]) -> Result<usize, Refusal>
    ensures { Demuxes (ds2_reading file.now) out.old out.new counts.old counts.new result }
{
    let recording = whole::admit_ds2(file, Kind::Sp)?;
    read(file, recording, false, out, counts)
}
