// The entry for a packet's number, by an index that is held to its file first; and the packet itself, its carried byte included, into lent memory.
// Rests on index, which holds an index to its file, on entries, on whole, on packets, for where a read lies, on sp, which makes the read, on
// refusals and blocks.
#![tactic(auto)]

ghost use Rattle.std.specs.Prelude.{◌≡◌, ◌+◌, ◌-◌, ◌≤◌, ◌<◌, ◌^◌, length};
ghost use Rattle.blocks.specs.Places.{Whole};
ghost use Rattle.refusals.specs.Said.{answers, result_says};
ghost use Rattle.whole.specs.Admissions.{stream_in, Sound};
ghost use Rattle.packets.specs.Walk.{steps, reach};
ghost use Rattle.sp.specs.Runs.{run_begin};
ghost use Rattle.sp.specs.ReadLists.{dss_run};
ghost use Rattle.sp.specs.Outcome.{Demuxes};
ghost use Rattle.sp.specs.Written.{Written};
ghost use Rattle.sp.specs.Inner.{Readable};
ghost use Rattle.entries.specs.Inner.{entry_place};
ghost use Rattle.finding.specs.Finding.{found_beside, entry_found};
ghost use Rattle.finding.specs.Packet.{carried_into, by_entry, packet_beside, packet_found};
ghost use Rattle.finding.specs.Agreement.{HasPacket};
ghost use Rattle.finding.specs.Inner.{first_at, Crosses, Searchable, Searched, Ready};

use blocks::StreamPlace;
use entries::{ENTRY, Entry, Totals};
use index::FRONT;
use refusals::Refusal;
use sp::Run;
use whole::Recording;

// For the crates above too. Of so many entries, which begin at a place of an index, one that begins at or before a packet and is followed by none or
// by one that begins after it, by halving. Entries lie as bytes in the index, so no method of a slice of values searches them.
pub fn search(index: &[u8], front: usize, entries: usize, packet: usize) -> usize
    requires there { entry_place front entries ≤ length index.now }
    requires begins { (0 < entries) × (first_at index.now front 0 ≤ packet) }
    ensures { Crosses index.now front entries packet result }
{
    let mut low: usize = 0;
    let mut high = entries;
    while 1 < high - low {
        let middle = low + (high - low) / 2;
        let first = entries::word_at(index, front + ENTRY * middle + 4);
        if first <= packet {
            low = middle;
        } else {
            high = middle;
        }
    }
    low
}

// For the crates above too. The entry for a packet, by an index that is its file's and whose entries begin at a place.
pub fn look_up(index: &[u8], front: usize, totals: Totals, packet: usize) -> Result<Entry, Refusal>
    requires { Searchable index.now front totals }
    ensures { Searched index.now front totals packet result }
{
    if totals.packets <= packet {
        return Err(Refusal::Beyond(totals.packets));
    }
    let number = search(index, front, totals.entries, packet);
    Ok(entries::entry_at(index, front + ENTRY * number))
}

// The entry for a packet of a recording, by an index that is held to the recording first.
#[tactic(auto, using(crate::proofs::Searching::search_finds), unfolding(crate::specs::Finding::found_beside))]
fn find(file: &[u8], recording: Recording, index: &[u8], packet: usize) -> Result<Entry, Refusal>
    requires { Sound file.now recording }
    ensures { result_says result ≡ found_beside file.now recording index.now packet }
{
    let totals = index::hold(file, recording, index)?;
    look_up(index, FRONT, totals, packet)
}

// The entry for a packet of a DSS file by its number, or why there is none.
#[tactic(auto, unfolding(crate::specs::Finding::entry_found))]
pub fn find_entry(file: &[u8], index: &[u8], packet: usize) -> Result<Entry, Refusal>
    ensures { result_says result ≡ entry_found file.now index.now packet }
{
    let recording = whole::admit(file, true, false)?;
    find(file, recording, index, packet)
}

// What a run carries on past so many of its reads, the last of which is unswapped: byte 40 of that one, which stands two places before the next read.
fn carried_by(file: &[u8], recording: Recording, run: Run, reads: usize) -> u8
    requires whole { Whole file.now recording.start.0 recording.blocks }
    requires near { (run.start.0 ≤ 2 ^ 48) × (reads ≤ 255) × (0 < reads) }
    ensures { result ≡ stream_in file.now recording (run.start.0 + reach run.swap reads - 2) }
{
    let next = run.start.0 + packets::reach(run.swap, reads);
    blocks::byte_or_zero(
        file,
        recording.start,
        recording.blocks,
        StreamPlace(next - 2),
    )
}

// What the blocks before a block carry on to it: from the last of them that has an unswapped read, and 0 if none has.
fn carried_into(file: &[u8], recording: Recording, block: usize) -> u8
    requires { Readable file.now recording × (block ≤ recording.blocks) }
    ensures { result ≡ carried_into file.now recording block }
{
    for before in (0..block).rev() {
        let run = sp::dss_run(file, recording.start, before);
        let reads = packets::upto_unswapped(run.swap, run.count);
        if 0 < reads {
            return carried_by(file, recording, run, reads);
        }
    }
    0
}

// What is carried to a packet of a block, before which the block has so many: from the last unswapped one of them, or from the blocks before.
fn carried_to(file: &[u8], recording: Recording, block: usize, k: usize) -> u8
    requires { Readable file.now recording × (block < recording.blocks) × (k ≤ 255) }
    ensures { result ≡ (steps (stream_in file.now recording) (run_begin (carried_into file.now recording block) (dss_run file.now recording.start.0 block)) k).carry }
{
    let run = sp::dss_run(file, recording.start, block);
    let reads = packets::upto_unswapped(run.swap, k);
    if 0 < reads {
        return carried_by(file, recording, run, reads);
    }
    carried_into(file, recording, block)
}

// Hands out the packet of this number by the entry that has it: a run of one read, for which there is room.
fn hand_out(
    file: &[u8],
    recording: Recording,
    entry: Entry,
    packet: usize,
    out: &mut [u8],
    counts: &mut [u8],
)
    requires { Ready file.now recording entry packet out.old counts.old }
    ensures { Written (by_entry file.now recording packet entry) out.old out.new counts.old counts.new }
{
    let block = entry.number;
    let k = packet - entry.first;
    let flag = blocks::swap_flag(file, recording.start, block);
    let carry = carried_to(file, recording, block, k);
    let run = Run {
        start: StreamPlace(entry.place.0 + packets::reach(flag, k)),
        swap: packets::parity(flag, k),
        count: 1,
    };
    sp::write_run(file, recording, run, carry, 0, out, counts);
}

// Hands out the packet of this number by the entry that has it, if there is room.
fn deliver(
    file: &[u8],
    recording: Recording,
    entry: Entry,
    packet: usize,
    out: &mut [u8],
    counts: &mut [u8],
) -> Result<usize, Refusal>
    requires { Readable file.now recording × HasPacket file.now recording packet entry }
    ensures { Demuxes (answers (by_entry file.now recording packet entry)) out.old out.new counts.old counts.new result }
{
    if !sp::has_room(1, out.len(), counts.len()) {
        return Err(Refusal::Room(1));
    }
    hand_out(file, recording, entry, packet, out, counts);
    Ok(1)
}

// Hands out a recording's packet of this number by an index, which is held to the recording first.
#[tactic(auto, unfolding(crate::specs::Packet::packet_beside, sp::specs::Outcome::in_room))]
fn read(
    file: &[u8],
    recording: Recording,
    index: &[u8],
    packet: usize,
    out: &mut [u8],
    counts: &mut [u8],
) -> Result<usize, Refusal>
    requires { Sound file.now recording }
    ensures { Demuxes (packet_beside file.now recording index.now packet) out.old out.new counts.old counts.new result }
{
    let entry = find(file, recording, index, packet)?;
    deliver(file, recording, entry, packet, out, counts)
}

// The packet of this number of a DSS file by its index, and its file-byte count, or a refusal that changes nothing.
#[tactic(auto, unfolding(crate::specs::Packet::packet_found, sp::specs::Outcome::in_room))]
pub fn dss_packet(
    file: &[u8],
    index: &[u8],
    packet: usize,
    out: &mut [u8],
    counts: &mut [u8],
) -> Result<usize, Refusal>
    ensures { Demuxes (packet_found file.now index.now packet) out.old out.new counts.old counts.new result }
{
    let recording = whole::admit(file, true, false)?;
    read(file, recording, index, packet, out, counts)
}
