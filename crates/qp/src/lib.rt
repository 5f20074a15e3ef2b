// The whole reading of QP files: the segments of a DS2 file of type 6 or 8 to 255, into a lent table. Where the table
// may be too small the blocks are walked twice, first to count and then to write, so that a refused call has written nothing.
// Rests on whole, which says whether the file is taken, on frames, for where a block starts, on refusals, blocks and tables.
#![tactic(auto)]

ghost use Rattle.std.specs.Prelude.{◌≡◌, ℕ, ◌+◌, ◌*◌, ◌<◌, ◌≤◌, ◌^◌, cond, length, ltb};
ghost use Rattle.tables.specs.Inner.{Puts};
ghost use Rattle.blocks.specs.Headers.{Bytes};
ghost use Rattle.refusals.specs.Said.{answers};
ghost use Rattle.whole.specs.Admissions.{Sound};
ghost use Rattle.qp.specs.Segments.{Gathered, counted, segments_from, reading_of, qp_reading};
ghost use Rattle.qp.specs.Outcome.{width, entry_of, Demuxes};
ghost use Rattle.qp.specs.Inner.{numbers_of, Near, Holds, Closes, Moves};

use blocks::{PAYLOAD, StreamPlace};
use detect::Kind;
use frames::FRAME;
use refusals::Refusal;
use whole::Recording;

// The words of a segment's entry.
pub const ENTRY: usize = 4;

// A segment: where it starts, how many bytes it has, how many frames are announced, and 1 if the decoder is to be reset before it. Public
// for the definitions above.
#[derive(Clone, Copy)]
pub struct Segment {
    pub start: StreamPlace,
    pub long: usize,
    pub frames: usize,
    pub reset: usize,
}

// The open segment, in numbers: where it starts, the read place, its frame total; and how many segments were kept before it. Public for
// the crates above.
#[derive(Clone, Copy)]
pub struct Gathering {
    pub start: StreamPlace,
    pub place: StreamPlace,
    pub frames: usize,
    pub kept: usize,
}

// How many segments a file has, and how many frames it announces.
#[derive(Clone, Copy)]
pub struct Totals {
    pub segments: usize,
    pub announced: usize,
}

// Puts a segment's entry under a number, if that is to be written.
fn put(segment: Segment, number: usize, most: usize, table: &mut [u32])
    requires fits { (segment.start.0 < 2 ^ 32) × (segment.long < 2 ^ 32) × (segment.frames < 2 ^ 32) × (segment.reset < 2 ^ 32) }
    requires room { width * most ≤ length table.old }
    ensures { Puts table.old number most (entry_of segment) table.new }
{
    let entry = [
        segment.start.0 as u32,
        segment.long as u32,
        segment.frames as u32,
        segment.reset as u32,
    ];
    tables::put_entry(table, number, most, &entry);
}

// Closes the open segment in a stream of so many bytes, and gives back how many are kept then.
fn close(gathering: Gathering, end: usize, most: usize, table: &mut [u32]) -> usize
    requires near { Near end (2 ^ 31) (2 ^ 31) gathering × (end < 2 ^ 31) }
    requires room { width * most ≤ length table.old }
    ensures closes { (g : Gathered) → gathering ≡ numbers_of g → Closes end most g table.old table.new result }
    ensures near { result ≤ gathering.kept + 1 }
{
    let number = gathering.kept;
    if gathering.frames == 0 {
        return number;
    }
    let stop = gathering.place.0.min(end);
    let segment = Segment {
        start: gathering.start,
        long: stop - gathering.start.0,
        frames: gathering.frames,
        reset: 1usize.min(number),
    };
    put(segment, number, most, table);
    number + 1
}

// For the crates above too. A block arrives that starts there: elsewhere than the read place, it closes the segment and begins its own.
pub fn arrive(
    gathering: Gathering,
    at: StreamPlace,
    end: usize,
    most: usize,
    table: &mut [u32],
) -> Gathering
    requires near { Near end (2 ^ 31) (2 ^ 31) gathering × (end < 2 ^ 31) × (at.0 ≤ end) }
    requires room { width * most ≤ length table.old }
    ensures moves { (g : Gathered) → gathering ≡ numbers_of g → Moves end at.0 most g table.old table.new result }
    ensures near { (frames kept : ℕ) → Near end frames kept gathering → Near end frames (kept + 1) result }
{
    if at.0 == gathering.place.0 {
        return gathering;
    }
    let kept = close(gathering, end, most, table);
    Gathering {
        start: at,
        place: at,
        frames: 0,
        kept,
    }
}

// For the crates above too. A block's frames follow at the read place.
pub fn add(gathering: Gathering, count: usize) -> Gathering
    requires { (gathering.place.0 + 56 * count < 2 ^ 64) × (gathering.frames + count < 2 ^ 64) }
    ensures adds { (g : Gathered) → gathering ≡ numbers_of g → result ≡ numbers_of (counted count g) }
    ensures near { (long frames kept : ℕ) → Near long frames kept gathering → Near long (frames + count) kept result }
{
    Gathering {
        place: StreamPlace(gathering.place.0 + FRAME * count),
        frames: gathering.frames + count,
        ..gathering
    }
}

// Walks over all blocks, writes as many entries as it is told, and gives back how many segments there are.
fn write_segments(file: &[u8], recording: Recording, most: usize, table: &mut [u32]) -> usize
    requires sound { Sound file.now recording }
    requires room { width * most ≤ length table.old }
    ensures many { result ≡ length (segments_from file.now recording) }
    ensures few { result ≤ recording.blocks + 1 }
    ensures written { Holds most (segments_from file.now recording) table.old table.new }
{
    let end = PAYLOAD * recording.blocks;
    let mut gathering = Gathering {
        start: StreamPlace(0),
        place: StreamPlace(0),
        frames: 0,
        kept: 0,
    };
    for block in 0..recording.blocks {
        let at = frames::block_start(file, recording.start, block);
        let arrived = arrive(gathering, at, end, most, table);
        gathering = add(arrived, blocks::count_byte(file, recording.start, block));
    }
    close(gathering, end, most, table)
}

// How many entries are written at once: all, if there is room for one a block and one more, and otherwise none before they are counted.
fn at_once(blocks: usize, room: usize) -> usize
    ensures { (result ≡ cond (ltb blocks room) room 0) × (result ≤ room) }
{
    if blocks < room { room } else { 0 }
}

// Writes the entries that are needed, if not all of them were written at once.
fn write_needed(file: &[u8], recording: Recording, written: usize, needed: usize, table: &mut [u32])
    requires sound { Sound file.now recording }
    requires room { width * needed ≤ length table.old }
    ensures none { needed ≤ written → table.new ≡ table.old }
    ensures all { written < needed → Holds needed (segments_from file.now recording) table.old table.new }
{
    if needed <= written {
        return;
    }
    write_segments(file, recording, needed, table);
}

// Hands out a recording's segments, if there is room for all.
fn read(file: &[u8], recording: Recording, table: &mut [u32]) -> Result<Totals, Refusal>
    requires { Sound file.now recording }
    ensures { Demuxes (answers (reading_of file.now recording)) table.old table.new result }
{
    let room = table.len() / ENTRY;
    let written = at_once(recording.blocks, room);
    let needed = write_segments(file, recording, written, table);
    if room < needed {
        return Err(Refusal::Segments(needed));
    }
    write_needed(file, recording, written, needed, table);
    Ok(Totals {
        segments: needed,
        announced: recording.announced(file),
    })
}

// The segments of a QP file, or a refusal that changes nothing. That a lent file is a list of bytes is the language's own fact; the contract
// passes it on, since where segments lie rests on it.
#[tactic(auto, unfolding(crate::specs::Segments::qp_reading, crate::specs::Outcome::in_room))]
pub fn demux_ds2_qp(file: &[u8], table: &mut [u32]) -> Result<Totals, Refusal>
    ensures outcome { Demuxes (qp_reading file.now) table.old table.new result }
    ensures bytes { Bytes file.now }
{
    let recording = whole::admit_ds2(file, Kind::Qp)?;
    read(file, recording, table)
}
