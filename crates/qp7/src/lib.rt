// The whole reading of QP7 files: the records and segments of a DS2 file of type 7, into two lent tables. The walk is made twice, first
// to count and then to write, so that a refused call has written nothing.
// Rests on whole, which says whether the file is taken, on frames, for where a block starts, on refusals, blocks and tables.
#![tactic(auto)]

ghost use Rattle.std.specs.Prelude.{◌≡◌, ◌+◌, ◌*◌, ◌<◌, ◌≤◌, ◌^◌, max, [], ◌∷◌, length};
ghost use Rattle.tables.specs.Inner.{Puts};
ghost use Rattle.refusals.specs.Said.{answers, result_says};
ghost use Rattle.whole.specs.Admissions.{Sound, stream_in};
ghost use Rattle.qp7.specs.Records.{record_size, record_at};
ghost use Rattle.qp7.specs.Inner.{numbers_of, numbers_at, Near, ReadsOn, Closes, GoesOn};
ghost use Rattle.qp7.specs.Walk.{Gathered, nothing, with_block, gathered_from, qp7_reading};
ghost use Rattle.qp7.specs.Outcome.{width, entry_of, Demuxes};

use blocks::{PAYLOAD, StreamPlace};
use detect::Kind;
use refusals::Refusal;
use whole::Recording;

// The size of a record whose second byte has bit 7 off, and on.
const SHORT: usize = 12;

const LONG: usize = 56;

// The words of a segment's entry.
pub const ENTRY: usize = 3;

// Where the walk stands: the read place, how many records were read and how many segments closed, and the number of the open segment's
// first record. Public for the crates above.
#[derive(Clone, Copy)]
pub struct Walk {
    pub place: StreamPlace,
    pub records: usize,
    pub segments: usize,
    pub first: usize,
}

// A segment: the number of its first record, how many it has, and 1 if the decoder is to be reset before it.
#[derive(Clone, Copy)]
struct Segment {
    first: usize,
    records: usize,
    reset: usize,
}

// How many records and segments: those of a file, or those to be written.
#[derive(Clone, Copy)]
pub struct Totals {
    pub records: usize,
    pub segments: usize,
}

// A record's size by its second byte.
fn size_of(second: u8) -> usize
    ensures { (result ≡ record_size second) × (result ≤ 56) }
{
    if 128 <= second { LONG } else { SHORT }
}

// The record at a place of the stream.
fn record_at(file: &[u8], recording: Recording, at: StreamPlace) -> Result<usize, Refusal>
    requires sound { Sound file.now recording }
    requires near { at.0 ≤ 506 * recording.blocks }
    ensures { result_says result ≡ record_at (stream_in file.now recording) (506 * recording.blocks) at.0 }
{
    let left = PAYLOAD * recording.blocks - at.0;
    if left < 2 {
        return Err(Refusal::Selector {
            at,
            absent: 2 - left,
        });
    }
    let second = blocks::stream_byte(file, recording.start, StreamPlace(at.0 + 1));
    let size = size_of(second);
    if left < size {
        return Err(Refusal::Record {
            at,
            size,
            absent: size - left,
        });
    }
    Ok(size)
}

// Puts a record's place under a number, if that is to be written. Not by `tables::put_entry`, whose copy of one word takes some eight instructions
// more a record: 68 in all, and the limit is 61.5.
fn note(at: StreamPlace, number: usize, most: usize, records: &mut [u32])
    requires { (at.0 < 2 ^ 32) × (most ≤ length records.old) }
    ensures { Puts records.old number most (at.0 ∷ []) records.new }
{
    if most <= number {
        return;
    }
    records[number] = at.0 as u32;
}

// Reads so many records from where the walk stands, one after another.
fn read_records(
    file: &[u8],
    recording: Recording,
    walk: Walk,
    count: usize,
    most: usize,
    records: &mut [u32],
) -> Result<Walk, Refusal>
    requires sound { Sound file.now recording }
    requires near { (walk.place.0 ≤ 506 * recording.blocks) × (walk.records + count ≤ 2 ^ 32) }
    requires room { most ≤ length records.old }
    ensures on { (g : Gathered) → walk ≡ numbers_of g → ReadsOn (stream_in file.now recording) (506 * recording.blocks) count most g records.old records.new result }
    ensures near { (w : Walk) → result_says result ≡ answers w → (w.place.0 ≤ 506 * recording.blocks) × (w.records ≡ walk.records + count) × (w.segments ≡ walk.segments) }
{
    let mut at = walk.place;
    for k in 0..count {
        let size = record_at(file, recording, at)?;
        note(at, walk.records + k, most, records);
        at = StreamPlace(at.0 + size);
    }
    Ok(Walk {
        place: at,
        records: walk.records + count,
        ..walk
    })
}

// Puts a segment's entry under a number, if that is to be written.
fn put(segment: Segment, number: usize, most: usize, segments: &mut [u32])
    requires { (segment.first < 2 ^ 32) × (segment.records < 2 ^ 32) × (segment.reset < 2 ^ 32) × (width * most ≤ length segments.old) }
    ensures { Puts segments.old number most (entry_of segment) segments.new }
{
    let entry = [
        segment.first as u32,
        segment.records as u32,
        segment.reset as u32,
    ];
    tables::put_entry(segments, number, most, &entry);
}

// Closes the open segment, if it is not empty.
fn close(walk: Walk, most: usize, segments: &mut [u32]) -> Walk
    requires near { (walk.records < 2 ^ 32) × (walk.segments < 2 ^ 32) }
    requires room { width * most ≤ length segments.old }
    ensures closes { (g : Gathered) → walk ≡ numbers_of g → Closes most g segments.old segments.new result }
    ensures near { (result.place.0 ≡ walk.place.0) × (result.records ≡ walk.records) × (result.segments ≤ walk.segments + 1) }
{
    let number = walk.segments;
    if walk.records <= walk.first {
        return walk;
    }
    let segment = Segment {
        first: walk.first,
        records: walk.records - walk.first,
        reset: 1usize.min(number),
    };
    put(segment, number, most, segments);
    Walk {
        segments: number + 1,
        first: walk.records,
        ..walk
    }
}

// The walk with its read place raised to at least that of q.
fn raise(walk: Walk, q: StreamPlace) -> Walk
    ensures { (result.place.0 ≡ max walk.place.0 q.0) × (result.records ≡ walk.records) × (result.segments ≡ walk.segments) × (result.first ≡ walk.first) }
{
    Walk {
        place: StreamPlace(walk.place.0.max(q.0)),
        ..walk
    }
}

// For the crates above too. Goes on with a block: a silent one closes a segment, another is read.
pub fn with_block(
    file: &[u8],
    recording: Recording,
    block: usize,
    walk: Walk,
    most: Totals,
    records: &mut [u32],
    segments: &mut [u32],
) -> Result<Walk, Refusal>
    requires sound { Sound file.now recording × (block < recording.blocks) }
    requires near { Near recording.blocks block walk }
    requires room { (most.records ≤ length records.old) × (width * most.segments ≤ length segments.old) }
    ensures on { (g : Gathered) → walk ≡ numbers_of g → GoesOn most g (with_block file.now recording.start.0 recording.blocks block g) records.old records.new segments.old segments.new result }
    ensures near { (w : Walk) → result_says result ≡ answers w → Near recording.blocks (block + 1) w }
{
    let count = blocks::count_byte(file, recording.start, block);
    if count == 0 {
        let closed = close(walk, most.segments, segments);
        return Ok(raise(closed, StreamPlace(PAYLOAD * (block + 1))));
    }
    let raised = raise(walk, frames::block_start(file, recording.start, block));
    read_records(file, recording, raised, count, most.records, records)
}

// Walks over all blocks, and writes as many records and segments as it is told.
fn walk_blocks(
    file: &[u8],
    recording: Recording,
    most: Totals,
    records: &mut [u32],
    segments: &mut [u32],
) -> Result<Walk, Refusal>
    requires sound { Sound file.now recording }
    requires room { (most.records ≤ length records.old) × (width * most.segments ≤ length segments.old) }
    ensures { GoesOn most nothing (gathered_from file.now recording) records.old records.new segments.old segments.new result }
{
    let mut walk = Walk {
        place: StreamPlace(0),
        records: 0,
        segments: 0,
        first: 0,
    };
    for block in 0..recording.blocks {
        walk = with_block(file, recording, block, walk, most, records, segments)?;
    }
    Ok(close(walk, most.segments, segments))
}

// Hands out so many records and segments of a recording that has as many, if there is room for them.
fn hand_out(
    file: &[u8],
    recording: Recording,
    walk: Walk,
    records: &mut [u32],
    segments: &mut [u32],
) -> Result<Totals, Refusal>
    requires sound { Sound file.now recording }
    requires counted { answers walk ≡ numbers_at (gathered_from file.now recording) }
    ensures { Demuxes (gathered_from file.now recording) records.old records.new segments.old segments.new result }
{
    let most = Totals {
        records: walk.records,
        segments: walk.segments,
    };
    if records.len() < most.records {
        return Err(Refusal::Room(most.records));
    }
    if segments.len() / ENTRY < most.segments {
        return Err(Refusal::Segments(most.segments));
    }
    let _ = walk_blocks(file, recording, most, records, segments);
    Ok(most)
}

// Counts a recording's records and segments, then hands them out.
fn read(
    file: &[u8],
    recording: Recording,
    records: &mut [u32],
    segments: &mut [u32],
) -> Result<Totals, Refusal>
    requires { Sound file.now recording }
    ensures { Demuxes (gathered_from file.now recording) records.old records.new segments.old segments.new result }
{
    let none = Totals {
        records: 0,
        segments: 0,
    };
    let walk = walk_blocks(file, recording, none, records, segments)?;
    hand_out(file, recording, walk, records, segments)
}

// The records and segments of a QP7 file, or a refusal that changes nothing.
#[tactic(auto, unfolding(crate::specs::Walk::qp7_reading, crate::specs::Outcome::in_room))]
pub fn demux_ds2_qp7(
    file: &[u8],
    records: &mut [u32],
    segments: &mut [u32],
) -> Result<Totals, Refusal>
    ensures { Demuxes (qp7_reading file.now) records.old records.new segments.old segments.new result }
{
    let recording = whole::admit_ds2(file, Kind::Qp7)?;
    read(file, recording, records, segments)
}
