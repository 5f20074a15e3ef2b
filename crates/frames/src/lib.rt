// Frames of the payload stream: where a block's frames start, the frames of a segment, and a frame's bytes on request.
// Rests on whole, which says whether the file is taken, and on refusals, blocks and tables.
#![tactic(auto)]

ghost use Rattle.std.specs.Prelude.{◌≡◌, ◌+◌, ◌*◌, ◌<◌, ◌≤◌, ◌^◌, false, length, IfOk};
ghost use Rattle.tables.specs.Lent.{Leaves};
ghost use Rattle.blocks.specs.Places.{Whole, file_of};
ghost use Rattle.blocks.specs.Headers.{first_of};
ghost use Rattle.refusals.specs.Said.{result_says};
ghost use Rattle.whole.specs.Admissions.{stream_in};
ghost use Rattle.frames.specs.Start.{frames_start};
ghost use Rattle.frames.specs.Frames.{frame_of};
ghost use Rattle.frames.specs.Fetch.{can_fetch, fetch_from, is_inside, stand_in, standing, fetched_says, stand_of, filled_from, shown_from, shown, Fills};
ghost use Rattle.frames.specs.Inner.{Fetchable};

use blocks::{FilePlace, PAYLOAD, StreamPlace};
use refusals::Refusal;
use whole::Recording;

// The size of a QP frame. A scratch must have as many bytes.
pub const FRAME: usize = 56;

// The largest number of 64 bits: no place lies past it.
const LAST: usize = 18_446_744_073_709_551_615;

// Where a frame starts, and how many bytes it has: none where it is missing. No Option: `frame_of` has a missing frame's numbers too, and hosts are
// told them.
#[derive(Clone, Copy)]
pub struct Found {
    pub place: StreamPlace,
    pub size: usize,
}

// Where a frame that can be fetched stands: in the file from that place on, or at the scratch's start.
#[derive(Clone, Copy)]
pub enum Fetched {
    InFile(FilePlace),
    InScratch,
}

// For the crates above. Where the frames of a QP or QP7 block start, by its number and its byte 1. A file within the limit has under
// 2^20 blocks.
#[tactic(auto, unfolding(crate::specs::Start::frames_start))]
pub fn frames_start(block: usize, byte1: usize) -> StreamPlace
    requires { (block ≤ 2 ^ 48) × (byte1 ≤ 255) }
    ensures { (result.0 ≡ frames_start block byte1) × (result.0 < 506 * (block + 1)) }
{
    StreamPlace(PAYLOAD * block + (2 * byte1).saturating_sub(6))
}

// For the crates above. The same by the block's header.
pub fn block_start(file: &[u8], a: FilePlace, block: usize) -> StreamPlace
    requires { Whole file.now a.0 (block + 1) × (block ≤ 2 ^ 48) }
    ensures { (result.0 ≡ frames_start block (first_of file.now a.0 block)) × (result.0 < 506 * (block + 1)) }
{
    let byte1 = usize::from(blocks::header_byte(file, a, block, 1));
    frames_start(block, byte1)
}

// What is found of a missing frame.
fn no_frame() -> Found
    ensures { (result.place.0 ≡ 0) × (result.size ≡ 0) }
{
    Found {
        place: StreamPlace(0),
        size: 0,
    }
}

// Frame k of a segment that has so many bytes from a start on.
pub fn frame(start: StreamPlace, long: usize, k: usize) -> Found
    ensures { result ≡ frame_of start.0 long k }
{
    let from = start.0;
    if long / FRAME < k {
        return no_frame();
    }
    let far = FRAME * k;
    let left = long - far;
    if left == 0 {
        return no_frame();
    }
    if LAST - from < far {
        return no_frame();
    }
    Found {
        place: StreamPlace(from + far),
        size: FRAME.min(left),
    }
}

// Whether a frame can be fetched from the stream of so many blocks, by a scratch of so many bytes.
#[tactic(auto, unfolding(crate::specs::Fetch::can_fetch))]
fn can_fetch(blocks: usize, place: StreamPlace, size: usize, room: usize) -> bool
    requires { blocks ≤ 524288 }
    ensures { result ≡ can_fetch blocks place.0 size room }
{
    let end = PAYLOAD * blocks;
    1 <= size && size <= FRAME && place.0 <= end && size <= end - place.0 && FRAME <= room
}

// The recording that a frame is fetched from: the one place of the refusals.
#[tactic(auto, using(crate::proofs::Fetch::fetchable), unfolding(crate::specs::Fetch::fetch_from))]
fn fetch_from(
    file: &[u8],
    place: StreamPlace,
    size: usize,
    room: usize,
) -> Result<Recording, Refusal>
    ensures says { result_says result ≡ fetch_from file.now place.0 size room }
    ensures fetchable { IfOk result (λ recording. Fetchable file.now recording place.0 size room) }
{
    let recording = whole::admit(file, false, true)?;
    if !can_fetch(recording.blocks, place, size, room) {
        return Err(Refusal::Absent);
    }
    Ok(recording)
}

// Whether a frame lies inside one block.
fn is_inside(place: StreamPlace, size: usize) -> bool
    requires { size ≤ 56 }
    ensures { result ≡ is_inside place.0 size }
{
    place.0 % PAYLOAD + size <= PAYLOAD
}

// Copies the bytes of a frame that crosses a block to the scratch's start, by one run in each of its two blocks.
fn take_frame(
    file: &[u8],
    recording: Recording,
    place: StreamPlace,
    size: usize,
    scratch: &mut [u8],
)
    requires { Fetchable file.now recording place.0 size (length scratch.old) × (is_inside place.0 size ≡ false) }
    ensures { Leaves scratch.old 0 size (λ k. stream_in file.now recording (place.0 + k)) scratch.new }
{
    let start = recording.start;
    let at = place.0;
    let here = PAYLOAD - at % PAYLOAD;
    let first = blocks::in_file(start, place);
    tables::copy(scratch, 0, file, first.0, here);
    let second = blocks::in_file(start, StreamPlace(at + here));
    tables::copy(scratch, here, file, second.0, size - here);
}

// Where a frame stands that can be fetched.
fn stand_in(recording: Recording, place: StreamPlace, size: usize) -> Fetched
    requires { (size ≤ 56) × (file_of recording.start.0 place.0 < 2 ^ 64) }
    ensures { stand_of result ≡ stand_in recording place.0 size }
{
    if is_inside(place, size) {
        return Fetched::InFile(blocks::in_file(recording.start, place));
    }
    Fetched::InScratch
}

// Where a frame stands, or why it cannot be fetched, if the scratch has so many bytes. Nothing is written.
#[tactic(auto, unfolding(crate::specs::Fetch::standing))]
pub fn frame_place(
    file: &[u8],
    place: StreamPlace,
    size: usize,
    room: usize,
) -> Result<Fetched, Refusal>
    ensures { fetched_says result ≡ standing (fetch_from file.now place.0 size room) place.0 size }
{
    let recording = fetch_from(file, place, size, room)?;
    Ok(stand_in(recording, place, size))
}

// Fills the scratch with a frame that can be fetched, if the frame crosses a block.
#[tactic(auto, using(tables::proofs::Lent::leaves_over))]
fn fill_from(
    file: &[u8],
    recording: Recording,
    place: StreamPlace,
    size: usize,
    scratch: &mut [u8],
) -> Fetched
    requires { Fetchable file.now recording place.0 size (length scratch.old) }
    ensures stand { stand_of result ≡ stand_in recording place.0 size }
    ensures bytes { scratch.new ≡ filled_from file.now recording place.0 size scratch.old }
{
    if !is_inside(place, size) {
        take_frame(file, recording, place, size, scratch);
    }
    stand_in(recording, place, size)
}

// The first of the two calls that fetch a frame: fills the scratch if the frame crosses a block.
#[tactic(auto, unfolding(crate::specs::Fetch::standing, crate::specs::Fetch::filled))]
pub fn fill(
    file: &[u8],
    place: StreamPlace,
    size: usize,
    scratch: &mut [u8],
) -> Result<Fetched, Refusal>
    ensures { Fills file.now place.0 size scratch.old scratch.new result }
{
    let recording = fetch_from(file, place, size, scratch.len())?;
    Ok(fill_from(file, recording, place, size, scratch))
}

// Shows a frame that can be fetched: the file's own bytes, or the scratch's start.
fn show_from<'a>(
    file: &'a [u8],
    recording: Recording,
    place: StreamPlace,
    size: usize,
    scratch: &'a [u8],
) -> &'a [u8]
    requires { Fetchable file.now recording place.0 size (length scratch.now) }
    ensures { result.now ≡ shown_from file.now recording place.0 size scratch.now }
{
    if is_inside(place, size) {
        let from = blocks::in_file(recording.start, place).0;
        return &file[from..from + size];
    }
    &scratch[0..size]
}

// The second of the two calls that fetch a frame: shows it as a part of the file or of the scratch, and an empty part where it refuses.
#[tactic(auto, unfolding(crate::specs::Fetch::shown))]
pub fn show<'a>(file: &'a [u8], place: StreamPlace, size: usize, scratch: &'a [u8]) -> &'a [u8]
    ensures { result.now ≡ shown file.now place.0 size scratch.now }
{
    match fetch_from(file, place, size, scratch.len()) {
        Ok(recording) => show_from(file, recording, place, size, scratch),
        Err(_) => &file[..0],
    }
}
