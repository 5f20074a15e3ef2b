// What a QP recording hands out: segment by segment, as the walk closes them, with no table. Rests on qp, for the walk, and on frames,
// for where a block starts.
ghost use Rattle.std.specs.Prelude.{◌≡◌, ◌+◌, ◌*◌, ◌≤◌, ◌<◌, ◌^◌, [], ◌∷◌};
ghost use Rattle.whole.specs.Admissions.{Sound};
ghost use Rattle.qp.specs.Segments.{Gathered, open_segment, moved, segments_from};
ghost use Rattle.qp.specs.Inner.{numbers_of, Near};
ghost use Rattle.tally.specs.HandedOut.{frames_out};

use crate::HandedOut;
use blocks::{PAYLOAD, StreamPlace};
use frames::FRAME;
use qp::Gathering;
use whole::Recording;

// What the segment hands out that is open, in a stream of so many bytes; nothing if it has no frames.
fn of_open(gathering: Gathering, end: usize) -> HandedOut
    requires { Near end (2 ^ 31) (2 ^ 31) gathering × (end < 2 ^ 31) }
    ensures counted { (g : Gathered) → gathering ≡ numbers_of g → result ≡ frames_out (open_segment end g ∷ []) }
    ensures few { (result.many ≤ gathering.frames) × (result.short ≤ gathering.frames) × (result.bytes ≤ 56 * gathering.frames) }
{
    let long = gathering.place.0.min(end) - gathering.start.0;
    let whole = long / FRAME;
    let short = 1usize.min(long % FRAME);
    HandedOut {
        many: whole + short,
        short,
        bytes: long as u64,
    }
}

// What the closed segments hand out after a block arrives there: elsewhere than the read place, it closes the open one.
fn after_arrival(out: HandedOut, gathering: Gathering, at: StreamPlace, end: usize) -> HandedOut
    requires near { Near end (2 ^ 31) (2 ^ 31) gathering × (end < 2 ^ 31) }
    requires fits { (out.many + gathering.frames < 2 ^ 64) × (out.short + gathering.frames < 2 ^ 64) × (out.bytes + 56 * gathering.frames < 2 ^ 64) }
    ensures { (g : Gathered) → gathering ≡ numbers_of g → out ≡ frames_out g.kept → result ≡ frames_out (moved end at.0 g).kept }
{
    if at.0 == gathering.place.0 {
        return out;
    }
    crate::together(out, of_open(gathering, end))
}

// For the rest of this crate. What a QP recording hands out. The walk is told to write no entries.
pub fn of_qp(file: &[u8], recording: Recording) -> HandedOut
    requires { Sound file.now recording }
    ensures { result ≡ frames_out (segments_from file.now recording) }
{
    let end = PAYLOAD * recording.blocks;
    let mut table = [0u32; 0];
    let mut gathering = Gathering {
        start: StreamPlace(0),
        place: StreamPlace(0),
        frames: 0,
        kept: 0,
    };
    let mut out = HandedOut {
        many: 0,
        short: 0,
        bytes: 0,
    };
    for block in 0..recording.blocks {
        let at = frames::block_start(file, recording.start, block);
        out = after_arrival(out, gathering, at, end);
        let arrived = qp::arrive(gathering, at, end, 0, &mut table);
        gathering = qp::add(arrived, blocks::count_byte(file, recording.start, block));
    }
    crate::together(out, of_open(gathering, end))
}
