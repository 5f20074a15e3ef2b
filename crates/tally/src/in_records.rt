// What a QP7 recording hands out: block by block, as the walk goes on, with no table. Rests on qp7, for the walk, and on frames, for where
// a block starts.
ghost use Rattle.std.specs.Prelude.{◌≡◌, ◌+◌, ◌-◌, ◌≤◌, ◌^◌, max, cond, eqb};
ghost use Rattle.blocks.specs.Places.{Whole};
ghost use Rattle.blocks.specs.Headers.{first_of, count_of};
ghost use Rattle.whole.specs.Admissions.{Sound};
ghost use Rattle.frames.specs.Start.{frames_start};
ghost use Rattle.tally.specs.declared.FileKind.TheVariants.{Ds2Qp7};
ghost use Rattle.refusals.specs.Said.{result_says};
ghost use Rattle.tally.specs.Tallies.{handed_by};

use crate::HandedOut;
use blocks::{FilePlace, StreamPlace};
use qp7::{Totals, Walk};
use refusals::Refusal;
use whole::Recording;

// How many bytes a block's records have, by the read place before the block and after it: they follow one another, from the read place or
// from the block's start, whichever is later.
fn bytes_read(
    file: &[u8],
    a: FilePlace,
    block: usize,
    before: StreamPlace,
    after: StreamPlace,
) -> usize
    requires { Whole file.now a.0 (block + 1) × (block ≤ 2 ^ 48) }
    ensures { result ≡ cond (eqb (count_of file.now a.0 block) 0) 0 (after.0 - max before.0 (frames_start block (first_of file.now a.0 block))) }
{
    if blocks::count_byte(file, a, block) == 0 {
        return 0;
    }
    let begin = frames::block_start(file, a, block);
    after.0.saturating_sub(begin.0.max(before.0))
}

// For the rest of this crate. What a QP7 recording hands out, or why a record cannot be read. The walk is told to write no entries.
pub fn of_qp7(file: &[u8], recording: Recording) -> Result<HandedOut, Refusal>
    requires { Sound file.now recording }
    ensures { result_says result ≡ handed_by Ds2Qp7 file.now recording }
{
    let none = Totals {
        records: 0,
        segments: 0,
    };
    let mut records = [0u32; 0];
    let mut segments = [0u32; 0];
    let mut walk = Walk {
        place: StreamPlace(0),
        records: 0,
        segments: 0,
        first: 0,
    };
    let mut bytes: u64 = 0;
    for block in 0..recording.blocks {
        let before = walk.place;
        walk = qp7::with_block(
            file,
            recording,
            block,
            walk,
            none,
            &mut records,
            &mut segments,
        )?;
        bytes += bytes_read(file, recording.start, block, before, walk.place) as u64;
    }
    Ok(HandedOut {
        many: walk.records,
        short: 0,
        bytes,
    })
}
