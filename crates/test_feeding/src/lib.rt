// A recording fed to a reader piece by piece, with digests of what comes out. All of it is for the crates above. Rests on reader,
// test_sums and test_tools.
#![tactic(auto)]

ghost use Rattle.std.specs.Prelude.{◌<◌, ◌≤◌};
ghost use Rattle.reader.specs.State.{Reached};

use reader::Reader;
use test_sums::{Sums, count_in};
use test_tools::Cuts;

// A reader and what came out of it.
#[derive(Clone, Copy)]
pub struct Fed {
    pub reader: Reader,
    pub sums: Sums,
}

// Where the piece that begins there ends.
fn piece_end(cuts: Cuts, at: usize, long: usize) -> usize
    requires { at < long }
    ensures { (at < result) × (result ≤ long) }
{
    if at < cuts.first {
        return cuts.first.min(long);
    }
    if at < cuts.second {
        return cuts.second.min(long);
    }
    if cuts.step == 0 {
        return long;
    }
    let step = cuts.step as u64;
    let state = test_tools::noise(step.wrapping_add(at as u64));
    let far = test_tools::below(state, step) as usize;
    at + 1 + far.min(long - at - 1)
}

// Feeds a piece to a reader. Written where it is called, and what came counted before the reader is put in its place: a reader goes by value here, and
// is not copied more often then.
#[inline(always)]
pub fn take_piece(fed: Fed, piece: &[u8], out: &mut [u8], counts: &mut [u8]) -> Fed
    requires { Reached fed.reader }
    ensures { Reached result.reader }
{
    let step = fed.reader.piece(piece, out, counts);
    let sums = count_in(fed.sums, step.answer, piece.len(), out, counts);
    Fed {
        reader: step.reader,
        sums,
    }
}

// Feeds a file to a reader, up to its end or to the first piece that is refused.
pub fn feed(reader: Reader, file: &[u8], cuts: Cuts, out: &mut [u8], counts: &mut [u8]) -> Fed
    requires { Reached reader }
    ensures { Reached result.reader }
{
    let mut fed = Fed {
        reader,
        sums: Sums::default(),
    };
    let mut at: usize = 0;
    // as far as each piece goes, and no further than the first refusal: nothing is counted that a `for` could
    while at < file.len() && fed.sums.number == 0 {
        let end = piece_end(cuts, at, file.len());
        fed = take_piece(fed, &file[at..end], out, counts);
        at = end;
    }
    fed
}

// Feeds a piece so many times.
fn repeat(before: Fed, piece: &[u8], times: usize, out: &mut [u8], counts: &mut [u8]) -> Fed
    requires { Reached before.reader }
    ensures { Reached result.reader }
{
    let mut fed = before;
    for _ in 0..times {
        fed = take_piece(fed, piece, out, counts);
    }
    fed
}

// Feeds a DSS reader to the limit and a byte past it.
pub fn past_the_limit() -> Sums {
    let piece = [0u8; 65536];
    let mut out = [0u8; 42];
    let mut counts = [0u8; 1];
    let fed = Fed {
        reader: Reader::open(2).reader,
        sums: Sums::default(),
    };
    let full = repeat(fed, &piece, 4096, &mut out, &mut counts);
    take_piece(full, &piece[..1], &mut out, &mut counts).sums
}
