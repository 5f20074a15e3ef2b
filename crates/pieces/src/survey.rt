// What a piece would bring, with nothing written: whether every block fits in the hold, and how many packets become ready.
// Rests on hold, for a block's run and the closed forms of a walk, on refusals, blocks and tables.
ghost use Rattle.std.specs.Prelude.{◌≡◌, List, true, false, ℕ, ◌+◌, ◌*◌, ◌-◌, ◌≤◌, ◌<◌, length, get_or, eqb, leb, IfOk};
ghost use Rattle.blocks.specs.Places.{limit, whole_blocks, block_at};
ghost use Rattle.blocks.specs.Headers.{Bytes, header_byte, announced_in};
ghost use Rattle.refusals.specs.Said.{answers, demand, result_says};
ghost use Rattle.sp.specs.ReadLists.{dss_run};
ghost use Rattle.hold.specs.Ready.{ready};
ghost use Rattle.hold.specs.Held.{block_fits, fits, headers_from};
ghost use Rattle.pieces.specs.Inner.{Joins, Known, Surveys, judged};

use blocks::{BLOCK, FilePlace, LIMIT, PAYLOAD};
use hold::{HOLD, Standing};
use refusals::Refusal;
use sp::Run;

// What was found in a piece's blocks, all of which fit: what all blocks announce, and the first block's byte 0. Public for the definitions.
#[derive(Clone, Copy)]
pub struct Surveyed {
    pub announced: usize,
    pub first: u8,
}

// The byte at place p of the bytes joined; `tail` is where the block begins that was not whole before.
fn joined_byte(partial: &[u8; 512], piece: &[u8], taken: usize, tail: usize, p: usize) -> u8
    requires { (tail ≤ p) × (p < taken + length piece.now) × (taken ≤ tail + 512) × (taken ≤ limit) }
    ensures { (f : List ℕ) → Joins f partial.now piece.now taken tail → result ≡ get_or f p 0 }
{
    if p < taken {
        partial[p - tail]
    } else {
        piece[p - taken]
    }
}

// Byte 0 of the first block: known already, or among the bytes joined, or not there yet.
fn first_after(known: u8, partial: &[u8; 512], piece: &[u8], taken: usize, a: FilePlace) -> u8
    requires { (a.0 ≤ 1536) × (taken + length piece.now ≤ limit) }
    ensures { (f : List ℕ) → Joins f partial.now piece.now taken (block_at a.0 (whole_blocks taken a.0)) → (0 < whole_blocks taken a.0 → known ≡ header_byte f a.0 0 0) → 0 < whole_blocks (length f) a.0 → result ≡ header_byte f a.0 0 0 }
{
    let had = blocks::whole_blocks(taken, a);
    let all = blocks::whole_blocks(taken + piece.len(), a);
    if had == 0 && 0 < all {
        return joined_byte(partial, piece, taken, a.0, a.0);
    }
    known
}

// DS2: whether block b can be added when those before it announce so many frames.
fn block_fits(first: u8, announced: usize, b: usize) -> bool
    requires { (b ≤ 524288) × (announced ≤ 255 * b) }
    ensures { (f : List ℕ) (a : ℕ) → Bytes f → announced ≡ announced_in f a b → (0 < b → first ≡ header_byte f a 0 0) → result ≡ block_fits false f a b }
{
    let swap = hold::waiting::flag(first);
    let ready = announced.min(packets::reads_within(swap, PAYLOAD * b));
    let base = packets::reach(swap, ready);
    PAYLOAD * (b + 1) <= base + HOLD
}

// DS2: goes over the blocks that the piece completes, or refuses by 7 at the first that does not fit.
fn look_over(
    a: FilePlace,
    taken: usize,
    was: Standing,
    partial: &[u8; 512],
    piece: &[u8],
) -> Result<Surveyed, Refusal>
    requires near { (a.0 ≤ 1536) × (taken + length piece.now ≤ limit) }
    requires few { was.announced ≤ 255 * whole_blocks taken a.0 }
    ensures few { IfOk result (λ found. found.announced ≤ 255 * whole_blocks (taken + length piece.now) a.0) }
    ensures fits { (f waiting : List ℕ) → Known false f a.0 taken was partial.now waiting piece.now → Surveys f a.0 result }
{
    let begin = blocks::whole_blocks(taken, a);
    let end = blocks::whole_blocks(taken + piece.len(), a);
    let first = first_after(was.first, partial, piece, taken, a);
    let tail = a.0 + BLOCK * begin;
    let mut announced = was.announced;
    for b in begin..end {
        if !block_fits(first, announced, b) {
            return Err(Refusal::Overflow(HOLD));
        }
        let count = joined_byte(partial, piece, taken, tail, a.0 + BLOCK * b + 2);
        announced += usize::from(count);
    }
    Ok(Surveyed { announced, first })
}

// The run of a DSS block from block j on, which waits or comes with the piece.
fn run_at(
    a: FilePlace,
    taken: usize,
    j: usize,
    partial: &[u8; 512],
    waiting: &[u8; 66],
    piece: &[u8],
    block: usize,
) -> Run
    requires within { (a.0 ≤ 1536) × (taken + length piece.now ≤ limit) }
    requires near { (j ≤ block) × (block < whole_blocks (taken + length piece.now) a.0) × (whole_blocks taken a.0 ≤ j + 21) }
    ensures { (result.count ≤ 255) × (result.start.0 ≤ 506 * block + 506) × ((f : List ℕ) → Joins f partial.now piece.now taken (block_at a.0 (whole_blocks taken a.0)) → waiting.now ≡ headers_from f a.0 (whole_blocks taken a.0) j → result ≡ dss_run f a.0 block) }
{
    let had = blocks::whole_blocks(taken, a);
    if block < had {
        return hold::waiting::waiting_run(waiting, block - j, block);
    }
    let tail = a.0 + BLOCK * had;
    let at = a.0 + BLOCK * block;
    let byte0 = joined_byte(partial, piece, taken, tail, at);
    let byte1 = joined_byte(partial, piece, taken, tail, at + 1);
    let byte2 = joined_byte(partial, piece, taken, tail, at + 2);
    hold::waiting::block_run(block, byte0, byte1, byte2)
}

// How many packets of a DSS recording are ready with the piece.
fn dss_ready(
    a: FilePlace,
    taken: usize,
    was: Standing,
    partial: &[u8; 512],
    waiting: &[u8; 66],
    piece: &[u8],
) -> usize
    requires within { (a.0 ≤ 1536) × (taken + length piece.now ≤ limit) }
    requires known { (f : List ℕ) × Known true f a.0 taken was partial.now waiting.now piece.now }
    ensures { (f : List ℕ) → Known true f a.0 taken was partial.now waiting.now piece.now → result ≡ ready true f a.0 (whole_blocks (length f) a.0) }
{
    let j = was.base.0 / PAYLOAD;
    let end = blocks::whole_blocks(taken + piece.len(), a);
    let long = PAYLOAD * end;
    let mut ready = was.ready;
    for block in j..end {
        let run = run_at(a, taken, j, partial, waiting, piece, block);
        if long < hold::places::ends_at(run) {
            return ready;
        }
        ready += run.count;
    }
    ready
}

// Refusal 8, if there is no room for all that are needed.
fn fit_in(needed: usize, room: usize) -> Result<usize, Refusal>
    ensures { result_says result ≡ demand (leb needed room) 8 needed (answers needed) }
{
    if room < needed {
        return Err(Refusal::Room(needed));
    }
    Ok(needed)
}

// DS2: refusals 7 and 8, of a piece that the reader may take.
fn judge_ds2(
    a: FilePlace,
    taken: usize,
    was: Standing,
    partial: &[u8; 512],
    piece: &[u8],
    room: usize,
) -> Result<usize, Refusal>
    requires within { (a.0 ≤ 1536) × (taken + length piece.now ≤ limit) }
    requires known { (f : List ℕ) × (waiting : List ℕ) × Known false f a.0 taken was partial.now waiting piece.now }
    ensures { (f waiting : List ℕ) → Known false f a.0 taken was partial.now waiting piece.now → result_says result ≡ judged false f a.0 taken room }
{
    let found = look_over(a, taken, was, partial, piece)?;
    let end = blocks::whole_blocks(taken + piece.len(), a);
    let swap = hold::waiting::flag(found.first);
    let ready = found
        .announced
        .min(packets::reads_within(swap, PAYLOAD * end));
    fit_in(ready.saturating_sub(was.ready), room)
}

// The same of either kind, which is known only as a reader runs (hold_either). Every DSS block fits.
fn judge(
    dss: bool,
    a: FilePlace,
    taken: usize,
    was: Standing,
    partial: &[u8; 512],
    waiting: &[u8; 66],
    piece: &[u8],
    room: usize,
) -> Result<usize, Refusal>
    requires within { (a.0 ≤ 1536) × (taken + length piece.now ≤ limit) }
    requires known { (f : List ℕ) × Known dss f a.0 taken was partial.now waiting.now piece.now }
    ensures { (f : List ℕ) → Known dss f a.0 taken was partial.now waiting.now piece.now → result_says result ≡ judged dss f a.0 taken room }
{
    if dss {
        let ready = dss_ready(a, taken, was, partial, waiting, piece);
        return fit_in(ready.saturating_sub(was.ready), room);
    }
    judge_ds2(a, taken, was, partial, piece, room)
}

// For the crates above. Refusals 6 and 2 before them. The phase is the number that a reader has.
pub fn decide(
    dss: bool,
    a: FilePlace,
    phase: u64,
    taken: usize,
    was: Standing,
    partial: &[u8; 512],
    waiting: &[u8; 66],
    piece: &[u8],
    room: usize,
) -> Result<usize, Refusal>
    requires within { (a.0 ≤ 1536) × (taken ≤ limit) }
    requires known { phase ≡ 0 → taken + length piece.now ≤ limit → ((f : List ℕ) × Known dss f a.0 taken was partial.now waiting.now piece.now) }
    ensures { (f : List ℕ) → (phase ≡ 0 → taken + length piece.now ≤ limit → Known dss f a.0 taken was partial.now waiting.now piece.now) → result_says result ≡ demand (eqb phase 0) 6 0 (demand (leb (taken + length piece.now) limit) 2 limit (judged dss f a.0 taken room)) }
{
    if phase != 0 {
        return Err(Refusal::Ended);
    }
    if LIMIT - taken < piece.len() {
        return Err(Refusal::Limit(LIMIT));
    }
    judge(dss, a, taken, was, partial, waiting, piece, room)
}
