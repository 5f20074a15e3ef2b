// The blocks of an accepted piece, one after another: the first from what was kept of it and the piece, the others from the piece.
// Rests on hold_either, for a block more, on hold, on blocks and tables.
ghost use Rattle.std.specs.Prelude.{◌≡◌, List, true, false, ℕ, ◌+◌, ◌*◌, ◌-◌, ◌≤◌, ◌<◌, length};
ghost use Rattle.blocks.specs.Places.{limit, whole_blocks};
ghost use Rattle.hold.specs.Inner.{Added};
ghost use Rattle.pieces.specs.Joined.{bytes_from};
ghost use Rattle.pieces.specs.Inner.{Joins, Able, Coming, Absorbed};

use blocks::{BLOCK, FilePlace};
use hold::Standing;

// Makes of `partial` the 512 bytes from `place` on: those that it has, those of the piece, then zeros.
fn renew(partial: &mut [u8; 512], piece: &[u8], taken: usize, place: usize)
    requires { (taken + length piece.now ≤ limit) × (taken ≤ place + 512) }
    ensures { (f : List ℕ) → Joins f partial.old piece.now taken place → partial.new ≡ bytes_from f place }
{
    let all = taken + piece.len();
    let kept = taken.saturating_sub(place);
    let end = BLOCK.min(all.saturating_sub(place));
    let at = place.saturating_sub(taken);
    tables::copy(partial, kept, piece, at, end - kept);
    tables::clear(partial, end, BLOCK - end);
}

// Adds block b of the bytes joined, of either kind, which is known only as a reader runs (hold_either).
fn take_block(
    dss: bool,
    a: FilePlace,
    taken: usize,
    was: Standing,
    b: usize,
    hold: &mut [u8; 12288],
    partial: &mut [u8; 512],
    waiting: &mut [u8; 66],
    piece: &[u8],
    number: usize,
    out: &mut [u8],
    counts: &mut [u8],
) -> Standing
    requires { (f : List ℕ) × Coming dss f a.0 taken was b number hold.old partial.old waiting.old piece.now (length out.old) (length counts.old) }
    ensures { (f : List ℕ) → Coming dss f a.0 taken was b number hold.old partial.old waiting.old piece.now (length out.old) (length counts.old) → Added dss f a.0 (whole_blocks (length f) a.0) b number hold.new waiting.new result out.old out.new counts.old counts.new }
{
    let place = a.0 + BLOCK * b;
    if taken <= place {
        return hold_either::add_block(
            dss,
            was,
            b,
            hold,
            waiting,
            piece,
            place - taken,
            number,
            out,
            counts,
        );
    }
    renew(partial, piece, taken, place);
    // a copy, so that nothing is lent of what is kept: the reader is then taken apart by the compiler
    let block = *partial;
    hold_either::add_block(dss, was, b, hold, waiting, &block, 0, number, out, counts)
}

// For the crates above. Adds all blocks that are whole with an accepted piece, and keeps the bytes of the one that is not; a refused piece changes
// nothing.
pub fn absorb(
    accepted: bool,
    dss: bool,
    a: FilePlace,
    taken: usize,
    was: Standing,
    hold: &mut [u8; 12288],
    partial: &mut [u8; 512],
    waiting: &mut [u8; 66],
    piece: &[u8],
    out: &mut [u8],
    counts: &mut [u8],
) -> Standing
    requires near { a.0 ≤ 1536 }
    requires able { accepted ≡ true → ((f : List ℕ) × Able dss f a.0 taken was hold.old partial.old waiting.old piece.now (length out.old) (length counts.old)) }
    ensures refused { accepted ≡ false → (result ≡ was) × (hold.new ≡ hold.old) × (partial.new ≡ partial.old) × (waiting.new ≡ waiting.old) × (out.new ≡ out.old) × (counts.new ≡ counts.old) }
    ensures taken { accepted ≡ true → (f : List ℕ) → Able dss f a.0 taken was hold.old partial.old waiting.old piece.now (length out.old) (length counts.old) → Absorbed dss f a.0 taken hold.new partial.new waiting.new result out.old out.new counts.old counts.new }
{
    if !accepted {
        return was;
    }
    let begin = blocks::whole_blocks(taken, a);
    let end = blocks::whole_blocks(taken + piece.len(), a);
    let mut standing = was;
    for b in begin..end {
        let number = standing.ready - was.ready;
        standing = take_block(
            dss, a, taken, standing, b, hold, partial, waiting, piece, number, out, counts,
        );
    }
    renew(partial, piece, taken, a.0 + BLOCK * end);
    standing
}
