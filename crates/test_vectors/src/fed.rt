// A file read in pieces: every answer of the reader, held to the list; and the limit, which no file of the list reaches. Rests on reader, on
// test_feeding and test_ends, and on test_expected, test_sums and test_tools.
use reader::Reader;
use std::io;
use test_ends::{Ended, LenientEnd};
use test_expected::Replay;
use test_sums::Sums;
use test_tools::{Cuts, say};

// What a file gives in pieces: the answer to open, and to an empty piece then; what the pieces brought, and the ends.
#[derive(Clone, Copy)]
pub struct Pieces {
    opened: Sums,
    fresh: Sums,
    came: Sums,
    ended: Ended,
}

// Opens a reader, feeds it the file, and ends it, also by a choice.
pub fn in_pieces(
    kind: u64,
    file: &[u8],
    cuts: Cuts,
    choice: u64,
    out: &mut [u8],
    counts: &mut [u8],
) -> Pieces {
    let step = Reader::open(kind);
    let opened = test_sums::told(step.answer, out, counts);
    let fresh = test_ends::empty_piece(step.reader, out, counts);
    let fed = test_feeding::feed(step.reader, file, cuts, out, counts);
    Pieces {
        opened,
        fresh,
        came: fed.sums,
        ended: test_ends::ends_of(fed.reader, choice, out, counts),
    }
}

// What the pieces brought.
fn with_sums<R: Print>(replay: &mut Replay<'_, R>, came: Sums) -> io::Result<()> {
    replay.expect(came.taken)?;
    replay.expect_all(&came.answer())?;
    replay.expect_all(&[came.pieces, came.bytes, came.counts])
}

// What a lenient end brought, and the frames owed after it.
fn with_end<R: Print>(replay: &mut Replay<'_, R>, came: Sums, owed: usize) -> io::Result<()> {
    replay.expect_all(&came.handed_out())?;
    replay.expect(owed as u64)
}

// The lenient end, and an empty piece after that.
fn with_lenient<R: Print>(replay: &mut Replay<'_, R>, lenient: LenientEnd) -> io::Result<()> {
    with_end(replay, lenient.came, lenient.owed)?;
    replay.expect_all(&lenient.late.answer())
}

// The strict end, then the lenient end.
fn with_ends<R: Print>(replay: &mut Replay<'_, R>, ended: Ended) -> io::Result<()> {
    replay.expect(ended.owed as u64)?;
    replay.expect_all(&ended.strict.refusal())?;
    with_lenient(replay, ended.lenient)
}

// A reader opened, fed and ended.
pub fn with_pieces<R: Print>(replay: &mut Replay<'_, R>, pieces: Pieces) -> io::Result<()> {
    replay.expect_all(&pieces.opened.refusal())?;
    with_sums(replay, pieces.came)?;
    with_ends(replay, pieces.ended)
}

// After the lenient end: what it left untouched, the strict end, and the lenient end again.
fn with_second<R: Print>(replay: &mut Replay<'_, R>, lenient: LenientEnd) -> io::Result<()> {
    replay.expect(lenient.came.past)?;
    replay.expect_all(&lenient.strict.refusal())?;
    with_end(replay, lenient.again, lenient.still)
}

// The packets of the strict end, the refusal of an empty piece after it, and what follows on the lenient end.
fn with_rest<R: Print>(replay: &mut Replay<'_, R>, ended: Ended) -> io::Result<()> {
    replay.expect_all(&[ended.strict.packets, ended.patient.number])?;
    with_second(replay, ended.lenient)
}

// The packets that open answers, an empty piece on the fresh reader, what the pieces left untouched, and the rest.
pub fn with_more<R: Print>(replay: &mut Replay<'_, R>, pieces: Pieces) -> io::Result<()> {
    replay.expect_all(&[
        pieces.opened.packets,
        pieces.fresh.number,
        pieces.fresh.packets,
        pieces.came.past,
    ])?;
    with_rest(replay, pieces.ended)
}

// An end by a choice that is neither, after the lenient end.
fn with_late_choice<R: Print>(replay: &mut Replay<'_, R>, lenient: LenientEnd) -> io::Result<()> {
    replay.expect_all(&lenient.neither.answer())
}

// What the strict end left untouched, and the ends by a choice that is neither, before the others and after the lenient one.
pub fn with_choice<R: Print>(replay: &mut Replay<'_, R>, pieces: Pieces) -> io::Result<()> {
    let ended = pieces.ended;
    replay.expect(ended.strict.past)?;
    replay.expect_all(&ended.neither.answer())?;
    with_late_choice(replay, ended.lenient)
}

// A DSS reader at the limit and a byte past it: 268,435,456 bytes are taken, and one more is refused by 2.
pub fn limit(rt: &impl Print) -> io::Result<()> {
    let came = test_feeding::past_the_limit();
    say(rt, b"limit: taken ", came.taken)?;
    say(rt, b", then refused ", came.number)?;
    say(rt, b" ", came.beside)?;
    rt.write_all(b"\n")
}
