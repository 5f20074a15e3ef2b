// One file in pieces: what a reader hands out that is fed it and drained, against the file's whole reading. Rests on reader,
// test_feeding, test_ends, test_generated, test_sums and test_tools.
use crate::cuts::File;
use reader::{Reader, STRICT};
use std::io;
use test_ends::{drained_by_64, end_said};
use test_generated::tried::{Tried, show_cuts, with_cut};
use test_sums::Sums;
use test_tools::Cuts;

// What a file gives in pieces and to the drained end: what the pieces brought, the frames owed then, what an end gets by a choice that is
// neither, what the strict end gets, and all that came out.
#[derive(Clone, Copy)]
struct ToTheEnd {
    came: Sums,
    owed: usize,
    neither: Sums,
    strict: Sums,
    all: Sums,
}

// A choice that is neither the strict nor the lenient end; its lowest byte is the lenient one's.
const NEITHER: u64 = 257;

// Opens a reader, feeds it the file and drains it.
fn drained(kind: u64, file: &[u8], cuts: Cuts, out: &mut [u8], counts: &mut [u8]) -> ToTheEnd {
    let fresh = Reader::open(kind).reader;
    let fed = test_feeding::feed(fresh, file, cuts, out, counts);
    ToTheEnd {
        came: fed.sums,
        owed: fed.reader.owed(),
        neither: end_said(fed.reader, NEITHER, out, counts),
        strict: end_said(fed.reader, STRICT, out, counts),
        all: drained_by_64(fed.reader, fed.sums),
    }
}

// What the strict end says: 13 and the bytes inside a block, and else 14 and the frames owed, if there are any.
fn strict_refusal(cut: usize, owed: usize) -> [u64; 2] {
    match (cut, owed) {
        (0, 0) => [0, 0],
        (0, _) => [14, owed as u64],
        _ => [13, cut as u64],
    }
}

// A reader that took the whole file and was drained: nothing announced goes uncounted before the end, there is no third end, the strict one tells
// the bytes inside a block or the frames owed, and all packets are the whole reading's after it.
fn end_differs(rt: &impl Print, file: File, drained: ToTheEnd) -> io::Result<usize> {
    let whole = file.whole;
    let [number, beside] = strict_refusal(file.made.cut, drained.owed);
    let expected = [
        whole.told.announced,
        22,
        0,
        number,
        beside,
        whole.told.many,
        whole.digest,
        whole.digest_of_counts,
    ];
    let got = [
        drained.came.packets.wrapping_add(drained.owed as u64),
        drained.neither.number,
        drained.neither.beside,
        drained.strict.number,
        drained.strict.beside,
        drained.all.packets,
        drained.all.bytes,
        drained.all.counts,
    ];
    test_tools::all_differ(rt, b"pieces of file ", file.number, &expected, &got)
}

// How many answers to a file cut in one way are not the whole reading's. Only a DS2 piece may be refused, and only by 7.
fn cut_differs(rt: &impl Print, file: File, drained: ToTheEnd) -> io::Result<usize> {
    let refusal = drained.came.number;
    if refusal == 0 {
        return end_differs(rt, file, drained);
    }
    let seven = if file.made.kind == 0 { 7 } else { 0 };
    test_tools::differs(
        rt,
        b"refused piece of file ",
        file.number,
        1,
        seven,
        refusal,
    )
}

// One file cut in one way.
pub fn try_cut(
    rt: &impl Print,
    before: Tried,
    file: File,
    cuts: Cuts,
    out: &mut [u8],
    counts: &mut [u8],
) -> io::Result<Tried> {
    let drained = drained(file.made.kind, file.bytes, cuts, out, counts);
    let wrong = cut_differs(rt, file, drained)?;
    if wrong != 0 {
        show_cuts(rt, file.number, cuts)?;
    }
    let came = drained.came;
    Ok(with_cut(before, came.packets, came.number, wrong))
}
