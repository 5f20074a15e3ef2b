// One case: its file and its index are made, the four calls are asked, and what they answer and leave is held to the list. Rests on the rest of
// this program, on index and finding, and on test_expected, test_sums and test_tools.
use crate::making::next_index;
use std::io;
use test_expected::making::next_case;
use test_expected::{Case, Replay};
use test_sums::expect_said;
use test_tools::digest_all;

// What is asked of a file: which packet, and how many bytes of the output, how many counts, and how many bytes for an index are lent.
#[derive(Clone, Copy)]
struct Asked {
    which: usize,
    out: usize,
    counts: usize,
    for_index: usize,
}

// Building: its answer, which is bytes and entries, and a digest of all that was lent.
fn build<R: Print>(replay: &mut Replay<'_, R>, file: &[u8], out: &mut [u8]) -> io::Result<()> {
    let answer = index::build_index(file, out);
    expect_said(
        replay,
        answer.map(|size| [size.bytes as u64, size.entries as u64]),
    )?;
    replay.expect(digest_all(0, out))
}

// The same with so many bytes lent, and no more than there are.
fn built<R: Print>(replay: &mut Replay<'_, R>, file: &[u8], lent: usize) -> io::Result<()> {
    let mut out = [165u8; 4096];
    build(replay, file, &mut out[..lent.min(4096)])
}

// Reading an index, which answers entries and packets, and finding the entry for a packet by it.
fn by_index<R: Print>(
    replay: &mut Replay<'_, R>,
    file: &[u8],
    index: &[u8],
    number: usize,
) -> io::Result<()> {
    let read = index::read_index(file, index);
    expect_said(
        replay,
        read.map(|totals| [totals.entries as u64, totals.packets as u64]),
    )?;
    let found = finding::find_entry(file, index, number);
    expect_said(
        replay,
        found.map(|entry| [
            entry.number as u64,
            entry.first as u64,
            entry.place.0 as u64,
        ]),
    )
}

// A packet by an index, with so much lent.
fn called<R: Print>(
    replay: &mut Replay<'_, R>,
    file: &[u8],
    index: &[u8],
    number: usize,
    out: &mut [u8],
    counts: &mut [u8],
) -> io::Result<()> {
    let answer = finding::dss_packet(file, index, number, out, counts);
    replay.expect_all(&test_sums::left(answer, out, counts))
}

// Lends as much as the case says, and no more than there is.
fn in_room<R: Print>(
    replay: &mut Replay<'_, R>,
    asked: Asked,
    file: &[u8],
    index: &[u8],
) -> io::Result<()> {
    let mut out = [165u8; 256];
    let mut counts = [165u8; 128];
    called(
        replay,
        file,
        index,
        asked.which,
        &mut out[..asked.out.min(256)],
        &mut counts[..asked.counts.min(128)],
    )
}

// All answers of a case.
fn answers<R: Print>(
    replay: &mut Replay<'_, R>,
    asked: Asked,
    file: &[u8],
    index: &[u8],
) -> io::Result<()> {
    built(replay, file, asked.for_index)?;
    by_index(replay, file, index, asked.which)?;
    in_room(replay, asked, file, index)
}

// With its index.
fn with_index<R: Print>(replay: &mut Replay<'_, R>, asked: Asked, file: &[u8]) -> io::Result<()> {
    let mut space = [0u8; 4096];
    let index = next_index(&mut replay.numbers, &mut space);
    answers(replay, asked, file, index)
}

// The list that this program replays.
pub struct Indexes;

impl Case for Indexes {
    // The next case of the list, with its file.
    fn hold<R: Print>(replay: &mut Replay<'_, R>) -> io::Result<()> {
        let mut space = [0u8; 135168];
        let file = next_case(replay, &mut space);
        let asked = Asked {
            which: replay.numbers.next_size(),
            out: replay.numbers.next_size(),
            counts: replay.numbers.next_size(),
            for_index: replay.numbers.next_size(),
        };
        with_index(replay, asked, file)
    }
}
