// One case: its file is made, the calls are asked, and what they answer is held to the list. Rests on test_asked and the rest of this
// program, on blocks, test_expected, listing, test_readings and test_tools.
use crate::fed::{Pieces, in_pieces, with_choice, with_more, with_pieces};
use blocks::StreamPlace;
use std::io;
use test_asked::Request;
use test_expected::making::next_case;
use test_expected::{Case, Numbers, Replay};
use test_tools::{Cuts, digest_all};

// What is asked of a file.
#[derive(Clone, Copy)]
struct Asked {
    // The kind of a reader, a number as `open` takes it, and how the file is cut for it.
    kind: u64,
    cuts: Cuts,
    // How much is lent: bytes of the output, counts, words of QP's table, of QP7's records and of its segments.
    out: usize,
    counts: usize,
    table: usize,
    records: usize,
    segments: usize,
    // A frame with its scratch, and a block's payload.
    frame: Request,
    block: usize,
    // What stands in the file at a place, as a part of so many bytes.
    probe: usize,
    part: usize,
    // A choice of an end that is neither.
    choice: u64,
}

fn read_asked(numbers: &mut Numbers) -> Asked {
    Asked {
        kind: numbers.next(),
        cuts: Cuts {
            first: numbers.next_size(),
            second: numbers.next_size(),
            step: numbers.next_size(),
        },
        out: numbers.next_size(),
        counts: numbers.next_size(),
        table: numbers.next_size(),
        records: numbers.next_size(),
        segments: numbers.next_size(),
        frame: Request {
            place: StreamPlace(numbers.next_size()),
            size: numbers.next_size(),
            lent: numbers.next_size(),
        },
        block: numbers.next_size(),
        probe: numbers.next_size(),
        part: numbers.next_size(),
        choice: numbers.next(),
    }
}

// The listing's line and the tally.
fn listed<R: Print>(replay: &mut Replay<'_, R>, file: &[u8]) -> io::Result<()> {
    let mut line = [0u8; listing::LINE];
    let long = listing::list_line(file, &mut line);
    replay.expect(digest_all(0, &line[..long]))?;
    replay.expect_all(&test_readings::tallied(file).numbers())
}

// All answers after those of the whole calls.
fn with_rest<R: Print>(
    replay: &mut Replay<'_, R>,
    asked: Asked,
    file: &[u8],
    pieces: Pieces,
) -> io::Result<()> {
    with_pieces(replay, pieces)?;
    test_asked::frame(replay, file, asked.frame)?;
    test_asked::payload(replay, file, asked.block)?;
    listed(replay, file)?;
    test_asked::probed(replay, file, asked.probe, asked.part)?;
    with_more(replay, pieces)?;
    test_asked::placed(replay, file, asked.frame)?;
    with_choice(replay, pieces)
}

// The whole calls of QP and QP7.
fn with_tables<R: Print>(replay: &mut Replay<'_, R>, asked: Asked, file: &[u8]) -> io::Result<()> {
    test_asked::whole_qp(replay, file, asked.table)?;
    test_asked::whole_qp7(replay, file, asked.records, asked.segments)
}

// All answers but those of detection, with so much lent.
fn in_room<R: Print>(
    replay: &mut Replay<'_, R>,
    asked: Asked,
    file: &[u8],
    out: &mut [u8],
    counts: &mut [u8],
) -> io::Result<()> {
    test_asked::both_sp(replay, file, out, counts)?;
    with_tables(replay, asked, file)?;
    let pieces = in_pieces(asked.kind, file, asked.cuts, asked.choice, out, counts);
    with_rest(replay, asked, file, pieces)
}

// Room for packets, as it is lent.
fn room() -> [u8; 172032] {
    [165u8; 172032]
}

// All answers of a case.
fn answers<R: Print>(replay: &mut Replay<'_, R>, asked: Asked, file: &[u8]) -> io::Result<()> {
    let mut out = room();
    let mut counts = [165u8; 4096];
    test_asked::detection(replay, file)?;
    in_room(
        replay,
        asked,
        file,
        &mut out[..asked.out.min(172032)],
        &mut counts[..asked.counts.min(4096)],
    )
}

// The list that this program replays.
pub struct Vectors;

impl Case for Vectors {
    // The next case of the list, with its file.
    fn hold<R: Print>(replay: &mut Replay<'_, R>) -> io::Result<()> {
        let mut space = [0u8; 67584];
        let file = next_case(replay, &mut space);
        let asked = read_asked(&mut replay.numbers);
        answers(replay, asked, file)
    }
}
