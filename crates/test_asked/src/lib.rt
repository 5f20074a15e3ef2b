// Detection, the whole calls and the requests, asked about one file, and what they answer, held to the list. All of it is for the crates
// above. Rests on those calls and refusals, on test_expected for the list, and on test_fetched, test_sums and test_tools.
#![tactic(auto)]

use blocks::{FilePlace, StreamPlace};
use detect::AudioFormat;
use frames::Fetched;
use refusals::{Numbers, Refusal};
use std::io;
use test_expected::Replay;
use test_sums::{expect_said, said};
use test_tools::{digest, digest_all, part};

// The list's number for a format, said again here: a test does not ask the code what to expect.
fn format_number(format: AudioFormat) -> u64 {
    match format {
        AudioFormat::None => 0,
        AudioFormat::DssSp => 1,
        AudioFormat::Ds2Sp => 2,
        AudioFormat::Ds2Qp => 3,
        AudioFormat::Ds2Qp7 => 4,
        AudioFormat::GrundigSp => 5,
    }
}

pub fn detection<R: Print>(replay: &mut Replay<'_, R>, file: &[u8]) -> io::Result<()> {
    let format = detect::detect_format(file);
    let start = detect::ds2::detect_ds2_audio_start(file);
    let byte = detect::ds2::detect_ds2_format_type(file, start);
    replay.expect_all(&[format_number(format), start.0 as u64, u64::from(byte)])
}

// What a whole SP call answered and left.
fn packets<R: Print>(
    replay: &mut Replay<'_, R>,
    answer: Result<usize, Refusal>,
    out: &[u8],
    counts: &[u8],
) -> io::Result<()> {
    replay.expect_all(&test_sums::left(answer, out, counts))
}

// The whole SP call of a family, and lent memory made again as it was before the call.
fn whole_sp<R: Print>(
    replay: &mut Replay<'_, R>,
    file: &[u8],
    dss: bool,
    out: &mut [u8],
    counts: &mut [u8],
) -> io::Result<()> {
    let answer = test_sums::demux(file, dss, out, counts);
    packets(replay, answer, out, counts)?;
    out.fill(165);
    counts.fill(165);
    Ok(())
}

// The whole SP call of DSS, and that of DS2. All that is lent is 165, before and after.
pub fn both_sp<R: Print>(
    replay: &mut Replay<'_, R>,
    file: &[u8],
    out: &mut [u8],
    counts: &mut [u8],
) -> io::Result<()> {
    whole_sp(replay, file, true, out, counts)?;
    whole_sp(replay, file, false, out, counts)
}

// So many words of so many entries, and 16 past them.
fn words(width: usize, entries: usize) -> usize {
    entries.saturating_mul(width).saturating_add(16)
}

// What a whole QP call answered and left.
fn with_segments<R: Print>(
    replay: &mut Replay<'_, R>,
    file: &[u8],
    answer: Result<qp::Totals, Refusal>,
    table: &[u32],
) -> io::Result<()> {
    let segments = answer.map_or(0, |totals| totals.segments);
    let all = test_fetched::of_segments(file, table, segments);
    expect_said(
        replay,
        answer.map(|totals| [totals.segments as u64, totals.announced as u64]),
    )?;
    replay.expect(digest(0, table, words(qp::ENTRY, segments)))?;
    replay.expect(all.digest)
}

fn in_table<R: Print>(
    replay: &mut Replay<'_, R>,
    file: &[u8],
    table: &mut [u32],
) -> io::Result<()> {
    let answer = qp::demux_ds2_qp(file, table);
    with_segments(replay, file, answer, table)
}

// The whole QP call, with so many words lent.
pub fn whole_qp<R: Print>(replay: &mut Replay<'_, R>, file: &[u8], lent: usize) -> io::Result<()> {
    let mut table = [165u32; 16384];
    in_table(replay, file, &mut table[..lent.min(16384)])
}

// The refused record's size and the bytes that are absent. The list has them last, past the digests.
fn of_refused(answer: Result<qp7::Totals, Refusal>) -> [u64; 2] {
    match answer {
        Err(why) => {
            let why = Numbers::from(why);
            [why.size, why.absent]
        }
        Ok(_) => [0, 0],
    }
}

// What a whole QP7 call answered and left.
fn with_records<R: Print>(
    replay: &mut Replay<'_, R>,
    file: &[u8],
    answer: Result<qp7::Totals, Refusal>,
    records: &[u32],
    segments: &[u32],
) -> io::Result<()> {
    let (refusal, totals) = said(answer.map(|totals| [
        totals.records as u64,
        totals.segments as u64,
    ]));
    let [of_records, of_segments] = totals;
    let many = of_segments as usize;
    let all = test_fetched::of_records(file, records, segments, many);
    replay.expect_all(&refusal)?;
    replay.expect_all(&totals)?;
    replay.expect(digest(0, records, words(1, of_records as usize)))?;
    replay.expect(digest(0, segments, words(qp7::ENTRY, many)))?;
    replay.expect(all.digest)?;
    replay.expect_all(&of_refused(answer))
}

fn in_tables<R: Print>(
    replay: &mut Replay<'_, R>,
    file: &[u8],
    records: &mut [u32],
    segments: &mut [u32],
) -> io::Result<()> {
    let answer = qp7::demux_ds2_qp7(file, records, segments);
    with_records(replay, file, answer, records, segments)
}

// The whole QP7 call, with so many words lent for records and for segments.
pub fn whole_qp7<R: Print>(
    replay: &mut Replay<'_, R>,
    file: &[u8],
    one: usize,
    other: usize,
) -> io::Result<()> {
    let mut records = [165u32; 4096];
    let mut segments = [165u32; 12288];
    in_tables(
        replay,
        file,
        &mut records[..one.min(4096)],
        &mut segments[..other.min(12288)],
    )
}

// A request for a frame: its place and its size, and how many bytes of a scratch are lent.
#[derive(Clone, Copy)]
pub struct Request {
    pub place: StreamPlace,
    pub size: usize,
    pub lent: usize,
}

// Where a frame stands, in numbers: whether it is in the scratch, and the file place.
fn place_numbers(found: Fetched) -> [u64; 2] {
    match found {
        Fetched::InScratch => [1, 0],
        Fetched::InFile(place) => [0, place.0 as u64],
    }
}

fn fetch<R: Print>(
    replay: &mut Replay<'_, R>,
    file: &[u8],
    place: StreamPlace,
    size: usize,
    scratch: &mut [u8],
) -> io::Result<()> {
    let answer = frames::fill(file, place, size, scratch);
    let shown = frames::show(file, place, size, scratch);
    expect_said(replay, answer.map(|found| place_numbers(found)))?;
    replay.expect(digest_all(0, shown))?;
    replay.expect(digest_all(0, scratch))
}

// The request for a frame.
pub fn frame<R: Print>(
    replay: &mut Replay<'_, R>,
    file: &[u8],
    request: Request,
) -> io::Result<()> {
    let mut scratch = [165u8; 64];
    let room = request.lent.min(64);
    fetch(
        replay,
        file,
        request.place,
        request.size,
        &mut scratch[..room],
    )
}

// Where a frame stands, with nothing filled.
pub fn placed<R: Print>(
    replay: &mut Replay<'_, R>,
    file: &[u8],
    request: Request,
) -> io::Result<()> {
    let answer = frames::frame_place(file, request.place, request.size, request.lent);
    expect_said(replay, answer.map(|found| place_numbers(found)))
}

// Where a payload stands, and a digest of it.
pub fn payload<R: Print>(replay: &mut Replay<'_, R>, file: &[u8], block: usize) -> io::Result<()> {
    let answer = whole::payload_place(file, block);
    expect_said(replay, answer.map(|place| [place.0 as u64]))?;
    replay.expect(digest_all(0, whole::payload(file, block)))
}

// The type from a place on, and whether the part there is a good header.
pub fn probed<R: Print>(
    replay: &mut Replay<'_, R>,
    file: &[u8],
    place: usize,
    long: usize,
) -> io::Result<()> {
    let byte = detect::ds2::detect_ds2_format_type(file, FilePlace(place));
    let good = detect::ds2::is_ds2_audio_block_header(part(file, place, long));
    replay.expect_all(&[u64::from(byte), u64::from(good)])
}
