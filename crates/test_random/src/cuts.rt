// The files of some numbers: each made, read whole and tallied, and then cut in every way that is tried.
// Rests on the rest of this program, on test_generated, test_readings and test_tools.
use crate::drained::try_cut;
use std::io;
use test_generated::cuts::{Way, cuts_by, is_tried, times_by};
use test_generated::tried::{Tried, with_file};
use test_generated::{Made, is_sp};
use test_readings::Reading;

// A file by its number, and its whole reading.
#[derive(Clone, Copy)]
pub struct File<'a> {
    pub number: u64,
    pub made: Made,
    pub bytes: &'a [u8],
    pub whole: Reading,
}

// The cut of a number, if it is tried.
fn try_one(
    rt: &impl Print,
    before: Tried,
    way: Way,
    file: File,
    k: usize,
    out: &mut [u8],
    counts: &mut [u8],
) -> io::Result<Tried> {
    let cuts = cuts_by(way, file.made, file.number, k);
    if !is_tried(way, cuts) {
        return Ok(before);
    }
    try_cut(rt, before, file, cuts, out, counts)
}

// So many cuts of a file, by numbers.
fn try_cuts(
    rt: &impl Print,
    before: Tried,
    way: Way,
    file: File,
    times: usize,
    out: &mut [u8],
    counts: &mut [u8],
) -> io::Result<Tried> {
    let mut tried = before;
    for k in 0..times {
        tried = try_one(rt, tried, way, file, k, out, counts)?;
    }
    Ok(tried)
}

// How many numbers of the tally are not the whole reading's.
fn tally_differs(rt: &impl Print, file: File) -> io::Result<usize> {
    let told = test_readings::tallied(file.bytes);
    test_tools::all_differ(
        rt,
        b"tally of file ",
        file.number,
        &file.whole.told.numbers(),
        &told.numbers(),
    )
}

// The tally of a file that was read whole, and then each cut.
fn read_file(
    rt: &impl Print,
    before: Tried,
    way: Way,
    file: File,
    out: &mut [u8],
    counts: &mut [u8],
) -> io::Result<Tried> {
    let wrong = tally_differs(rt, file)?;
    let told = file.whole.told;
    let tried = with_file(before, file.made, told.many, told.number, wrong);
    if !is_sp(file.made) {
        return Ok(tried);
    }
    let times = times_by(way, file.made, told.many);
    try_cuts(rt, tried, way, file, times, out, counts)
}

// The file of a number, made in the front of the space, and read.
fn one_file(
    rt: &impl Print,
    before: Tried,
    way: Way,
    number: u64,
    space: &mut [u8],
    out: &mut [u8],
    counts: &mut [u8],
) -> io::Result<Tried> {
    let made = test_generated::plan(number);
    let long = made.long.min(space.len());
    let bytes = &mut space[..long];
    test_generated::make(number, made, bytes);
    let file = File {
        number,
        made,
        bytes,
        whole: test_readings::whole(bytes, made, out, counts),
    };
    read_file(rt, before, way, file, out, counts)
}

// The files of some numbers.
fn files(
    rt: &impl Print,
    before: Tried,
    way: Way,
    from: u64,
    to: u64,
    out: &mut [u8],
    counts: &mut [u8],
) -> io::Result<Tried> {
    let mut space = [0u8; 24576];
    let mut tried = before;
    for number in from..to {
        tried = one_file(rt, tried, way, number, &mut space, out, counts)?;
    }
    Ok(tried)
}

// Every cut of small files, cuts around edges, and cuts that noise chooses.
pub fn all(rt: &impl Print, out: &mut [u8], counts: &mut [u8]) -> io::Result<Tried> {
    let mut tried = Tried::default();
    tried = files(rt, tried, Way::Everywhere, 1, 150, out, counts)?;
    tried = files(rt, tried, Way::AroundEdges, 200, 400, out, counts)?;
    files(rt, tried, Way::ByNoise, 1000, 7000, out, counts)
}
