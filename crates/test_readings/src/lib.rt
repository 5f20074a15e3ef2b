// One file's whole reading and its tally, in numbers. All of it is for the crates above. Rests on the whole calls and the tally, on
// refusals and test_generated, and on test_fetched, test_sums and test_tools.
#![tactic(auto)]

use refusals::{Numbers, Refusal};
use tally::FileKind;
use test_fetched::Gathered;
use test_generated::Made;
use test_tools::{digest_all, part, sum_of};

// A tally in numbers: refusal and beside; kind, audio start and blocks; the frames that are announced, what is handed out, how much of it
// short, and its bytes; and a refused record's size and the bytes that are absent.
#[derive(Clone, Copy, Default)]
pub struct Told {
    pub number: u64,
    pub beside: u64,
    pub kind: u64,
    pub start: u64,
    pub blocks: u64,
    pub announced: u64,
    pub many: u64,
    pub short: u64,
    pub bytes: u64,
    pub size: u64,
    pub absent: u64,
}

impl Told {
    // A refused file has 0 for each of its other numbers.
    fn refused(why: Refusal) -> Self {
        let why = Numbers::from(why);
        Told {
            number: why.number,
            beside: why.beside,
            size: why.size,
            absent: why.absent,
            ..Told::default()
        }
    }

    // All of them, in that order.
    pub fn numbers(&self) -> [u64; 11] {
        [
            self.number,
            self.beside,
            self.kind,
            self.start,
            self.blocks,
            self.announced,
            self.many,
            self.short,
            self.bytes,
            self.size,
            self.absent,
        ]
    }
}

// A file's whole reading: what a tally has of it, and digests of what is handed out and of its packets' counts.
#[derive(Clone, Copy)]
pub struct Reading {
    pub told: Told,
    pub digest: u64,
    pub digest_of_counts: u64,
}

impl Reading {
    // Of a refused file nothing is handed out.
    fn not_read(why: Refusal) -> Self {
        Reading {
            told: Told::refused(why),
            digest: 0,
            digest_of_counts: 0,
        }
    }
}

fn byte(file: &[u8], at: usize) -> usize {
    usize::from(file.get(at).copied().unwrap_or(0))
}

// What packets in a row leave: how many of them are short, and whether the byte that is carried on came from the file. Before any packet
// that is a zero from nowhere.
#[derive(Clone, Copy, Default)]
struct Left {
    short: usize,
    sourced: bool,
}

// Whether a packet with so many file bytes is short: by its read, and a swapped one by what it is given too.
fn is_short(count: u8, swapped: bool, sourced: bool) -> bool {
    if swapped {
        count != 40 || !sourced
    } else {
        count != 42
    }
}

// A packet more. Byte 40 of an unswapped read is carried on, and a swapped one leaves the carry as it was.
fn with_packet(before: Left, count: u8, swapped: bool) -> Left {
    let is_short = is_short(count, swapped, before.sourced);
    Left {
        short: before.short.wrapping_add(usize::from(is_short)),
        sourced: if swapped { before.sourced } else { 40 < count },
    }
}

// Some packets more in a row, by their counts.
fn short_in_run(before: Left, counts: &[u8], swap: bool) -> Left {
    let mut left = before;
    let mut swapped = swap;
    for count in counts {
        left = with_packet(left, *count, swapped);
        swapped = !swapped;
    }
    left
}

// How many packets of a DSS file are short: each block begins by its own flag, and with what those before it carry on.
fn short_in_dss(file: &[u8], made: Made, counts: &[u8]) -> usize {
    let mut left = Left::default();
    let mut first: usize = 0;
    for block in part(file, made.start, made.blocks.wrapping_mul(512)).chunks(512) {
        let many = byte(block, 2);
        left = short_in_run(left, part(counts, first, many), 128 <= byte(block, 0));
        first = first.wrapping_add(many);
    }
    left.short
}

fn short_in(file: &[u8], made: Made, ds2: bool, counts: &[u8]) -> usize {
    if ds2 {
        short_in_run(Left::default(), counts, 128 <= byte(file, made.start)).short
    } else {
        short_in_dss(file, made, counts)
    }
}

// What the SP call of a family handed out, in so many packets.
fn read_sp(file: &[u8], made: Made, ds2: bool, many: usize, out: &[u8], counts: &[u8]) -> Reading {
    let packets = part(out, 0, test_tools::packet_bytes(many));
    let counts = part(counts, 0, many);
    Reading {
        told: Told {
            kind: u64::from(ds2),
            start: made.start as u64,
            blocks: made.blocks as u64,
            announced: many as u64,
            many: many as u64,
            short: short_in(file, made, ds2, counts) as u64,
            bytes: sum_of(counts),
            ..Told::default()
        },
        digest: digest_all(0, packets),
        digest_of_counts: digest_all(0, counts),
    }
}

// The whole SP reading, as DS2 or as DSS.
fn whole_sp(file: &[u8], made: Made, ds2: bool, out: &mut [u8], counts: &mut [u8]) -> Reading {
    match test_sums::demux(file, !ds2, out, counts) {
        Ok(many) => read_sp(file, made, ds2, many, out, counts),
        Err(why) => Reading::not_read(why),
    }
}

// What a table hands out, of a kind and so many frames announced.
fn gathered(kind: u64, made: Made, announced: usize, all: Gathered) -> Reading {
    Reading {
        told: Told {
            kind,
            start: made.start as u64,
            blocks: made.blocks as u64,
            announced: announced as u64,
            many: all.many as u64,
            short: all.short as u64,
            bytes: all.bytes as u64,
            ..Told::default()
        },
        digest: all.digest,
        digest_of_counts: 0,
    }
}

fn whole_qp(file: &[u8], made: Made) -> Reading {
    let mut table = [0u32; 256];
    match qp::demux_ds2_qp(file, &mut table) {
        Ok(totals) => {
            let all = test_fetched::of_segments(file, &table, totals.segments);
            gathered(2, made, totals.announced, all)
        }
        Err(why) => Reading::not_read(why),
    }
}

fn whole_qp7(file: &[u8], made: Made) -> Reading {
    let mut records = [0u32; 512];
    let mut segments = [0u32; 256];
    match qp7::demux_ds2_qp7(file, &mut records, &mut segments) {
        Ok(totals) => {
            let all = test_fetched::of_records(file, &records, &segments, totals.segments);
            gathered(3, made, totals.records, all)
        }
        Err(why) => Reading::not_read(why),
    }
}

// The table reading of a QP or QP7 file.
fn whole_table(file: &[u8], made: Made) -> Reading {
    if made.kind == 6 {
        whole_qp(file, made)
    } else {
        whole_qp7(file, made)
    }
}

// The whole reading of any file. One of QP or QP7 blocks that announce nothing has type 0, and is read as DS2 SP.
pub fn whole(file: &[u8], made: Made, out: &mut [u8], counts: &mut [u8]) -> Reading {
    if made.kind < 6 {
        return whole_sp(file, made, made.kind == 0, out, counts);
    }
    let read = whole_table(file, made);
    if read.told.number != 11 {
        return read;
    }
    whole_sp(file, made, true, out, counts)
}

// A kind by its number: 0 DSSSP, 1 DS2SP, 2 DS2QP, 3 DS2QP7. Said again here, as a format's number is in test_asked: a test does not ask the code
// what to expect.
fn kind_number(kind: FileKind) -> u64 {
    match kind {
        FileKind::DssSp => 0,
        FileKind::Ds2Sp => 1,
        FileKind::Ds2Qp => 2,
        FileKind::Ds2Qp7 => 3,
    }
}

pub fn tallied(file: &[u8]) -> Told {
    match tally::tally(file) {
        Ok(figures) => Told {
            kind: kind_number(figures.kind),
            start: figures.start.0 as u64,
            blocks: figures.blocks as u64,
            announced: figures.announced as u64,
            many: figures.out.many as u64,
            short: figures.out.short as u64,
            bytes: figures.out.bytes,
            ..Told::default()
        },
        Err(why) => Told::refused(why),
    }
}
