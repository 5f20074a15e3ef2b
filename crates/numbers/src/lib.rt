// The numbers that an answer of the crates below is handed over as, for C. Everything public here is for the crates above. Rests on what
// those crates answer.
#![tactic(auto)]

ghost use Rattle.std.specs.Prelude.{◌≡◌, ℕ};
ghost use Rattle.refusals.specs.Numbers.{in_numbers};
ghost use Rattle.refusals.specs.Said.{result_says};
ghost use Rattle.frames.specs.Fetch.{stand_of};
ghost use Rattle.reader.specs.State.{Reached};
ghost use Rattle.reader.specs.History.{OwedCall};
ghost use Rattle.numbers.specs.Numbers.{format_number, truth_number, answering, refusing, numbers, found_numbers, where_number, place_number, owing_numbers, kind_number, tally_numbers, entry_numbers};

use blocks::FilePlace;
use detect::AudioFormat;
use frames::{Fetched, Found};
use index::Size;
use reader::Reader;
use refusals::{Numbers, Refusal};
use tally::{Figures, FileKind};

// What most exports answer: a refusal's number, or 0, and the number beside it; two numbers that the export names; and of a record that cannot
// be read its size, and how many bytes are absent, which are 0 in every other answer.
#[repr(C)]
#[derive(Clone, Copy)]
pub struct Answer {
    pub refusal: u64,
    pub beside: u64,
    pub first: u64,
    pub second: u64,
    pub size: u64,
    pub absent: u64,
}

// The tally's eleven numbers, of which the last two are as in an answer. `short` is a word of C's own, so it is `short_count`.
#[repr(C)]
#[derive(Clone, Copy)]
pub struct Tallied {
    pub refusal: u64,
    pub beside: u64,
    pub kind: u64,
    pub start: u64,
    pub blocks: u64,
    pub announced: u64,
    pub handed: u64,
    pub short_count: u64,
    pub bytes: u64,
    pub size: u64,
    pub absent: u64,
}

// An entry of an index in seven numbers, of which the first two and the last two are as in an answer.
#[repr(C)]
#[derive(Clone, Copy)]
pub struct Entry {
    pub refusal: u64,
    pub beside: u64,
    pub number: u64,
    pub first: u64,
    pub place: u64,
    pub size: u64,
    pub absent: u64,
}

// The number that C has for a format; below, for a truth and for a kind. Not by `From`: neither type is this crate's, and a contract names the
// definition.
pub fn of_format(format: AudioFormat) -> u8
    ensures { result ≡ format_number format }
{
    match format {
        AudioFormat::None => 0,
        AudioFormat::DssSp => 1,
        AudioFormat::Ds2Sp => 2,
        AudioFormat::Ds2Qp => 3,
        AudioFormat::Ds2Qp7 => 4,
        AudioFormat::GrundigSp => 5,
    }
}

pub fn of_truth(truth: bool) -> u8
    ensures { result ≡ truth_number truth }
{
    u8::from(truth)
}

// The two numbers that an export tells of an answer.
pub trait Told {
    ghost first: { Self → ℕ };

    ghost second: { Self → ℕ };

    fn told(self) -> (u64, u64)
        ensures first { result.0 ≡ first self }
        ensures second { result.1 ≡ second self };
}

// Packets, or bytes.
impl Told for usize {
    ghost first = { λ many. many };

    ghost second = { λ many. 0 };

    fn told(self) -> (u64, u64) {
        (self as u64, 0)
    }
}

impl Told for FilePlace {
    ghost first = { λ place. place.0 };

    ghost second = { λ place. 0 };

    fn told(self) -> (u64, u64) {
        (self.0 as u64, 0)
    }
}

impl Told for qp::Totals {
    ghost first = { λ totals. totals.segments };

    ghost second = { λ totals. totals.announced };

    fn told(self) -> (u64, u64) {
        (self.segments as u64, self.announced as u64)
    }
}

impl Told for qp7::Totals {
    ghost first = { λ totals. totals.records };

    ghost second = { λ totals. totals.segments };

    fn told(self) -> (u64, u64) {
        (self.records as u64, self.segments as u64)
    }
}

// 0 and a file place, or 1 for the scratch's start.
impl Told for Fetched {
    ghost first = { λ fetched. where_number (stand_of fetched) };

    ghost second = { λ fetched. place_number (stand_of fetched) };

    fn told(self) -> (u64, u64) {
        match self {
            Fetched::InFile(place) => (0, place.0 as u64),
            Fetched::InScratch => (1, 0),
        }
    }
}

impl Told for Size {
    ghost first = { λ size. size.bytes };

    ghost second = { λ size. size.entries };

    fn told(self) -> (u64, u64) {
        (self.bytes as u64, self.entries as u64)
    }
}

impl Told for entries::Totals {
    ghost first = { λ totals. totals.entries };

    ghost second = { λ totals. totals.packets };

    fn told(self) -> (u64, u64) {
        (self.entries as u64, self.packets as u64)
    }
}

impl Answer {
    // Two numbers, with no refusal.
    fn answered(first: u64, second: u64) -> Self
        ensures { result ≡ answering first second }
    {
        Self {
            refusal: 0,
            beside: 0,
            first,
            second,
            size: 0,
            absent: 0,
        }
    }

    // A refusal, with the second number that goes with it.
    fn refused(why: Refusal, second: u64) -> Self
        ensures { result ≡ refusing (in_numbers why) second }
    {
        let why = Numbers::from(why);
        Self {
            refusal: why.number,
            beside: why.beside,
            size: why.size,
            absent: why.absent,
            ..Self::answered(0, second)
        }
    }
}

// An answer of any call that hands over two numbers.
impl<T: Told> From<Result<T, Refusal>> for Answer {
    ghost from_gives = { λ answer told. told ≡ numbers T.first T.second (result_says answer) };

    fn from(answer: Result<T, Refusal>) -> Self {
        match answer {
            Ok(value) => {
                let told = value.told();
                Self::answered(told.0, told.1)
            }
            Err(why) => Self::refused(why, 0),
        }
    }
}

// A frame, which is never refused.
impl From<Found> for Answer {
    ghost from_gives = { λ found told. told ≡ found_numbers found };

    fn from(found: Found) -> Self {
        Self::answered(found.place.0 as u64, found.size as u64)
    }
}

// The numbers of a reader's call: its packets, and the frames that the reader owes afterwards, which the answer alone does not have: so it is no
// conversion.
pub fn of_call(answer: Result<usize, Refusal>, reader: &Reader) -> Answer
    requires { Reached reader.now }
    ensures numbers { result ≡ owing_numbers result.second (result_says answer) }
    ensures owed { OwedCall reader.now result.second }
{
    let owed = (*reader).owed() as u64;
    match answer {
        Ok(many) => Answer::answered(many as u64, owed),
        Err(why) => Answer::refused(why, owed),
    }
}

impl From<Result<entries::Entry, Refusal>> for Entry {
    ghost from_gives = { λ answer told. told ≡ entry_numbers (result_says answer) };

    fn from(answer: Result<entries::Entry, Refusal>) -> Self {
        match answer {
            Ok(entry) => Self {
                refusal: 0,
                beside: 0,
                number: entry.number as u64,
                first: entry.first as u64,
                place: entry.place.0 as u64,
                size: 0,
                absent: 0,
            },
            Err(why) => {
                let why = Numbers::from(why);
                Self {
                    refusal: why.number,
                    beside: why.beside,
                    number: 0,
                    first: 0,
                    place: 0,
                    size: why.size,
                    absent: why.absent,
                }
            }
        }
    }
}

// The number that C has for a kind of file, as for a format above.
fn of_kind(kind: FileKind) -> u64
    ensures { result ≡ kind_number kind }
{
    match kind {
        FileKind::DssSp => 0,
        FileKind::Ds2Sp => 1,
        FileKind::Ds2Qp => 2,
        FileKind::Ds2Qp7 => 3,
    }
}

impl From<Result<Figures, Refusal>> for Tallied {
    ghost from_gives = { λ answer told. told ≡ tally_numbers (result_says answer) };

    fn from(answer: Result<Figures, Refusal>) -> Self {
        match answer {
            Ok(figures) => Self {
                refusal: 0,
                beside: 0,
                kind: of_kind(figures.kind),
                start: figures.start.0 as u64,
                blocks: figures.blocks as u64,
                announced: figures.announced as u64,
                handed: figures.out.many as u64,
                short_count: figures.out.short as u64,
                bytes: figures.out.bytes,
                size: 0,
                absent: 0,
            },
            Err(why) => {
                let why = Numbers::from(why);
                Self {
                    refusal: why.number,
                    beside: why.beside,
                    kind: 0,
                    start: 0,
                    blocks: 0,
                    announced: 0,
                    handed: 0,
                    short_count: 0,
                    bytes: 0,
                    size: why.size,
                    absent: why.absent,
                }
            }
        }
    }
}
