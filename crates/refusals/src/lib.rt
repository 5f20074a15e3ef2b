// Refusals: why a call refuses, one enum for every call of the project; and its numbers, which are a refusal's number, the number beside it,
// and of a QP7 record that cannot be read its size and how many bytes are absent. Both are for the crates above.
// Rests on blocks, for the places.
#![tactic(auto)]

ghost use Rattle.std.specs.Prelude.{◌≡◌};
ghost use Rattle.refusals.specs.Numbers.{numbered, in_numbers};

use blocks::{FilePlace, StreamPlace};

// Why a call refuses. The variants stand in the order of their numbers, from 1 on.
#[derive(Clone, Copy, Debug, PartialEq, Eq)]
pub enum Refusal {
    // Under 4 bytes, or not a magic that the call takes.
    Magic,
    // The input is over this limit.
    Limit(usize),
    // The header, which reaches to the audio start, is cut.
    Header(FilePlace),
    // A record cannot be told: of the 2 bytes from this place of the stream on so many are absent.
    Selector {
        at: StreamPlace,
        absent: usize,
    },
    // The record at this place, which has so many bytes, runs past the stream: so many of them are absent.
    Record {
        at: StreamPlace,
        size: usize,
        absent: usize,
    },
    // A piece or a strict end comes while the reader drains, or a piece after its end.
    Ended,
    // What is unread would not fit in a hold of so many bytes.
    Overflow(usize),
    // The packets, records or bytes are so many, and there is room for fewer.
    Room(usize),
    // The segments are so many, and the table has room for fewer.
    Segments(usize),
    // A reader is opened with a kind that there is not.
    Kind(u64),
    // A DS2 file of this type is read as another kind than the call's.
    OtherKind(u8),
    // There is no such whole block; or a frame's size is none, it runs past the stream, or the scratch is too small.
    Absent,
    // The end comes inside a block, of which so many bytes are there.
    Inside(usize),
    // So many frames are owed at the end.
    Owed(usize),
    // The header that was supplied has not its size, or begins otherwise.
    Supplied,
    // The packet of this number is cut short, or its byte 40 is not 0.
    Packet(usize),
    // The file would be over this limit.
    TooLong(usize),
    // The number is not below the packets announced, which are so many.
    Beyond(usize),
    // An index is under four bytes, or its length field is 0 or not the number of bytes that follow it.
    Index,
    // An index is of this version, which the call does not read.
    IndexVersion(u8),
    // The entry of this number is the first of an index that is not the recording's.
    IndexEntry(usize),
    // An end is asked for that is neither the strict one nor the lenient one.
    Choice,
}

// A refusal in numbers, as hosts and listings tell it.
#[derive(Clone, Copy, Debug, PartialEq, Eq)]
pub struct Numbers {
    pub number: u64,
    pub beside: u64,
    pub size: u64,
    pub absent: u64,
}

impl Numbers {
    // A number and the number beside it: nothing is absent.
    fn by(number: u64, beside: u64) -> Self
        ensures { result ≡ numbered number beside }
    {
        Self {
            number,
            beside,
            size: 0,
            absent: 0,
        }
    }
}

impl From<Refusal> for Numbers {
    ghost from_gives = { λ why numbers. numbers ≡ in_numbers why };

    fn from(why: Refusal) -> Self {
        match why {
            Refusal::Magic => Self::by(1, 0),
            Refusal::Limit(limit) => Self::by(2, limit as u64),
            Refusal::Header(start) => Self::by(3, start.0 as u64),
            Refusal::Selector { at, absent } => Self {
                number: 4,
                beside: at.0 as u64,
                size: 0,
                absent: absent as u64,
            },
            Refusal::Record { at, size, absent } => Self {
                number: 5,
                beside: at.0 as u64,
                size: size as u64,
                absent: absent as u64,
            },
            Refusal::Ended => Self::by(6, 0),
            Refusal::Overflow(hold) => Self::by(7, hold as u64),
            Refusal::Room(needed) => Self::by(8, needed as u64),
            Refusal::Segments(needed) => Self::by(9, needed as u64),
            Refusal::Kind(kind) => Self::by(10, kind),
            Refusal::OtherKind(byte) => Self::by(11, byte as u64),
            Refusal::Absent => Self::by(12, 0),
            Refusal::Inside(bytes) => Self::by(13, bytes as u64),
            Refusal::Owed(frames) => Self::by(14, frames as u64),
            Refusal::Supplied => Self::by(15, 0),
            Refusal::Packet(number) => Self::by(16, number as u64),
            Refusal::TooLong(limit) => Self::by(17, limit as u64),
            Refusal::Beyond(total) => Self::by(18, total as u64),
            Refusal::Index => Self::by(19, 0),
            Refusal::IndexVersion(byte) => Self::by(20, byte as u64),
            Refusal::IndexEntry(number) => Self::by(21, number as u64),
            Refusal::Choice => Self::by(22, 0),
        }
    }
}
