// What calls answered, and what SP calls handed out, in numbers. All of it is for the crates above. Rests on sp, refusals, test_expected and
// test_tools.
#![tactic(auto)]

use refusals::{Numbers, Refusal};
use std::io;
use test_expected::Replay;
use test_tools::{digest, digest_past, packet_bytes};

// What came out so far. By default nothing, as before the first piece.
#[derive(Clone, Copy, Default)]
pub struct Sums {
    // The refusal that ended it, and the number beside it: 0 and 0 where there was none.
    pub number: u64,
    pub beside: u64,
    // The packets, and digests of them and of their counts.
    pub packets: u64,
    pub bytes: u64,
    pub counts: u64,
    // A digest of the lent bytes past those that each call used.
    pub past: u64,
    // The bytes taken, and a digest of the numbers of packets that each piece brought.
    pub taken: u64,
    pub pieces: u64,
}

impl Sums {
    // The refusal and the number beside it.
    pub fn refusal(&self) -> [u64; 2] {
        [self.number, self.beside]
    }

    // The same, and the packets.
    pub fn answer(&self) -> [u64; 3] {
        [self.number, self.beside, self.packets]
    }

    // The same, and the digests of the packets and of their counts.
    pub fn handed_out(&self) -> [u64; 5] {
        [
            self.number,
            self.beside,
            self.packets,
            self.bytes,
            self.counts,
        ]
    }
}

// With the lent bytes past those of so many packets.
fn with_past(before: u64, many: usize, out: &[u8], counts: &[u8]) -> u64 {
    let past = digest_past(before, out, packet_bytes(many));
    digest_past(past, counts, many)
}

// With what a call answered that was given so many bytes, and left in lent memory.
fn with_answer(
    sums: Sums,
    answer: Result<usize, Refusal>,
    taken: usize,
    out: &[u8],
    counts: &[u8],
) -> Sums {
    let past = with_past(sums.past, answer.unwrap_or(0), out, counts);
    match answer {
        Err(why) => {
            let why = Numbers::from(why);
            Sums {
                number: why.number,
                beside: why.beside,
                past,
                ..sums
            }
        }
        Ok(many) => Sums {
            number: 0,
            beside: 0,
            packets: sums.packets.wrapping_add(many as u64),
            bytes: digest(sums.bytes, out, packet_bytes(many)),
            counts: digest(sums.counts, counts, many),
            past,
            taken: sums.taken.wrapping_add(taken as u64),
            pieces: test_tools::mix(sums.pieces, many as u64),
        },
    }
}

// The same, and lent memory made again as it was before the call.
pub fn count_in(
    sums: Sums,
    answer: Result<usize, Refusal>,
    taken: usize,
    out: &mut [u8],
    counts: &mut [u8],
) -> Sums {
    let many = answer.unwrap_or(0);
    let next = with_answer(sums, answer, taken, out, counts);
    test_tools::refill(out, packet_bytes(many));
    test_tools::refill(counts, many);
    next
}

// What a call says in numbers: the refusal and the number beside it, and the numbers of its answer, which are 0 where it is refused.
pub fn said<const N: usize>(answer: Result<[u64; N], Refusal>) -> ([u64; 2], [u64; N]) {
    match answer {
        Err(why) => {
            let why = Numbers::from(why);
            ([why.number, why.beside], [0; N])
        }
        Ok(numbers) => ([0, 0], numbers),
    }
}

// Holds what a call says to the list.
pub fn expect_said<R: Print, const N: usize>(
    replay: &mut Replay<'_, R>,
    answer: Result<[u64; N], Refusal>,
) -> io::Result<()> {
    let (refusal, numbers) = said(answer);
    replay.expect_all(&refusal)?;
    replay.expect_all(&numbers)
}

// What one answer is in numbers.
pub fn told(answer: Result<usize, Refusal>, out: &[u8], counts: &[u8]) -> Sums {
    with_answer(Sums::default(), answer, 0, out, counts)
}

// What one answer is in five numbers: its refusal and the number beside it, its packets, and digests of the output and of the counts, which go
// 64 places past what the call used, where all is to be as it was.
pub fn left(answer: Result<usize, Refusal>, out: &[u8], counts: &[u8]) -> [u64; 5] {
    let [number, beside, packets] = told(answer, out, counts).answer();
    let many = packets as usize;
    [
        number,
        beside,
        packets,
        digest(0, out, packet_bytes(many).wrapping_add(64)),
        digest(0, counts, many.wrapping_add(64)),
    ]
}

// The whole SP call of a family: which of the two calls, the caller's list says by a number.
pub fn demux(file: &[u8], dss: bool, out: &mut [u8], counts: &mut [u8]) -> Result<usize, Refusal> {
    if dss {
        sp::demux_dss(file, out, counts)
    } else {
        sp::demux_ds2(file, out, counts)
    }
}
