// One case: its header and packets are made, the writer is called, what it answers and leaves is held to the list, and a file that it wrote
// is read whole. Rests on the rest of this program, on writing and refusals, and on test_sums and test_tools.
use crate::making::{self, Case};
use refusals::Refusal;
use std::io;
use test_tools::{all_differ, digest_all};

// What a case came to: whether the call was answered, and whether the file gave the packets back.
#[derive(Clone, Copy)]
pub struct Came {
    pub answered: bool,
    pub back: bool,
}

// Holds an answer to the list, and a digest of all that was lent for the file.
fn hold_answer(
    rt: &impl Print,
    case: Case,
    answer: Result<usize, Refusal>,
    out: &[u8],
) -> io::Result<()> {
    let ([number, beside], [size]) = test_sums::said(answer.map(|size| [size as u64]));
    let got = [number, beside, size, digest_all(0, out)];
    all_differ(rt, b"case ", case.number, &case.answers, &got)?;
    Ok(())
}

// Whether a file's whole reading gives the packets that it was written from: no refusal and nothing beside it, how many packets, and
// digests of them and of their counts.
fn read_back(rt: &impl Print, case: Case, file: &[u8], packets: &[u8]) -> io::Result<bool> {
    let mut again = [165u8; 25620];
    let mut counts = [165u8; 1024];
    let answer = test_sums::demux(file, false, &mut again, &mut counts);
    let came = test_sums::told(answer, &again, &counts);
    let many = (packets.len() / 42) as u64;
    let expected = [0, 0, many, digest_all(0, packets), case.counts];
    let wrong = all_differ(
        rt,
        b"file of case ",
        case.number,
        &expected,
        &came.handed_out(),
    )?;
    Ok(wrong == 0)
}

// What a call answered and left.
fn told(
    rt: &impl Print,
    case: Case,
    answer: Result<usize, Refusal>,
    packets: &[u8],
    out: &[u8],
) -> io::Result<Came> {
    hold_answer(rt, case, answer, out)?;
    match answer {
        Err(_) => Ok(Came {
            answered: false,
            back: false,
        }),
        Ok(size) => Ok(Came {
            answered: true,
            back: read_back(rt, case, &out[..size.min(out.len())], packets)?,
        }),
    }
}

// The call, with so much lent.
fn called(
    rt: &impl Print,
    case: Case,
    header: &[u8],
    packets: &[u8],
    out: &mut [u8],
) -> io::Result<Came> {
    let answer = writing::write_ds2_sp(header, packets, out);
    told(rt, case, answer, packets, out)
}

// A case by its numbers, each as far as there is room for it: with more packets or output the answers are others, and a longer header is
// refused all the same.
pub fn one_case(rt: &impl Print, case: Case) -> io::Result<Came> {
    let header = making::header_of(case);
    let packets = making::packets_of(case);
    let mut out = [165u8; 28672];
    called(
        rt,
        case,
        &header[..case.long.min(2048)],
        &packets[..case.joined.min(25620)],
        &mut out[..case.room.min(28672)],
    )
}
