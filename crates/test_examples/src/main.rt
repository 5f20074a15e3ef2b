// The bench's examples on the code, what detection says of types 8 to 255, and the listing's lines: a line each. What the examples say of the
// definitions is in specs/, and that it holds in proofs/. Rests on every crate that an example speaks of, and on test_tools for a sum.
#![tactic(auto)]

ghost use Rattle.std.specs.Prelude.{◌≡◌, ◌≤◌, length};

use blocks::FilePlace;
use detect::{AudioFormat, Kind};
use refusals::Refusal;
use std::io;
use test_samples::shown::{number, show, show_record_refusal, show_refusal, text, word};
use test_samples::{ds2_file, long_records, two_blocks};

// The listing's lines.
mod lines;

fn show_answer(rt: &impl Print, answer: Result<usize, Refusal>) -> io::Result<()> {
    match answer {
        Ok(n) => {
            number(rt, n)?;
            text(rt, b" packets")
        }
        Err(why) => show_refusal(rt, why),
    }
}

// What the DS2 SP reading says of a file's first n bytes, with no room for any packet.
fn show_reading(rt: &impl Print, file: [u8; 4096], n: usize) -> io::Result<()>
    requires { (length file ≡ 4096) × (n ≤ 4096) }
{
    let mut out = [0u8; 0];
    let mut counts = [0u8; 0];
    show_answer(rt, sp::demux_ds2(&file[0..n], &mut out, &mut counts))
}

// 1: a bare header is empty, a cut one is refused.
fn example_1(rt: &impl Print) -> io::Result<()> {
    text(rt, b"1: 1536 bytes")?;
    show_reading(rt, ds2_file(1, 0, 0), 1536)?;
    text(rt, b", 1535")?;
    show_reading(rt, ds2_file(1, 0, 0), 1535)?;
    text(rt, b"\n")
}

// How many segments a QP file of two blocks has, and none where it is refused.
fn segments(file: [u8; 4096], table: &mut [u32]) -> usize
    requires { length file ≡ 4096 }
{
    match qp::demux_ds2_qp(&file[0..2560], table) {
        Ok(totals) => totals.segments,
        Err(_) => 0,
    }
}

// For how many counts of the second block there are so many segments.
fn counts_with(count: u8, byte1: u8, many: usize) -> usize {
    let mut counts: usize = 0;
    for next in 0..=255 {
        let mut table = [0u32; 2 * qp::ENTRY];
        if segments(two_blocks(count, byte1, next), &mut table) == many {
            counts = counts.wrapping_add(1);
        }
    }
    counts
}

// The first segment of two blocks, the second of which does not follow.
fn show_segment(rt: &impl Print) -> io::Result<()> {
    let mut table = [0u32; 2 * qp::ENTRY];
    segments(two_blocks(9, 3, 9), &mut table);
    for value in &table[..qp::ENTRY] {
        word(rt, *value)?;
    }
    Ok(())
}

// 2: a second block that follows the first, and one that does not.
fn example_2(rt: &impl Print) -> io::Result<()> {
    text(rt, b"2: after 10 frames and 30, one segment for")?;
    number(rt, counts_with(10, 30, 1))?;
    text(rt, b" counts; after 9 and 3, two for")?;
    number(rt, counts_with(9, 3, 2))?;
    text(rt, b" and one for")?;
    number(rt, counts_with(9, 3, 1))?;
    text(rt, b", first")?;
    show_segment(rt)?;
    text(rt, b"\n")
}

// 3: the same after a scan that finds no good header.
fn example_3(rt: &impl Print) -> io::Result<()> {
    text(rt, b"3: 4095 bytes")?;
    show_reading(rt, ds2_file(7, 0, 0), 4095)?;
    text(rt, b", 4096")?;
    show_reading(rt, ds2_file(7, 0, 0), 4096)?;
    text(rt, b"\n")
}

// 4: how the packet of a swapped read begins and ends.
fn example_4(rt: &impl Print) -> io::Result<()> {
    let read = test_samples::rising();
    let bytes = packets::packet_bytes(&read, 0, true, 99);
    text(rt, b"4: a swapped packet begins")?;
    show(rt, &bytes, 0, 6)?;
    text(rt, b" and ends")?;
    show(rt, &bytes, 38, 4)?;
    text(rt, b"\n")
}

fn show_records(rt: &impl Print, file: [u8; 4096]) -> io::Result<()>
    requires { length file ≡ 4096 }
{
    let mut records = [0u32; 16];
    let mut segments = [0u32; qp7::ENTRY];
    match qp7::demux_ds2_qp7(&file[0..2048], &mut records, &mut segments) {
        Ok(totals) => {
            number(rt, totals.records)?;
            text(rt, b" records")
        }
        Err(why) => show_record_refusal(rt, why),
    }
}

// 5: a tenth record that is cut, and one that is not there.
fn example_5(rt: &impl Print) -> io::Result<()> {
    text(rt, b"5: byte 1 = 3")?;
    show_records(rt, long_records(3))?;
    text(rt, b", 4")?;
    show_records(rt, long_records(4))?;
    text(rt, b"\n")
}

// One block, flag 0, that announces 13 packets.
fn show_block(rt: &impl Print, file: [u8; 4096], counts: &mut [u8]) -> io::Result<()>
    requires { length file ≡ 4096 }
{
    let mut out = [0u8; 546];
    show_answer(rt, sp::demux_ds2(&file[0..2048], &mut out, counts))
}

// 6: the last of those has 14 bytes of the file.
fn example_6(rt: &impl Print) -> io::Result<()> {
    let mut counts = [0u8; 13];
    text(rt, b"6: one block")?;
    show_block(rt, ds2_file(1, 13, 0), &mut counts)?;
    text(rt, b", the last has")?;
    number(rt, usize::from(counts[12]))?;
    text(rt, b" file bytes, all have")?;
    number(rt, test_tools::sum_of(&counts) as usize)?;
    text(rt, b"\n")
}

// 7: DSS starts in block 0.
fn example_7(rt: &impl Print) -> io::Result<()> {
    text(rt, b"7: DSS starts")?;
    number(rt, packets::dss_start(0, 255, true).0)?;
    number(rt, packets::dss_start(0, 2, true).0)?;
    number(rt, packets::dss_start(0, 3, true).0)?;
    text(rt, b"\n")
}

fn is_reported_sp(file: &[u8]) -> bool {
    detect::detect_format(file) == AudioFormat::Ds2Sp
}

fn is_read_qp(file: &[u8]) -> bool {
    let byte = detect::ds2::detect_ds2_format_type(file, FilePlace(1536));
    detect::ds2::kind_of(byte) == Kind::Qp
}

// Whether a file of this type is reported as SP and read as QP.
fn is_otherwise(byte: u8) -> bool {
    let file = ds2_file(1, 1, byte);
    is_reported_sp(&file[0..2048]) && is_read_qp(&file[0..2048])
}

// How many of the types 8 to 255 are reported as SP and read as QP.
fn reported_otherwise() -> usize {
    (8..=255u8).filter(|byte| is_otherwise(*byte)).count()
}

fn main(rt: HostRuntime) -> io::Result<()> {
    example_1(&rt)?;
    example_2(&rt)?;
    example_3(&rt)?;
    example_4(&rt)?;
    example_5(&rt)?;
    example_6(&rt)?;
    example_7(&rt)?;
    text(&rt, b"types reported as SP and read as QP:")?;
    number(&rt, reported_otherwise())?;
    text(&rt, b"\n")?;
    lines::show_lines(&rt)
}
