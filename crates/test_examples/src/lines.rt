// The listing's lines: of no input, of 65,536 bytes and one more, of each kind of file, of swapped packets whose carried byte is no byte of
// the file, and for each refusal. Rests on listing, and on test_samples for the files.
ghost use Rattle.std.specs.Prelude.{◌≡◌, ◌≤◌, length};

use std::io;
use test_samples::shown::text;
use test_samples::{
    begins_swapped, ds2_file, long_records, longest, swapped_after_cut, swapped_twice, two_blocks,
};

// The line for a file, after what it is.
fn show_line(rt: &impl Print, what: &[u8], file: &[u8]) -> io::Result<()> {
    let mut line = [0u8; listing::LINE];
    let long = listing::list_line(file, &mut line);
    text(rt, b"list, ")?;
    text(rt, what)?;
    text(rt, b": ")?;
    text(rt, &line[..long])
}

// The same for the first n bytes of a sample.
fn show_first(rt: &impl Print, what: &[u8], file: [u8; 4096], n: usize) -> io::Result<()>
    requires { (length file ≡ 4096) × (n ≤ 4096) }
{
    show_line(rt, what, &file[0..n])
}

// The same for the longest file.
fn show_longest(rt: &impl Print, what: &[u8], n: usize) -> io::Result<()>
    requires { n ≤ 65537 }
{
    let file = longest();
    show_line(rt, what, &file[0..n])
}

// No input, the longest that is listed, and a byte more.
fn by_length(rt: &impl Print) -> io::Result<()> {
    show_longest(rt, b"no input", 0)?;
    show_longest(rt, b"65536 bytes", 65536)?;
    show_longest(rt, b"65537 bytes", 65537)
}

fn by_kind(rt: &impl Print) -> io::Result<()> {
    show_first(rt, b"DSS", test_samples::dss_file(13), 1536)?;
    show_first(rt, b"SP", ds2_file(1, 13, 0), 2048)?;
    show_first(rt, b"QP", test_samples::one_qp_block(), 2048)?;
    show_first(rt, b"QP, two segments", two_blocks(9, 3, 9), 2560)?;
    show_first(rt, b"QP7", ds2_file(1, 10, 7), 2048)
}

// A swapped packet that has its 40 bytes: before any unswapped read, after one that was cut, and after one that was not.
fn by_carry(rt: &impl Print) -> io::Result<()> {
    show_first(rt, b"begins swapped", begins_swapped(), 2048)?;
    show_first(rt, b"swapped after a cut read", swapped_after_cut(), 2048)?;
    show_first(
        rt,
        b"swapped before and after a read",
        swapped_twice(),
        2560,
    )
}

fn by_refusal(rt: &impl Print) -> io::Result<()> {
    show_first(rt, b"first byte 2", ds2_file(2, 0, 0), 4096)?;
    show_first(rt, b"a cut header", ds2_file(1, 0, 0), 1535)?;
    show_first(rt, b"a record that is not there", long_records(4), 2048)?;
    show_first(rt, b"a record that is cut", long_records(3), 2048)
}

pub fn show_lines(rt: &impl Print) -> io::Result<()> {
    by_length(rt)?;
    by_kind(rt)?;
    by_carry(rt)?;
    by_refusal(rt)
}
