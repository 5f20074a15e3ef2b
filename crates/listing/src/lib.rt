// The line that the program `list` prints for a file, written into a lent buffer. Rests on tally, on refusals and tables, and on io for a
// number's digits.
#![tactic(auto)]

ghost use Rattle.std.specs.Prelude.{◌≡◌, ◌+◌, ◌≤◌, length};
ghost use Rattle.io.specs.Counts.{IsPrefixLen};
ghost use Rattle.refusals.specs.Numbers.{in_numbers, record_refusals};
ghost use Rattle.refusals.specs.Said.{is_among};
ghost use Rattle.listing.specs.Line.{name_of, spaced, spaced_all, tally_line, lack_of, refused_line, list_line, Lists};
ghost use Rattle.listing.specs.Inner.{Put};

use refusals::{Numbers, Refusal};
use tally::{Figures, FileKind};

// The most bytes that `list` takes.
const MOST: usize = 65536;

// No line is longer: a kind of 6 letters, six numbers of up to 20 digits with a space before each, and the line's end.
pub const LINE: usize = 133;

// Puts a text into the line from a place on, and answers where it ends. The library prints to a handle or a String; here the line is lent, and a
// contract says each byte of it.
fn put_text(text: &[u8], at: usize, line: &mut [u8]) -> usize
    requires { at + length text.now ≤ length line.old }
    ensures { Put text.now at line.old line.new result }
{
    tables::copy(line, at, text, 0, text.len());
    at + text.len()
}

// The same for a space and a number.
fn put_number(n: u64, at: usize, line: &mut [u8]) -> usize
    requires { at + 21 ≤ length line.old }
    ensures put { Put (spaced n) at line.old line.new result }
    ensures few { result ≤ at + 21 }
{
    let mut digits = [0u8; 20];
    let k = io::decimal(n, &mut digits);
    line[at] = b' ';
    tables::copy(line, at + 1, &digits[..k], 0, k);
    at + 1 + k
}

// The same for the name of a kind, at the front.
fn put_name(kind: FileKind, line: &mut [u8]) -> usize
    requires { 6 ≤ length line.old }
    ensures put { Put (name_of kind) 0 line.old line.new result }
    ensures few { result ≤ 6 }
{
    match kind {
        FileKind::DssSp => put_text(b"DSSSP", 0, line),
        FileKind::Ds2Sp => put_text(b"DS2SP", 0, line),
        FileKind::Ds2Qp => put_text(b"DS2QP", 0, line),
        FileKind::Ds2Qp7 => put_text(b"DS2QP7", 0, line),
    }
}

// The line of a tally.
fn put_figures(figures: Figures, line: &mut [u8]) -> usize
    requires { length line.old ≡ 133 }
    ensures { Lists (tally_line figures) line.old line.new result }
{
    let mut at = put_name(figures.kind, line);
    at = put_number(figures.start.0 as u64, at, line);
    at = put_number(figures.blocks as u64, at, line);
    at = put_number(figures.announced as u64, at, line);
    at = put_number(figures.out.many as u64, at, line);
    at = put_number(figures.out.short as u64, at, line);
    at = put_number(figures.out.bytes, at, line);
    put_text(b"\n", at, line)
}

// Whether a refusal of this number is of a record that cannot be read.
fn is_of_record(number: u64) -> bool
    ensures { result ≡ is_among record_refusals number }
{
    number == 4 || number == 5
}

// The end of a refusal's line: of a record that cannot be read its size, and how many bytes are absent, before the line's end.
fn put_lack(why: Numbers, from: usize, line: &mut [u8]) -> usize
    requires { from + 43 ≤ length line.old }
    ensures { Put (spaced_all (lack_of why)) from line.old line.new result }
{
    if !is_of_record(why.number) {
        return put_text(b"\n", from, line);
    }
    let mut at = put_number(why.size, from, line);
    at = put_number(why.absent, at, line);
    put_text(b"\n", at, line)
}

// The line of a refusal.
fn put_refusal(why: Refusal, line: &mut [u8]) -> usize
    requires { length line.old ≡ 133 }
    ensures { Lists (refused_line (in_numbers why)) line.old line.new result }
{
    let why = Numbers::from(why);
    let mut at = put_text(b"refused", 0, line);
    at = put_number(why.number, at, line);
    at = put_number(why.beside, at, line);
    put_lack(why, at, line)
}

// Puts the line for a file at the front of the buffer, and answers how long it is.
pub fn list_line(file: &[u8], line: &mut [u8; LINE]) -> usize
    ensures line { Lists (list_line file.now) line.old line.new result }
    ensures inside { IsPrefixLen result line.new }
{
    if MOST < file.len() {
        return put_refusal(Refusal::Limit(MOST), line);
    }
    match tally::tally(file) {
        Ok(figures) => put_figures(figures, line),
        Err(why) => put_refusal(why, line),
    }
}
