// What the testing programs share: noise that files are filled with, digests of what was handed out, and lines. A test that goes wrong is to
// be seen, so nothing here demands anything of lent memory: what lies outside is left out. Sums wrap, since no test comes near 2^64.
// All of it is for the crates above. Rests on the standard library.
#![tactic(auto)]

ghost use Rattle.std.specs.Prelude.{◌≤◌, length, IfOk};

use std::io;
use std::io::Read;

// Where pieces end: at the first place, at the second, and then after some bytes that noise chooses, up to `step`; with a step of 0, at the
// end.
#[derive(Clone, Copy)]
pub struct Cuts {
    pub first: usize,
    pub second: usize,
    pub step: usize,
}

// Writes a text and a number.
pub fn say(rt: &impl Print, text: &[u8], number: u64) -> io::Result<()> {
    rt.write_all(text)?;
    rt.print(number)
}

// A line for an answer of a case or a file that is not the one expected.
fn complain(
    rt: &impl Print,
    what: &[u8],
    number: u64,
    answer: u64,
    expected: u64,
    got: u64,
) -> io::Result<()> {
    say(rt, what, number)?;
    say(rt, b" answer ", answer)?;
    say(rt, b": expected ", expected)?;
    say(rt, b", got ", got)?;
    rt.write_all(b"\n")
}

// 1 and a line where two numbers differ, and 0 where they are the same.
pub fn differs(
    rt: &impl Print,
    what: &[u8],
    number: u64,
    answer: u64,
    expected: u64,
    got: u64,
) -> io::Result<usize> {
    if expected == got {
        return Ok(0);
    }
    complain(rt, what, number, answer, expected, got)?;
    Ok(1)
}

// One step of the noise that fills files.
pub fn noise(state: u64) -> u64 {
    (state % 2147483648 * 1103515245 + 12345) % 2147483648
}

// What one step of noise gives, below a number.
pub fn below(state: u64, most: u64) -> u64 {
    if most == 0 { 0 } else { state / 65536 % most }
}

// A digest of 43 bits with one number more.
pub fn mix(digest: u64, value: u64) -> u64 {
    (digest % 8796093022208 * 1000003 + value % 8796093022208 + 1) % 8796093022208
}

// The bytes of so many packets, if these are not too many to be true.
pub fn packet_bytes(packets: usize) -> usize {
    if packets < 1000000000 {
        42 * packets
    } else {
        0
    }
}

// A byte where the file has that place.
pub fn set(file: &mut [u8], at: usize, value: u8) {
    if at < file.len() {
        file[at] = value;
    }
}

// Noise throughout.
pub fn fill_with_noise(file: &mut [u8], seed: u64) {
    let mut state = seed;
    for byte in file {
        state = noise(state);
        *byte = (below(state, 256) % 256) as u8;
    }
}

// A file from a place on, or nothing of it where it ends before.
pub fn from_place(file: &mut [u8], from: usize) -> &mut [u8] {
    let at = from.min(file.len());
    &mut file[at..]
}

// So many values of a list from a place on, as far as it has them.
pub fn part<T: Copy>(values: &[T], from: usize, many: usize) -> &[T] {
    let begin = from.min(values.len());
    let long = many.min(values.len() - begin);
    &values[begin..begin + long]
}

// Bytes from a place on, as far as the file has these places.
pub fn put(file: &mut [u8], from: usize, bytes: &[u8]) {
    for (place, byte) in from_place(file, from).iter_mut().zip(bytes) {
        *place = *byte;
    }
}

// A digest with the first n numbers more, or with all if there are fewer.
pub fn digest<T: Copy + Into<u64>>(before: u64, numbers: &[T], n: usize) -> u64 {
    digest_all(before, part(numbers, 0, n))
}

// A digest with some numbers more.
pub fn digest_all<T: Copy + Into<u64>>(before: u64, numbers: &[T]) -> u64 {
    numbers
        .iter()
        .fold(before, |digest, number| mix(digest, (*number).into()))
}

// The sum of some numbers.
pub fn sum_of<T: Copy + Into<u64>>(numbers: &[T]) -> u64 {
    numbers
        .iter()
        .fold(0, |sum: u64, number| sum.wrapping_add((*number).into()))
}

// A digest with up to 64 bytes more, from a place on: what a call was to leave as it was.
pub fn digest_past(before: u64, bytes: &[u8], from: usize) -> u64 {
    digest_all(before, part(bytes, from, 64))
}

// The first n bytes made again what lent bytes are before a call.
pub fn refill(bytes: &mut [u8], n: usize) {
    let many = n.min(bytes.len());
    bytes[..many].fill(165);
}

// A word of a table, and 0 past its end.
pub fn word(table: &[u32], at: usize) -> usize {
    table.get(at).copied().unwrap_or(0) as usize
}

// How many of the numbers are not those expected, with a line for each.
pub fn all_differ(
    rt: &impl Print,
    what: &[u8],
    case: u64,
    expected: &[u64],
    got: &[u64],
) -> io::Result<usize> {
    let mut wrong: usize = 0;
    for (k, (expected, got)) in expected.iter().zip(got).enumerate() {
        let here = differs(rt, what, case, k as u64 + 1, *expected, *got)?;
        wrong = wrong.wrapping_add(here);
    }
    Ok(wrong)
}

// Reads standard input into a buffer until that is full or the input ends, and answers how many bytes there are. How many reads that takes nobody
// knows.
pub fn read_full(rt: &impl Input, space: &mut [u8]) -> io::Result<usize>
    ensures { IfOk result (λ n. n ≤ length space.new) }
{
    let mut input = rt.reader();
    let mut done = 0;
    while done < space.len() {
        let n = input.read(&mut space[done..])?;
        if n == 0 {
            break;
        }
        done += n;
    }
    Ok(done)
}
