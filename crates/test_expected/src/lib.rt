// The list of vectors: numbers in text, and what is expected against what came. All of it is for the crates above. Rests on test_tools,
// and on the standard library for the lines that it writes.
#![tactic(auto)]

ghost use Rattle.std.specs.Prelude.{◌≤◌, ◌<◌, ◌^◌, length};

use std::io;
use test_tools::say;

// The file that numbers of the list make.
pub mod making;

// The numbers of a list that are not read yet. Everything that is no digit stands between numbers.
#[derive(Clone, Copy)]
pub struct Numbers<'a> {
    rest: &'a [u8],
}

// The value with a digit more. No number of the list comes near 18 digits.
fn with_digit(value: u64, digit: u8) -> u64 {
    value % 100000000000000000 * 10 + u64::from(digit % 48)
}

// How many bytes stand before the first one that is a digit, or that is none.
fn count_before(bytes: &[u8], is_digit: bool) -> usize
    ensures { result ≤ length bytes.now }
{
    bytes
        .iter()
        .position(|byte| byte.is_ascii_digit() == is_digit)
        .unwrap_or(bytes.len())
}

impl<'a> Numbers<'a> {
    pub fn of(list: &'a [u8]) -> Self {
        Numbers { rest: list }
    }

    // Whether there is a number more.
    pub fn goes_on(&self) -> bool {
        self.rest.iter().any(|byte| byte.is_ascii_digit())
    }

    // The next number, and 0 at the end.
    pub fn next(&mut self) -> u64 {
        let numbers = &self.rest[count_before(self.rest, true)..];
        let (digits, rest) = numbers.split_at(count_before(numbers, false));
        self.rest = rest;
        digits
            .iter()
            .fold(0, |value, digit| with_digit(value, *digit))
    }

    // The next number as a byte.
    pub fn next_byte(&mut self) -> u8 {
        (self.next() % 256) as u8
    }

    // The next number as a size or a place.
    pub fn next_size(&mut self) -> usize {
        self.next() as usize
    }
}

// The list as it is replayed: what of it is not read, in which case and at which answer that is, and how many answers and wrong ones there were.
#[derive(Drop)]
pub struct Replay<'a, R: Print> {
    rt: &'a R,
    pub numbers: Numbers<'a>,
    case: u64,
    answer: u64,
    answers: usize,
    wrong: usize,
}

impl<'a, R: Print> Replay<'a, R> {
    pub fn begin(rt: &'a R, list: &'a [u8]) -> Self {
        Replay {
            rt,
            numbers: Numbers::of(list),
            case: 0,
            answer: 0,
            answers: 0,
            wrong: 0,
        }
    }

    // Reads the case's number, with which it begins.
    pub fn begin_case(&mut self) {
        self.case = self.numbers.next();
        self.answer = 0;
    }

    // Holds an answer to the next number of the list.
    pub fn expect(&mut self, got: u64) -> io::Result<()> {
        self.answer = self.answer.wrapping_add(1);
        let expected = self.numbers.next();
        let wrong = test_tools::differs(self.rt, b"case ", self.case, self.answer, expected, got)?;
        self.answers = self.answers.wrapping_add(1);
        self.wrong = self.wrong.wrapping_add(wrong);
        Ok(())
    }

    // Holds some numbers that came to the next ones of the list, one after another.
    pub fn expect_all(&mut self, got: &[u64]) -> io::Result<()> {
        for got in got {
            self.expect(*got)?;
        }
        Ok(())
    }

    // The line at the end.
    pub fn conclude(&self) -> io::Result<()> {
        say(self.rt, b"cases ", self.case)?;
        say(self.rt, b", answers ", self.answers as u64)?;
        say(self.rt, b", wrong ", self.wrong as u64)?;
        self.rt.write_all(b"\n")
    }
}

// One case of a list, by the program that the list is for.
pub trait Case {
    fn hold<R: Print>(replay: &mut Replay<'_, R>) -> io::Result<()>;
}

// Runs through a list. A case has some numbers, so there are no more cases than bytes.
fn run<C: Case>(rt: &impl Print, list: &[u8]) -> io::Result<()> {
    let mut replay = Replay::begin(rt, list);
    for _ in 0..list.len() {
        if !replay.numbers.goes_on() {
            break;
        }
        C::hold(&mut replay)?;
    }
    replay.conclude()
}

// Runs through the list on standard input, and answers whether it did: ROOM is more bytes than a list has.
pub fn replay_list<C: Case, const ROOM: usize>(rt: &(impl Input + Print)) -> io::Result<bool>
    requires { ROOM < 2 ^ 63 }
{
    let mut space = [0u8; ROOM];
    let n = test_tools::read_full(rt, &mut space)?;
    if n == ROOM {
        println!(rt; "the list is too long")?;
        return Ok(false);
    }
    run::<C>(rt, &space[..n])?;
    Ok(true)
}
