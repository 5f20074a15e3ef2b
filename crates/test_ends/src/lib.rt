// A reader ended strictly and leniently, and by a choice that is neither, in numbers. All of it is for the crates above. Rests on reader and
// test_sums.
#![tactic(auto)]

ghost use Rattle.reader.specs.State.{Reached};

use reader::{LENIENT, Reader, STRICT};
use test_sums::{Sums, count_in};

// The lenient end: what it brings and the frames owed after it; what an empty piece gets then, an end by a choice that is neither, and a strict
// end; and what the lenient end brings that is asked again, with the frames owed after that.
#[derive(Clone, Copy)]
pub struct LenientEnd {
    pub came: Sums,
    pub owed: usize,
    pub late: Sums,
    pub neither: Sums,
    pub strict: Sums,
    pub again: Sums,
    pub still: usize,
}

// What an end by a choice that is neither gets; the frames owed by the reader that it hands back; what the strict end gets, and an empty piece
// after it; then the lenient end.
#[derive(Clone, Copy)]
pub struct Ended {
    pub neither: Sums,
    pub owed: usize,
    pub strict: Sums,
    pub patient: Sums,
    pub lenient: LenientEnd,
}

// What an end brings, and the reader after it.
#[derive(Clone, Copy)]
struct After {
    came: Sums,
    reader: Reader,
}

// What an end by a choice that is neither gets; the frames owed by the reader that it hands back; what the strict end of that one gets, and the
// reader after it.
#[derive(Clone, Copy)]
struct Tried {
    neither: Sums,
    owed: usize,
    strict: Sums,
    reader: Reader,
}

// What an empty piece gets.
pub fn empty_piece(reader: Reader, out: &mut [u8], counts: &mut [u8]) -> Sums
    requires { Reached reader }
{
    let step = reader.piece(&[], out, counts);
    count_in(Sums::default(), step.answer, 0, out, counts)
}

// An end by a choice, which is any number: `end` takes one.
fn end_once(reader: Reader, choice: u64, out: &mut [u8], counts: &mut [u8]) -> After
    requires { Reached reader }
    ensures { Reached result.reader }
{
    let step = reader.end(choice, out, counts);
    After {
        came: count_in(Sums::default(), step.answer, 0, out, counts),
        reader: step.reader,
    }
}

// What it brings.
pub fn end_said(reader: Reader, choice: u64, out: &mut [u8], counts: &mut [u8]) -> Sums
    requires { Reached reader }
{
    end_once(reader, choice, out, counts).came
}

// An end by a choice that is neither, and then the strict one.
fn neither_then_strict(reader: Reader, choice: u64, out: &mut [u8], counts: &mut [u8]) -> Tried
    requires { Reached reader }
    ensures { Reached result.reader }
{
    let refused = end_once(reader, choice, out, counts);
    let owed = refused.reader.owed();
    let ended = end_once(refused.reader, STRICT, out, counts);
    Tried {
        neither: refused.came,
        owed,
        strict: ended.came,
        reader: ended.reader,
    }
}

// The lenient end, and then an empty piece, an end by a choice that is neither, a strict one, and the lenient one again.
fn lenient(reader: Reader, choice: u64, out: &mut [u8], counts: &mut [u8]) -> LenientEnd
    requires { Reached reader }
{
    let once = end_once(reader, LENIENT, out, counts);
    let late = empty_piece(once.reader, out, counts);
    let tried = neither_then_strict(once.reader, choice, out, counts);
    let twice = end_once(tried.reader, LENIENT, out, counts);
    LenientEnd {
        came: once.came,
        owed: tried.owed,
        late,
        neither: tried.neither,
        strict: tried.strict,
        again: twice.came,
        still: twice.reader.owed(),
    }
}

// Ends a reader by a choice that is neither, then strictly and then leniently.
pub fn ends_of(reader: Reader, choice: u64, out: &mut [u8], counts: &mut [u8]) -> Ended
    requires { Reached reader }
{
    let tried = neither_then_strict(reader, choice, out, counts);
    Ended {
        neither: tried.neither,
        owed: tried.owed,
        strict: tried.strict,
        patient: empty_piece(tried.reader, out, counts),
        lenient: lenient(tried.reader, choice, out, counts),
    }
}

// The lenient end, asked again while frames are owed.
fn drain(reader: Reader, before: Sums, out: &mut [u8], counts: &mut [u8]) -> Sums
    requires { Reached reader }
{
    let mut draining = reader;
    let mut sums = before;
    for _ in 0..10000 {
        if draining.owed() == 0 {
            break;
        }
        let step = draining.end(LENIENT, out, counts);
        sums = count_in(sums, step.answer, 0, out, counts);
        draining = step.reader;
    }
    sums
}

// All that came out before, and what the drained end brings, with room for 64 packets at a time.
pub fn drained_by_64(reader: Reader, before: Sums) -> Sums
    requires { Reached reader }
{
    let mut out = [0u8; 2688];
    let mut counts = [0u8; 64];
    drain(reader, before, &mut out, &mut counts)
}
