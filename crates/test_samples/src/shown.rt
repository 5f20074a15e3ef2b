// Words, numbers, bytes and refusals, written to the standard output. For the programs above. Rests on refusals and the standard library.
ghost use Rattle.std.specs.Prelude.{◌+◌, ◌≤◌};

use refusals::{Numbers, Refusal};
use std::io;

// Bytes as they are.
pub fn text(rt: &impl Print, bytes: &[u8]) -> io::Result<()> {
    rt.write_all(bytes)
}

// A number, after a space.
pub fn number(rt: &impl Print, n: usize) -> io::Result<()> {
    text(rt, b" ")?;
    rt.print(n)
}

// The same for a word of a table.
pub fn word(rt: &impl Print, value: u32) -> io::Result<()> {
    text(rt, b" ")?;
    rt.print(value)
}

// So many bytes of a packet, from a place on.
pub fn show(rt: &impl Print, bytes: &[u8; 42], at: usize, n: usize) -> io::Result<()>
    requires { at + n ≤ 42 }
{
    for byte in &bytes[at..at + n] {
        number(rt, usize::from(*byte))?;
    }
    Ok(())
}

// A refusal: its number, and the number beside it.
pub fn show_refusal(rt: &impl Print, why: Refusal) -> io::Result<()> {
    let why = Numbers::from(why);
    text(rt, b" refused ")?;
    rt.print(why.number)?;
    text(rt, b" ")?;
    rt.print(why.beside)
}

// The refusal of a record: its size too, and how many bytes are absent.
pub fn show_record_refusal(rt: &impl Print, why: Refusal) -> io::Result<()> {
    show_refusal(rt, why)?;
    let why = Numbers::from(why);
    text(rt, b" ")?;
    rt.print(why.size)?;
    text(rt, b" ")?;
    rt.print(why.absent)
}
