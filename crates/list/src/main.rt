// Prints one line for the dictation file on standard input: its tally, or why it is refused. It only reads and writes; the line is
// listing's. Rests on listing and the standard library.
#![tactic(auto)]

ghost use Rattle.std.specs.Prelude.{◌≤◌, length};

use std::io;
use std::io::Read;

// Reads once into what is lent, and answers how many bytes came: 0 too where the read fails.
fn read_once(rt: &impl Input, space: &mut [u8]) -> usize
    ensures { result ≤ length space.new }
{
    let answer = rt.reader().read(space);
    match answer {
        Ok(n) => n,
        Err(_) => 0,
    }
}

// Reads standard input until the buffer is full, the input ends or a read fails, and answers how many bytes there are. How many reads that
// takes nobody knows, and what std has for it wants the heap.
fn read_full(rt: &impl Input, space: &mut [u8]) -> usize
    ensures { result ≤ length space.new }
{
    let mut done = 0;
    while done < space.len() {
        let n = read_once(rt, &mut space[done..]);
        if n == 0 {
            break;
        }
        done += n;
    }
    done
}

// Whether standard input is at its end: a read that stopped short does not say why it did, so one more is made.
fn is_at_end(rt: &impl Input) -> bool {
    let mut more = [0u8; 1];
    matches!(rt.reader().read(&mut more), Ok(0))
}

// The buffer has room for a byte more than the listing takes.
fn main(rt: HostRuntime) -> io::Result<()> {
    let mut file = [0u8; 65537];
    let n = read_full(&rt, &mut file);
    if n < 65537 && !is_at_end(&rt) {
        return eprintln!(rt; "list: standard input could not be read to its end");
    }
    let mut line = [0u8; listing::LINE];
    let long = listing::list_line(&file[..n], &mut line);
    rt.write_all(&line[..long])
}
