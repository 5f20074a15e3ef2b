// Replays a fixed list of headers and packets for the writer of DS2 SP files, from standard input, and says how many cases there were, how
// many were answered, and how many of the files gave their packets back; each difference gets a line. make.py makes the list, and says what
// it holds and why refusal 17 is not in it. Rests on writing and sp, on test_expected and test_sums and what these share.
#![tactic(auto)]

use std::io;
use test_expected::Numbers;
use test_tools::say;

// One case.
mod calls;

// What is lent for it.
mod making;

// The line at the end.
fn conclude(rt: &impl Print, cases: usize, answered: usize, back: usize) -> io::Result<()> {
    say(rt, b"cases ", cases as u64)?;
    say(rt, b", answered ", answered as u64)?;
    say(rt, b", read back ", back as u64)?;
    rt.write_all(b"\n")
}

// Runs through the list. A case has some numbers, so there are no more cases than bytes. Not by `replay_list`: what a case comes to is added up here.
fn run(rt: &impl Print, list: &[u8]) -> io::Result<()> {
    let mut numbers = Numbers::of(list);
    let mut cases: usize = 0;
    let mut answered: usize = 0;
    let mut back: usize = 0;
    for _ in 0..list.len() {
        if !numbers.goes_on() {
            break;
        }
        let came = calls::one_case(rt, making::next_case(&mut numbers))?;
        cases = cases.wrapping_add(1);
        answered = answered.wrapping_add(usize::from(came.answered));
        back = back.wrapping_add(usize::from(came.back));
    }
    conclude(rt, cases, answered, back)
}

fn main(rt: HostRuntime) -> io::Result<()> {
    let mut space = [0u8; 65536];
    let n = test_tools::read_full(&rt, &mut space)?;
    if n == 65536 {
        return println!(rt; "the list is too long");
    }
    run(&rt, &space[..n])
}
