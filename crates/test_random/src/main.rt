// Generated files: what the whole reading hands out, against what pieces hand out and against the tally. Every two-piece cut of small
// recordings, three-piece cuts around the edges of blocks, and many files with random cuts. One line with counts; each disagreement gets a
// line of its own. Rests on all the calls, and on test_generated, test_readings, test_feeding, test_ends and what these share.
#![tactic(auto)]

use std::io;
use test_generated::tried::conclude;

// One file, fed and drained.
mod drained;

// The files, each in every way.
mod cuts;

// Room for the packets of any file that is made; no list is replayed here.
fn room() -> [u8; 430080] {
    [0u8; 430080]
}

fn main(rt: HostRuntime) -> io::Result<()> {
    let mut out = room();
    let mut counts = [0u8; 10240];
    let tried = cuts::all(&rt, &mut out, &mut counts)?;
    conclude(&rt, tried)
}
