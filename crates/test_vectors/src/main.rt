// Replays a fixed list of files with the answers that are expected for each, from standard input, and says how many cases there were and how
// many answers were wrong; each wrong one gets a line. LIST.md says what the list holds, and make.py makes it.
// Rests on all the calls, and on test_asked, test_expected, test_feeding, test_ends and what these share.
#![tactic(auto)]

use std::io;

// The calls on one file.
mod calls;

// Reading in pieces.
mod fed;

fn main(rt: HostRuntime) -> io::Result<()> {
    if test_expected::replay_list::<calls::Vectors, 1310720>(&rt)? {
        fed::limit(&rt)?;
    }
    Ok(())
}
