// Replays a fixed list of files and numbers, from standard input: of each file the packet of that number is asked for at once. Says how many
// cases there were and how many answers were wrong; each wrong one gets a line. make.py makes the list, and says what it holds.
// Rests on at_once, and on test_expected and test_sums and what these share.
#![tactic(auto)]

use std::io;

// One case.
mod calls;

fn main(rt: HostRuntime) -> io::Result<()> {
    test_expected::replay_list::<calls::Packets, 196608>(&rt)?;
    Ok(())
}
