// Replays a fixed list of files, indexes and packet numbers, from standard input: of each file an index is built; and the index that the list has
// beside it, right or wrong, is read, an entry is found in it, and a packet is asked for by it. Says how many cases there were and how many answers
// were wrong; each wrong one gets a line. make.py makes the list, and says what it holds.
// Rests on index and finding, and on test_expected and test_sums and what these share.
#![tactic(auto)]

use std::io;

// One case.
mod calls;

// The index that it lends.
mod making;

fn main(rt: HostRuntime) -> io::Result<()> {
    test_expected::replay_list::<calls::Indexes, 1048576>(&rt)?;
    Ok(())
}
