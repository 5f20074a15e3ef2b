// A run from some packet on, and where its reads end, with no walk. For the rest of this crate and for the crates above. Rests on
// packets and on sp, for runs.
ghost use Rattle.std.specs.Prelude.{◌≡◌, ◌≤◌, ◌^◌};
ghost use Rattle.hold.specs.Ready.{ends_at};
ghost use Rattle.hold.specs.Inner.{part_of};

use blocks::StreamPlace;
use sp::Run;

// m packets of a run from its packet k on.
pub fn part_of(run: Run, k: usize, m: usize) -> Run
    requires { (k ≤ 2 ^ 48) × (run.start.0 ≤ 2 ^ 48) }
    ensures { result ≡ part_of run k m }
{
    Run {
        start: StreamPlace(run.start.0 + packets::reach(run.swap, k)),
        swap: packets::parity(run.swap, k),
        count: m,
    }
}

// Where a run's reads end.
pub fn ends_at(run: Run) -> usize
    requires { (run.count ≤ 2 ^ 48) × (run.start.0 ≤ 2 ^ 48) }
    ensures { result ≡ ends_at run }
{
    run.start.0 + packets::reach(run.swap, run.count)
}
