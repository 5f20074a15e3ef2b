// A recording of either kind, block by block: the packets that become ready by a block are handed out, and those that are owed at the end.
// Rests on hold_ds2 and hold_dss, on hold, for the blocks that wait, and on blocks. What is public here is for the crates above.
// `dss` is a reader's kind, known only as it runs: a trait or a closure for each kind would leave this choice to the caller, and two laws there.
#![tactic(auto)]

ghost use Rattle.std.specs.Prelude.{◌+◌, length};
ghost use Rattle.hold.specs.Ready.{reading_in, ready};
ghost use Rattle.hold.specs.Inner.{PartWritten, Next, Added, Owing};

use blocks::PAYLOAD;
use hold::Standing;

// Adds block b of a recording, whose bytes are there in a source, and hands out what becomes ready behind `number` others.
pub fn add_block(
    dss: bool,
    was: Standing,
    b: usize,
    hold: &mut [u8; 12288],
    waiting: &mut [u8; 66],
    source: &[u8],
    at: usize,
    number: usize,
    out: &mut [u8],
    counts: &mut [u8],
) -> Standing
    requires { Next dss b number hold.old waiting.old was source.now at (length out.old) (length counts.old) }
    ensures { (g : Next dss b number hold.old waiting.old was source.now at (length out.old) (length counts.old)) → Added dss g.f g.a g.n b number hold.new waiting.new result out.old out.new counts.old counts.new }
{
    if dss {
        return hold_dss::add_dss(was, b, hold, waiting, source, at, number, out, counts);
    }
    hold_ds2::add_ds2(was, b, hold, source, at, number, out, counts)
}

// Hands out m of the packets that are owed when all n blocks are there, d of those that were not ready being out; gives back what is
// carried on.
pub fn write_owed(
    dss: bool,
    was: Standing,
    n: usize,
    d: usize,
    m: usize,
    hold: &[u8; 12288],
    waiting: &[u8; 66],
    out: &mut [u8],
    counts: &mut [u8],
) -> u8
    requires { Owing dss n d m hold.now waiting.now was (length out.old) (length counts.old) }
    ensures { (g : Owing dss n d m hold.now waiting.now was (length out.old) (length counts.old)) → PartWritten (reading_in dss g.f g.a n) (ready dss g.f g.a n + d) m 0 out.old out.new counts.old counts.new result }
{
    if dss {
        let j = was.base.0 / PAYLOAD;
        return hold::waiting::write_waiting(hold, waiting, n, j, d, m, was.carry, 0, out, counts);
    }
    let k = was.ready + d;
    hold_ds2::write_walk(
        hold, was.base, was.first, n, k, m, was.carry, 0, out, counts,
    )
}
