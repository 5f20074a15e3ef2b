// A block more of a DS2 recording, whose packets are those of one walk, and packets of the walk from any one on, for those that are owed.
// Rests on hold, for what is held and packets from it, on packets and sp, for reads and runs, on blocks and on tables. What is public here
// is for the crates above.
#![tactic(auto)]

ghost use Rattle.std.specs.Prelude.{false, List, ℕ, length};
ghost use Rattle.hold.specs.Ready.{reading_in};
ghost use Rattle.hold.specs.Inner.{PartWritten, Next, Added, Walking};

use blocks::{HEADER, PAYLOAD, StreamPlace};
use hold::Standing;
use sp::Run;

// Hands out m packets of a DS2 walk from packet k on, when n blocks are there; gives back what is carried on.
pub fn write_walk(
    hold: &[u8; 12288],
    base: StreamPlace,
    first: u8,
    n: usize,
    k: usize,
    m: usize,
    carry: u8,
    number: usize,
    out: &mut [u8],
    counts: &mut [u8],
) -> u8
    requires { Walking n k m number hold.now base.0 first carry (length out.old) (length counts.old) }
    ensures { (g : Walking n k m number hold.now base.0 first carry (length out.old) (length counts.old)) → PartWritten (reading_in false g.f g.a n) k m number out.old out.new counts.old counts.new result }
{
    let walk = Run {
        start: StreamPlace(0),
        swap: hold::waiting::flag(first),
        count: m,
    };
    let part = hold::places::part_of(walk, k, m);
    hold::write_held(hold, base, PAYLOAD * n, part, carry, number, out, counts)
}

// Adds block b of a DS2 recording, whose bytes are there in a source, and hands out what becomes ready.
pub fn add_ds2(
    was: Standing,
    b: usize,
    hold: &mut [u8; 12288],
    source: &[u8],
    at: usize,
    number: usize,
    out: &mut [u8],
    counts: &mut [u8],
) -> Standing
    requires { (w : List ℕ) × Next false b number hold.old w was source.now at (length out.old) (length counts.old) }
    ensures { (w : List ℕ) (g : Next false b number hold.old w was source.now at (length out.old) (length counts.old)) → Added false g.f g.a g.n b number hold.new w result out.old out.new counts.old counts.new }
{
    let held = PAYLOAD * b - was.base.0;
    hold::bytes::append(hold, held, source, at + HEADER);
    let first = hold::first_byte(b, was.first, source[at]);
    let announced = was.announced + usize::from(source[at + 2]);
    let swap = hold::waiting::flag(first);
    let all = b + 1;
    let ready = announced.min(packets::reads_within(swap, PAYLOAD * all));
    let k = was.ready;
    let m = ready - k;
    let carry = write_walk(
        hold, was.base, first, all, k, m, was.carry, number, out, counts,
    );
    let next = packets::reach(swap, ready);
    hold::bytes::drop_front(hold, next - was.base.0, held + PAYLOAD);
    Standing {
        announced,
        ready,
        base: StreamPlace(next),
        first,
        carry,
    }
}
