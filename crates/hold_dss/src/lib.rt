// A block more of a DSS recording: it is handed out as it comes, or waits behind the blocks that wait, and all that can leave do.
// Rests on hold, for what is held, the blocks that wait and packets from either, on sp, for runs, on blocks and on tables. What is public
// here is for the crates above.
#![tactic(auto)]

ghost use Rattle.std.specs.Prelude.{◌≡◌, true, false, cond, List, ℕ, ◌+◌, ◌*◌, ◌≤◌, ◌^◌, eqb, leb, length};
ghost use Rattle.sp.specs.ReadLists.{dss_run};
ghost use Rattle.hold.specs.Ready.{ends_at};
ghost use Rattle.hold.specs.Inner.{Next, Added};

use blocks::{HEADER, PAYLOAD, StreamPlace};
use hold::Standing;
use sp::Run;

// Adds block b of a DSS recording, whose bytes are there in a source: it waits behind those that wait, and all that can leave are handed out. By
// itself the walk of a block that is handed out as it comes keeps its registers; inside add_dss it took two instructions a packet more.
#[inline(never)]
fn queue_dss(
    was: Standing,
    b: usize,
    hold: &mut [u8; 12288],
    waiting: &mut [u8; 66],
    source: &[u8],
    at: usize,
    number: usize,
    out: &mut [u8],
    counts: &mut [u8],
) -> Standing
    requires { Next true b number hold.old waiting.old was source.now at (length out.old) (length counts.old) }
    ensures { (g : Next true b number hold.old waiting.old was source.now at (length out.old) (length counts.old)) → Added true g.f g.a g.n b number hold.new waiting.new result out.old out.new counts.old counts.new }
{
    let j = was.base.0 / PAYLOAD;
    let wait = b - j;
    let held = PAYLOAD * wait;
    hold::bytes::append(hold, held, source, at + HEADER);
    hold::waiting::enter(waiting, wait, source, at);
    let first = hold::first_byte(b, was.first, source[at]);
    let announced = was.announced + usize::from(source[at + 2]);
    let all = b + 1;
    let gone = hold::waiting::released(waiting, j, all);
    let m = gone.packets;
    let carry = hold::waiting::write_waiting(
        hold, waiting, all, j, 0, m, was.carry, number, out, counts,
    );
    let by = PAYLOAD * gone.blocks;
    hold::bytes::drop_front(hold, by, held + PAYLOAD);
    hold::bytes::drop_front(waiting, 3 * gone.blocks, 3 * wait + 3);
    Standing {
        announced,
        ready: was.ready + m,
        base: StreamPlace(was.base.0 + by),
        first,
        carry,
    }
}

// Whether a DSS block can be handed out as it comes: no block waits before it, and its reads end inside it.
fn passes(base: StreamPlace, b: usize, run: Run) -> bool
    requires { (b ≤ 524288) × (run.count ≤ 255) × (run.start.0 ≤ 2 ^ 48) }
    ensures { result ≡ cond (eqb base.0 (506 * b)) (leb (ends_at run) (506 * (b + 1))) false }
{
    base.0 == PAYLOAD * b && hold::places::ends_at(run) <= PAYLOAD * (b + 1)
}

// Hands a DSS block's packets out from where it stands: nothing is held, and nothing waits, before it and after it.
fn pass_dss(
    was: Standing,
    b: usize,
    run: Run,
    source: &[u8],
    at: usize,
    number: usize,
    out: &mut [u8],
    counts: &mut [u8],
) -> Standing
    requires next { (h w : List ℕ) × Next true b number h w was source.now at (length out.old) (length counts.old) }
    requires passes { (was.base.0 ≡ 506 * b) × (ends_at run ≤ 506 * (b + 1)) × ((h w : List ℕ) (g : Next true b number h w was source.now at (length out.old) (length counts.old)) → run ≡ dss_run g.f g.a b) }
    ensures { (h w : List ℕ) (g : Next true b number h w was source.now at (length out.old) (length counts.old)) → Added true g.f g.a g.n b number h w result out.old out.new counts.old counts.new }
{
    let carry = hold::write_through(
        source,
        at + HEADER,
        was.base,
        run,
        was.carry,
        number,
        out,
        counts,
    );
    Standing {
        announced: was.announced + run.count,
        ready: was.ready + run.count,
        base: StreamPlace(was.base.0 + PAYLOAD),
        first: hold::first_byte(b, was.first, source[at]),
        carry,
    }
}

// Adds block b of a DSS recording: as it comes where it can be, or behind those that wait.
pub fn add_dss(
    was: Standing,
    b: usize,
    hold: &mut [u8; 12288],
    waiting: &mut [u8; 66],
    source: &[u8],
    at: usize,
    number: usize,
    out: &mut [u8],
    counts: &mut [u8],
) -> Standing
    requires { Next true b number hold.old waiting.old was source.now at (length out.old) (length counts.old) }
    ensures { (g : Next true b number hold.old waiting.old was source.now at (length out.old) (length counts.old)) → Added true g.f g.a g.n b number hold.new waiting.new result out.old out.new counts.old counts.new }
{
    let run = hold::waiting::block_run(b, source[at], source[at + 1], source[at + 2]);
    if passes(was.base, b, run) {
        return pass_dss(was, b, run, source, at, number, out, counts);
    }
    queue_dss(was, b, hold, waiting, source, at, number, out, counts)
}
