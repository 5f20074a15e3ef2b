// What an SP recording hands out: run by run, with the complete reads of a run that is cut counted by a division. Within a run only the first
// packet can be short though its read is complete, so that besides it is enough to know of each run whether what is carried into it came from
// the file. Rests on sp, for the runs, and on packets, for how far so many packets go.
ghost use Rattle.std.specs.Prelude.{◌≡◌, ℕ, ◌+◌, ◌*◌, ◌≤◌, ◌<◌, ◌^◌, List};
ghost use Rattle.packets.specs.Walk.{reach};
ghost use Rattle.sp.specs.declared.Run.{Run};
ghost use Rattle.whole.specs.Admissions.{Sound, announced_by};
ghost use Rattle.sp.specs.ReadLists.{dss_runs, ds2_runs};
ghost use Rattle.sp.specs.Readings.{reading_of};
ghost use Rattle.tally.specs.HandedOut.{packets_out};
ghost use Rattle.tally.specs.Inner.{ours_in, past_by, adds_by, sourced_past, Adds};

use crate::HandedOut;
use blocks::{PAYLOAD, StreamPlace};
use sp::Run;
use whole::Recording;

// What a run adds, and whether what is carried past it came from the file.
#[derive(Clone, Copy)]
struct Added {
    out: HandedOut,
    sourced: bool,
}

// How many packets of a run are short though their reads are complete, of which there are so many: the first, if it is swapped and what is
// carried to it did not come from the file.
fn ours_in(swap: bool, sourced: bool, complete: usize) -> usize
    ensures { (result ≡ ours_in swap sourced complete) × (result ≤ complete) }
{
    usize::from(swap && !sourced && complete != 0)
}

// Whether what is carried past a run came from the file, if so many bytes are left for it: byte 40 of its last unswapped read, which is the last
// but one of that read's bytes; and without such a read what was carried into the run.
fn sourced_past(swap: bool, count: usize, left: usize, sourced: bool) -> bool
    requires { (count ≤ 2 ^ 48) × (left ≤ 2 ^ 48) }
    ensures { result ≡ past_by swap count left sourced }
{
    let reads = packets::upto_unswapped(swap, count);
    if reads == 0 {
        return sourced;
    }
    packets::reach(swap, reads) < left + 2
}

// The same if no fewer bytes are left than the reads take: then it is enough that one of them is unswapped.
fn sourced_past_complete(swap: bool, count: usize, sourced: bool) -> bool
    ensures { (left : ℕ) → reach swap count ≤ left → result ≡ past_by swap count left sourced }
{
    packets::swap_bit(swap) < count || sourced
}

// What a run adds whose reads are all complete, as those of nearly every run are, and end so many bytes on.
fn of_complete(swap: bool, count: usize, end: usize, sourced: bool) -> Added
    requires { end ≡ reach swap count }
    ensures { (left : ℕ) → end ≤ left → result ≡ adds_by swap count count left sourced }
{
    let short = ours_in(swap, sourced, count);
    let out = HandedOut {
        many: count,
        short,
        bytes: end as u64,
    };
    let sourced = sourced_past_complete(swap, count, sourced);
    Added { out, sourced }
}

// What a run adds for which so many bytes are left, fewer than its reads take: a division says how many are complete.
fn of_cut(swap: bool, count: usize, left: usize, sourced: bool) -> Added
    requires { (count ≤ 2 ^ 48) × (left ≤ 2 ^ 48) × (left < reach swap count) }
    ensures { (m : ℕ) × (m < count) × (reach swap m ≤ left) × (left < reach swap (m + 1)) × (result ≡ adds_by swap count m left sourced) }
{
    let complete = packets::reads_within(swap, left);
    let ours = ours_in(swap, sourced, complete);
    let out = HandedOut {
        many: count,
        short: count - complete + ours,
        bytes: left as u64,
    };
    let sourced = sourced_past(swap, count, left, sourced);
    Added { out, sourced }
}

// What a run adds that is read after others, in a stream of so many bytes; sourced says whether what is carried past those came from the file.
fn of_run(run: Run, long: usize, sourced: bool) -> Added
    requires { (run.count ≤ 2 ^ 48) × (long ≤ 2 ^ 48) }
    ensures adds { (s : ℕ → ℕ) (runs : List Run) → sourced ≡ sourced_past s long runs → Adds s long runs run result }
    ensures few { (result.out.many ≡ run.count) × (result.out.short ≤ run.count) × (result.out.bytes ≤ 42 * run.count) }
{
    let left = long.saturating_sub(run.start.0);
    let end = packets::reach(run.swap, run.count);
    if end <= left {
        return of_complete(run.swap, run.count, end, sourced);
    }
    of_cut(run.swap, run.count, left, sourced)
}

// For the rest of this crate. What a DSS recording hands out: a run for each block, which for a silent one has no packets. By itself its loop
// keeps more in registers than inside the tally, one instruction in nine.
#[inline(never)]
pub fn of_dss(file: &[u8], recording: Recording) -> HandedOut
    requires { Sound file.now recording }
    ensures { result ≡ packets_out (reading_of file.now recording dss_runs) }
{
    let long = PAYLOAD * recording.blocks;
    let mut out = HandedOut {
        many: 0,
        short: 0,
        bytes: 0,
    };
    let mut sourced = false;
    for block in 0..recording.blocks {
        let run = sp::dss_run(file, recording.start, block);
        let added = of_run(run, long, sourced);
        out = crate::together(out, added.out);
        sourced = added.sourced;
    }
    out
}

// For the rest of this crate. What a DS2 recording hands out that announces so many packets: one run.
pub fn of_ds2(file: &[u8], recording: Recording, announced: usize) -> HandedOut
    requires sound { Sound file.now recording }
    requires announced { announced ≡ announced_by file.now recording }
    ensures { result ≡ packets_out (reading_of file.now recording ds2_runs) }
{
    if recording.blocks == 0 {
        return HandedOut {
            many: 0,
            short: 0,
            bytes: 0,
        };
    }
    let run = Run {
        start: StreamPlace(0),
        swap: blocks::swap_flag(file, recording.start, 0),
        count: announced,
    };
    of_run(run, PAYLOAD * recording.blocks, false).out
}
