// A packet of a DS2 SP file straight from its number, its carried byte included, with no walk over those before it, into lent memory.
// Rests on whole, which says whether the file is taken and what it announces, on packets, for where a read lies, on sp, which makes the read and
// whose whole reading it agrees with, on refusals and blocks.
#![tactic(auto)]

ghost use Rattle.std.specs.Prelude.{◌≡◌, ◌≤◌, ◌^◌};
ghost use Rattle.blocks.specs.Places.{Whole};
ghost use Rattle.whole.specs.Admissions.{stream_in};
ghost use Rattle.sp.specs.Outcome.{Demuxes};
ghost use Rattle.sp.specs.Written.{Written};
ghost use Rattle.sp.specs.Inner.{Readable};
ghost use Rattle.at_once.specs.Straight.{carried_to, straight, of_number, packet_reading};
ghost use Rattle.at_once.specs.Inner.{Ready};

use blocks::StreamPlace;
use detect::Kind;
use refusals::Refusal;
use sp::Run;
use whole::Recording;

// What is carried to the packet of this number, where the first has this parity: nothing to the first, and else the byte two places before its
// read.
fn carried_to(file: &[u8], recording: Recording, first: bool, number: usize) -> u8
    requires { Whole file.now recording.start.0 recording.blocks × (number ≤ 2 ^ 48) }
    ensures { result ≡ carried_to (stream_in file.now recording) first number }
{
    if number == 0 {
        return 0;
    }
    let before = packets::reach(first, number) - 2;
    blocks::byte_or_zero(file, recording.start, recording.blocks, StreamPlace(before))
}

// Hands out the packet of this number, which there is, and for which there is room: a run of one read.
fn hand_out(file: &[u8], recording: Recording, number: usize, out: &mut [u8], counts: &mut [u8])
    requires { Ready file.now recording number out.old counts.old }
    ensures { Written (straight file.now recording number) out.old out.new counts.old counts.new }
{
    let first = blocks::swap_flag(file, recording.start, 0);
    let carry = carried_to(file, recording, first, number);
    let run = Run {
        start: StreamPlace(packets::reach(first, number)),
        swap: packets::parity(first, number),
        count: 1,
    };
    sp::write_run(file, recording, run, carry, 0, out, counts);
}

// Hands out a recording's packet of this number, if there is one, and room for it. The count bytes of all blocks are read for that.
fn read(
    file: &[u8],
    recording: Recording,
    number: usize,
    out: &mut [u8],
    counts: &mut [u8],
) -> Result<usize, Refusal>
    requires { Readable file.now recording }
    ensures { Demuxes (of_number file.now recording number) out.old out.new counts.old counts.new result }
{
    let total = recording.announced(file);
    if total <= number {
        return Err(Refusal::Beyond(total));
    }
    if !sp::has_room(1, out.len(), counts.len()) {
        return Err(Refusal::Room(1));
    }
    hand_out(file, recording, number, out, counts);
    Ok(1)
}

// The packet of this number of a DS2 SP file and its file-byte count, or a refusal that changes nothing.
#[tactic(auto, using(sp::proofs::Outcome::may_read), unfolding(crate::specs::Straight::packet_reading, sp::specs::Outcome::in_room))]
pub fn ds2_sp_packet(
    file: &[u8],
    number: usize,
    out: &mut [u8],
    counts: &mut [u8],
) -> Result<usize, Refusal>
    ensures { Demuxes (packet_reading file.now number) out.old out.new counts.old counts.new result }
{
    let recording = whole::admit_ds2(file, Kind::Sp)?;
    read(file, recording, number, out, counts)
}
