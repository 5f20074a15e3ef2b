// Reading in pieces: a Reader takes an SP recording's bytes in any cut, hands out packets as they become ready, and ends strictly or
// leniently. What `Ds2SpStreamDemuxer` and `DssSpStreamDemuxer` do. Rests on pieces, for a piece, on hold and hold_either, for packets that
// are owed, on packets, refusals and blocks.
#![tactic(auto)]

ghost use Rattle.std.specs.Prelude.{◌≡◌, true, cond, ◌+◌, ◌-◌, ◌/◌, ◌%◌, ◌≤◌, ◌<◌, min, eqb, leb};
ghost use Rattle.refusals.specs.Said.{result_says};
ghost use Rattle.reader.specs.State.{is_kind, start_of, reader_of, Reached};
ghost use Rattle.reader.specs.Inner.{standing_of, fresh, step_to};
ghost use Rattle.reader.specs.Calls.{strict_by, lenient_by, end_by, Opens};
ghost use Rattle.reader.specs.History.{PieceCall, EndCall, OwedCall};

use blocks::{BLOCK, FilePlace, StreamPlace};
use hold::Standing;
use packets::PACKET;
use refusals::Refusal;

// The two ends, as `end` takes them.
pub const STRICT: u64 = 0;

pub const LENIENT: u64 = 1;

// The phases.
const TAKES: u64 = 0;

const DRAINS: u64 = 1;

const ENDED: u64 = 2;

// A reader: a call by value takes it and hands the next one back, a call in place advances it. All fields are numbers or arrays of them.
// `kind` is 0 for DS2 and 2 or 3 for DSS; `phase` is 0 while it takes pieces, 1 while it drains, 2 when it has ended. Then: bytes taken,
// frames announced, packets that are ready and those drained beyond them, where the hold begins in the payload stream, the first block's
// byte 0, the carried byte; the hold, the bytes of a block not yet whole, and of DSS blocks that wait, at most 22, three header bytes each.
// Kind, phase and the choice of an end are numbers, and not enums: hosts lay a reader out so, `open` and `end` take any number, and `State`
// has them as they are.
#[repr(C)]
#[derive(Clone, Copy)]
pub struct Reader {
    kind: u64,
    phase: u64,
    taken: usize,
    announced: usize,
    ready: usize,
    drained: usize,
    base: usize,
    first: u8,
    carry: u8,
    hold: [u8; 12288],
    partial: [u8; 512],
    waiting: [u8; 66],
}

// A call's answer, and the reader to go on with.
#[derive(Clone, Copy)]
pub struct Step {
    pub answer: Result<usize, Refusal>,
    pub reader: Reader,
}

#[tactic(auto, unfolding(crate::specs::State::is_kind))]
fn is_kind(kind: u64) -> bool
    ensures { result ≡ is_kind kind }
{
    kind == 0 || kind == 2 || kind == 3
}

// Where the audio of a kind starts.
#[tactic(auto, unfolding(crate::specs::State::is_kind, crate::specs::State::start_of))]
fn start_of(kind: u64) -> FilePlace
    requires { is_kind kind ≡ true }
    ensures { (result.0 ≡ start_of kind) × (result.0 ≤ 1536) }
{
    FilePlace(if kind == 2 { 1024 } else { 1536 })
}

// How many of the packets of an output and a count table of these lengths there is room for.
fn room_for(out: usize, counts: usize) -> usize
    ensures { result ≡ min (out / 42) counts }
{
    counts.min(out / PACKET)
}

// No input yet, or a full header.
fn header_done(taken: usize, a: FilePlace) -> bool
    ensures { result ≡ cond (eqb taken 0) true (leb a.0 taken) }
{
    taken == 0 || a.0 <= taken
}

// What the strict end says, by the phase and so many bytes taken and frames owed.
#[tactic(auto, unfolding(crate::specs::Calls::strict_by))]
fn strict(phase: u64, a: FilePlace, taken: usize, owed: usize) -> Result<usize, Refusal>
    ensures { result_says result ≡ strict_by phase a.0 taken owed }
{
    if phase == DRAINS {
        return Err(Refusal::Ended);
    }
    if phase == ENDED {
        return Ok(0);
    }
    if !header_done(taken, a) {
        return Err(Refusal::Header(a));
    }
    let inside = taken.saturating_sub(a.0) % BLOCK;
    if inside != 0 {
        return Err(Refusal::Inside(inside));
    }
    if owed != 0 {
        return Err(Refusal::Owed(owed));
    }
    Ok(0)
}

// What the lenient end says, by so many bytes taken, frames owed and packets that there is room for.
#[tactic(auto, unfolding(crate::specs::Calls::lenient_by))]
fn lenient(a: FilePlace, taken: usize, owed: usize, room: usize) -> Result<usize, Refusal>
    ensures { result_says result ≡ lenient_by a.0 taken owed room }
{
    if !header_done(taken, a) {
        return Err(Refusal::Header(a));
    }
    Ok(room.min(owed))
}

// What an end says, by which of the two is meant.
fn decide(
    choice: u64,
    phase: u64,
    a: FilePlace,
    taken: usize,
    owed: usize,
    room: usize,
) -> Result<usize, Refusal>
    ensures { result_says result ≡ end_by choice phase a.0 taken owed room }
{
    match choice {
        STRICT => strict(phase, a, taken, owed),
        LENIENT => lenient(a, taken, owed, room),
        _ => Err(Refusal::Choice),
    }
}

// The phase after an end that hands out so many of the packets owed.
fn phase_after(some: usize, owed: usize) -> u64
    ensures { result ≡ cond (eqb some owed) 2 1 }
{
    if some == owed { ENDED } else { DRAINS }
}

impl Reader {
    // A reader of a kind that has taken nothing.
    fn empty(kind: u64, phase: u64) -> Self
        ensures { result ≡ reader_of (fresh kind phase) }
    {
        Self {
            kind,
            phase,
            taken: 0,
            announced: 0,
            ready: 0,
            drained: 0,
            base: 0,
            first: 0,
            carry: 0,
            hold: [0u8; 12288],
            partial: [0u8; 512],
            waiting: [0u8; 66],
        }
    }

    // The numbers beside the hold.
    fn standing(&self) -> Standing
        ensures { result ≡ standing_of self.now }
    {
        Standing {
            announced: self.announced,
            ready: self.ready,
            base: StreamPlace(self.base),
            first: self.first,
            carry: self.carry,
        }
    }

    // A fresh reader of a kind; or refusal 10 with that kind, and an ended reader of kind 0.
    #[tactic(auto, using(crate::proofs::Opened::opens_known, crate::proofs::Opened::opens_none), unfolding(crate::specs::State::is_kind))]
    pub fn open(kind: u64) -> Step
        ensures { Opens kind result }
    {
        if !is_kind(kind) {
            return Step {
                answer: Err(Refusal::Kind(kind)),
                reader: Self::empty(0, ENDED),
            };
        }
        Step {
            answer: Ok(0),
            reader: Self::empty(kind, TAKES),
        }
    }

    // A whole piece, or a refusal with everything as it was: 6, 2, 7 or 8.
    pub fn piece(mut self, piece: &[u8], out: &mut [u8], counts: &mut [u8]) -> Step
        requires { Reached self }
        ensures { PieceCall self piece.now out.old out.new counts.old counts.new result }
    {
        let answer = self.push(piece, out, counts);
        Step {
            answer,
            reader: self,
        }
    }

    // For the crates above. The same where the reader stands.
    pub fn push(
        &mut self,
        piece: &[u8],
        out: &mut [u8],
        counts: &mut [u8],
    ) -> Result<usize, Refusal>
        requires { Reached self.old }
        ensures { PieceCall self.old piece.now out.old out.new counts.old counts.new (step_to self.new result) }
    {
        let dss = self.kind != 0;
        let a = start_of(self.kind);
        let was = self.standing();
        let room = room_for(out.len(), counts.len());
        let answer = pieces::survey::decide(
            dss,
            a,
            self.phase,
            self.taken,
            was,
            &self.partial,
            &self.waiting,
            piece,
            room,
        );
        if answer.is_ok() {
            let now = pieces::absorb::absorb(
                true,
                dss,
                a,
                self.taken,
                was,
                &mut self.hold,
                &mut self.partial,
                &mut self.waiting,
                piece,
                out,
                counts,
            );
            self.taken += piece.len();
            self.announced = now.announced;
            self.ready = now.ready;
            self.base = now.base.0;
            self.first = now.first;
            self.carry = now.carry;
        }
        answer
    }

    // Ends the reader, strictly or leniently as the choice has it, and refuses any other choice by 22. The strict end hands out nothing; it is
    // answered if there is a full header, whole blocks only and no frame owed, or refuses: 6, 3, 13 or 14. The lenient end drops a block that is
    // not whole and hands out the packets that are owed, zeros past the stream's end, as many as there is room for; or refuses by 3. While some
    // are owed the reader drains, and then it has ended: either end answers that there are no packets.
    pub fn end(mut self, choice: u64, out: &mut [u8], counts: &mut [u8]) -> Step
        requires { Reached self }
        ensures { EndCall self choice out.old out.new counts.old counts.new result }
    {
        let answer = self.finish(choice, out, counts);
        Step {
            answer,
            reader: self,
        }
    }

    // For the crates above. The same where the reader stands.
    pub fn finish(
        &mut self,
        choice: u64,
        out: &mut [u8],
        counts: &mut [u8],
    ) -> Result<usize, Refusal>
        requires { Reached self.old }
        ensures { EndCall self.old choice out.old out.new counts.old counts.new (step_to self.new result) }
    {
        let dss = self.kind != 0;
        let a = start_of(self.kind);
        let was = self.standing();
        let owed = self.announced - self.ready - self.drained;
        let room = room_for(out.len(), counts.len());
        let answer = decide(choice, self.phase, a, self.taken, owed, room);
        if let Ok(some) = answer {
            let blocks = blocks::whole_blocks(self.taken, a);
            self.carry = hold_either::write_owed(
                dss,
                was,
                blocks,
                self.drained,
                some,
                &self.hold,
                &self.waiting,
                out,
                counts,
            );
            self.drained += some;
            self.phase = phase_after(some, owed);
        }
        answer
    }

    // How many frames are announced and not handed out: what a lenient end with ample room would hand out.
    pub fn owed(self) -> usize
        requires { Reached self }
        ensures { OwedCall self result }
    {
        self.announced - self.ready - self.drained
    }
}
