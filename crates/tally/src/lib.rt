// The tally of any file: what its whole reading would hand out, in numbers, with no packet, segment or record stored. SP packets are
// counted a run at a time, with no walk over them. Rests on the whole readings and on all that they rest on.
#![tactic(auto)]

ghost use Rattle.std.specs.Prelude.{◌≡◌, ◌+◌, ◌-◌, ◌<◌, ◌^◌};
ghost use Rattle.whole.specs.Admissions.{Sound, announced_by};
ghost use Rattle.refusals.specs.Said.{result_says};
ghost use Rattle.tally.specs.Inner.{together};
ghost use Rattle.tally.specs.Tallies.{handed_by, counted_as, ds2_kind, kind_in, tallied};

use blocks::FilePlace;
use detect::Kind;
use refusals::Refusal;
use whole::Recording;

// SP packets, by runs.
mod in_packets;

// QP frames, by segments.
mod in_frames;

// QP7 records, by blocks.
mod in_records;

// What a file is: its family and how it is read.
#[derive(Clone, Copy, Debug, PartialEq, Eq)]
pub enum FileKind {
    DssSp,
    Ds2Sp,
    Ds2Qp,
    Ds2Qp7,
}

// How many packets, frames or records are handed out, how many of them are short, and how many bytes they have from the file. A DSS file
// at the limit has more of these than 32 bits hold.
#[derive(Clone, Copy)]
pub struct HandedOut {
    pub many: usize,
    pub short: usize,
    pub bytes: u64,
}

// A tally.
#[derive(Clone, Copy)]
pub struct Figures {
    pub kind: FileKind,
    pub start: FilePlace,
    pub blocks: usize,
    pub announced: usize,
    pub out: HandedOut,
}

// Two added up.
fn together(one: HandedOut, other: HandedOut) -> HandedOut
    requires { (one.many + other.many < 2 ^ 64) × (one.short + other.short < 2 ^ 64) × (one.bytes + other.bytes < 2 ^ 64) }
    ensures { result ≡ together one other }
{
    HandedOut {
        many: one.many + other.many,
        short: one.short + other.short,
        bytes: one.bytes + other.bytes,
    }
}

// What a recording that announces so many frames hands out, read by its kind.
fn handed_out(
    file: &[u8],
    recording: Recording,
    announced: usize,
    kind: FileKind,
) -> Result<HandedOut, Refusal>
    requires sound { Sound file.now recording }
    requires announced { announced ≡ announced_by file.now recording }
    ensures { result_says result ≡ handed_by kind file.now recording }
{
    match kind {
        FileKind::DssSp => Ok(in_packets::of_dss(file, recording)),
        FileKind::Ds2Sp => Ok(in_packets::of_ds2(file, recording, announced)),
        FileKind::Ds2Qp => Ok(in_frames::of_qp(file, recording)),
        FileKind::Ds2Qp7 => in_records::of_qp7(file, recording),
    }
}

// The tally of a recording of this kind.
#[tactic(auto, unfolding(crate::specs::Tallies::counted_as))]
fn count(file: &[u8], recording: Recording, kind: FileKind) -> Result<Figures, Refusal>
    requires { Sound file.now recording }
    ensures { result_says result ≡ counted_as kind file.now recording }
{
    let announced = recording.announced(file);
    let out = handed_out(file, recording, announced, kind)?;
    Ok(Figures {
        kind,
        start: recording.start,
        blocks: recording.blocks,
        announced,
        out,
    })
}

// What a DS2 recording is that is read so.
fn ds2_kind(kind: Kind) -> FileKind
    ensures { result ≡ ds2_kind kind }
{
    match kind {
        Kind::Sp => FileKind::Ds2Sp,
        Kind::Qp => FileKind::Ds2Qp,
        Kind::Qp7 => FileKind::Ds2Qp7,
    }
}

// What a recording is that was taken as DSS or as DS2.
fn kind_in(dss: bool, file: &[u8], recording: Recording) -> FileKind
    ensures { result ≡ kind_in dss file.now recording }
{
    if dss {
        return FileKind::DssSp;
    }
    let byte = recording.format_type(file);
    ds2_kind(detect::ds2::kind_of(byte))
}

// The tally of any file, or the refusal that its whole reading gives: 1, 2, 3, 4 or 5.
#[tactic(auto, unfolding(crate::specs::Tallies::tallied))]
pub fn tally(file: &[u8]) -> Result<Figures, Refusal>
    ensures { result_says result ≡ tallied file.now }
{
    let dss = magic::names_dss(file);
    let recording = whole::admit(file, dss, !dss)?;
    count(file, recording, kind_in(dss, file, recording))
}
