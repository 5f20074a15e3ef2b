// What every whole call asks first: whether it takes a file, where that file's audio starts and how many blocks follow. And a block's payload
// on request. Rests on detect, for the start and the type, on blocks, magic, refusals and tables.
#![tactic(auto)]

ghost use Rattle.std.specs.Prelude.{◌≡◌, ◌*◌, ◌≤◌, get_or, IfOk};
ghost use Rattle.blocks.specs.Places.{Whole};
ghost use Rattle.refusals.specs.Said.{demand, result_says};
ghost use Rattle.whole.specs.Admissions.{admission_at, admission, type_in, announced_by, of_kind, ds2_admission, Sound};
ghost use Rattle.whole.specs.Payload.{payload_place, payload_says, payload_shown};

use blocks::{BLOCK, FilePlace, LIMIT, PAYLOAD, StreamPlace};
use detect::Kind;
use magic::Magic;
use refusals::Refusal;

// A file that a whole call takes: where its audio starts, and how many whole blocks follow. It does not hold the file, although the two travel
// together and clauses say `Sound file.now recording`: a struct with a reference in it has its moments too, and the clauses would be longer.
#[derive(Clone, Copy, Debug, PartialEq, Eq)]
pub struct Recording {
    pub start: FilePlace,
    pub blocks: usize,
}

// A file whose audio starts there: the magic is one that the call takes, the limit, the header whole.
#[tactic(auto, unfolding(crate::specs::Admissions::admission_at))]
fn admit_at(file: &[u8], takes: bool, start: FilePlace) -> Result<Recording, Refusal>
    ensures says { result_says result ≡ demand takes 1 0 (admission_at file.now start.0) }
    ensures sound { IfOk result (Sound file.now) }
{
    if !takes {
        return Err(Refusal::Magic);
    }
    if LIMIT < file.len() {
        return Err(Refusal::Limit(LIMIT));
    }
    if file.len() < start.0 {
        return Err(Refusal::Header(start));
    }
    let blocks = blocks::whole_blocks(file.len(), start);
    Ok(Recording { start, blocks })
}

// Where the audio of a DSS file starts.
fn dss_audio_start(file: &[u8]) -> FilePlace
    ensures { result.0 ≡ 512 * get_or file.now 0 0 }
{
    FilePlace(BLOCK * usize::from(magic::first_byte(file)))
}

// For the crates above. Takes a file of the magics that a call reads, or refuses it by 1, 2 or 3.
#[tactic(auto, unfolding(crate::specs::Admissions::admission))]
pub fn admit(file: &[u8], dss: bool, ds2: bool) -> Result<Recording, Refusal>
    ensures says { result_says result ≡ admission file.now dss ds2 }
    ensures sound { IfOk result (Sound file.now) }
{
    match magic::magic_of(file) {
        Magic::Dss => admit_at(file, dss, dss_audio_start(file)),
        Magic::Ds2 => admit_at(file, ds2, detect::ds2::detect_ds2_audio_start(file)),
        Magic::Grundig => Err(Refusal::Magic),
        Magic::Other => Err(Refusal::Magic),
    }
}

impl Recording {
    // For the crates above. The type of a DS2 recording.
    pub fn format_type(self, file: &[u8]) -> u8
        ensures { result ≡ type_in file.now self }
    {
        detect::ds2::detect_ds2_format_type(file, self.start)
    }

    // For the crates above. How many frames the recording announces.
    pub fn announced(self, file: &[u8]) -> usize
        requires { Whole file.now self.start.0 self.blocks }
        ensures { (result ≡ announced_by file.now self) × (result ≤ 255 * self.blocks) }
    {
        blocks::announced(file, self.start, self.blocks)
    }

    // A DS2 recording, if its type is read as this kind.
    fn of_kind(self, file: &[u8], kind: Kind) -> Result<Self, Refusal>
        ensures says { result_says result ≡ of_kind file.now kind self }
        ensures same { IfOk result (λ recording. recording ≡ self) }
    {
        let byte = self.format_type(file);
        if detect::ds2::is_read_as(byte, kind) {
            return Ok(self);
        }
        Err(Refusal::OtherKind(byte))
    }
}

// For the crates above. Takes a DS2 file of one kind, or refuses it by 1, 2, 3 or 11.
#[tactic(auto, unfolding(crate::specs::Admissions::ds2_admission))]
pub fn admit_ds2(file: &[u8], kind: Kind) -> Result<Recording, Refusal>
    ensures says { result_says result ≡ ds2_admission file.now kind }
    ensures sound { IfOk result (Sound file.now) }
{
    admit(file, false, true)?.of_kind(file, kind)
}

// Where in the file the payload of a block stands, or why it cannot be shown.
#[tactic(auto, unfolding(crate::specs::Payload::payload_place))]
pub fn payload_place(file: &[u8], block: usize) -> Result<FilePlace, Refusal>
    ensures { payload_says result ≡ payload_place file.now block }
{
    let recording = admit(file, true, true)?;
    if recording.blocks <= block {
        return Err(Refusal::Absent);
    }
    Ok(blocks::in_file(recording.start, StreamPlace(PAYLOAD * block)))
}

// The payload of a block, as those 506 bytes of the file itself; an empty part where payload_place refuses.
#[tactic(auto, unfolding(crate::specs::Payload::payload_place, crate::specs::Payload::payload_shown))]
pub fn payload(file: &[u8], block: usize) -> &[u8]
    ensures { result.now ≡ payload_shown file.now block }
{
    match admit(file, true, true) {
        Ok(recording) if block < recording.blocks => {
            blocks::payload_part(file, recording.start, block)
        }
        _ => &file[..0],
    }
}
