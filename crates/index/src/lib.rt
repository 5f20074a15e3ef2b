// The index beside a DSS recording: built from its file, and read back with the file lent, which holds all of it to the recording.
// Rests on entries, for what an index has of a recording, on whole, which says whether the file is taken, and on refusals.
#![tactic(auto)]

ghost use Rattle.std.specs.Prelude.{◌≡◌, ◌≤◌, ◌^◌, length};
ghost use Rattle.refusals.specs.Said.{answers, result_says};
ghost use Rattle.whole.specs.Admissions.{Sound};
ghost use Rattle.entries.specs.Entries.{contents_in};
ghost use Rattle.entries.specs.Index.{front_bytes, edition1};
ghost use Rattle.entries.specs.Inner.{Lays};
ghost use Rattle.index.specs.Reading.{contents_of, framed, read_beside, index_read};
ghost use Rattle.index.specs.Outcome.{totalled, Builds};

use entries::{ENTRY, Totals};
use refusals::Refusal;
use whole::Recording;

// The bytes of an index before its entries: its length, and its version.
pub const FRONT: usize = 5;

const VERSION: u8 = 1;

// How many bytes an index has, and how many entries.
#[derive(Clone, Copy)]
pub struct Size {
    pub bytes: usize,
    pub entries: usize,
}

// Puts what stands before so many entries: the length of all that follows it, and the version.
fn put_front(out: &mut [u8], entries: usize)
    requires { (entries ≤ 2 ^ 20) × (5 ≤ length out.old) }
    ensures { Lays out.old 0 (front_bytes edition1 entries) out.new }
{
    entries::put_word(out, 0, 1 + ENTRY * entries);
    out[4] = VERSION;
}

// Builds the index of a recording, if there is room for it.
fn build(file: &[u8], recording: Recording, out: &mut [u8]) -> Result<Size, Refusal>
    requires { Sound file.now recording }
    ensures { Builds (answers (contents_in file.now recording)) out.old out.new result }
{
    let entries = entries::add_up(file, recording).entries;
    let bytes = FRONT + ENTRY * entries;
    if out.len() < bytes {
        return Err(Refusal::Room(bytes));
    }
    put_front(out, entries);
    entries::put_entries(file, recording, out, FRONT);
    Ok(Size { bytes, entries })
}

// The index of a DSS file, over the front of the output, or a refusal that changes nothing.
#[tactic(auto, unfolding(crate::specs::Reading::contents_of, crate::specs::Outcome::in_room))]
pub fn build_index(file: &[u8], out: &mut [u8]) -> Result<Size, Refusal>
    ensures { Builds (contents_of file.now) out.old out.new result }
{
    let recording = whole::admit(file, true, false)?;
    build(file, recording, out)
}

// Whether an index begins with a length, above 0, that is the number of bytes that follow it. Under four bytes there is none to read.
fn is_framed(index: &[u8]) -> bool
    ensures { result ≡ framed index.now }
{
    if index.len() < 4 {
        return false;
    }
    let follow = entries::word_at(index, 0);
    0 < follow && follow == index.len() - 4
}

// For the crates above too. Holds an index to a recording.
pub fn hold(file: &[u8], recording: Recording, index: &[u8]) -> Result<Totals, Refusal>
    requires { Sound file.now recording }
    ensures { result_says result ≡ totalled (read_beside file.now recording index.now) }
{
    if !is_framed(index) {
        return Err(Refusal::Index);
    }
    let version = index[4];
    if version != VERSION {
        return Err(Refusal::IndexVersion(version));
    }
    let totals = entries::add_up(file, recording);
    let wrong = entries::first_wrong(file, recording, index, FRONT);
    if wrong < totals.entries {
        return Err(Refusal::IndexEntry(wrong));
    }
    if index.len() != FRONT + ENTRY * totals.entries {
        return Err(Refusal::IndexEntry(wrong));
    }
    Ok(totals)
}

// Reads an index with its DSS file lent: how many entries and packets there are, or why it is not the file's.
#[tactic(auto, unfolding(crate::specs::Reading::index_read))]
pub fn read_index(file: &[u8], index: &[u8]) -> Result<Totals, Refusal>
    ensures { result_says result ≡ totalled (index_read file.now index.now) }
{
    let recording = whole::admit(file, true, false)?;
    hold(file, recording, index)
}
