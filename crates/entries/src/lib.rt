// What an index has of a DSS recording: an entry for each announcing block, its twelve bytes, and whether they stand in an index. Every public
// function here is for the crates above. Rests on sp, for a block's run, on whole, blocks and tables.
#![tactic(auto)]

ghost use Rattle.std.specs.Prelude.{◌≡◌, ◌+◌, ◌%◌, ◌≤◌, ◌<◌, ◌^◌, length, take, drop};
ghost use Rattle.blocks.specs.Places.{Whole};
ghost use Rattle.blocks.specs.Headers.{announced_in};
ghost use Rattle.whole.specs.Admissions.{Sound, announced_by};
ghost use Rattle.entries.specs.Words.{word32, word_at};
ghost use Rattle.entries.specs.Entries.{entry_of, entries_by};
ghost use Rattle.entries.specs.Index.{entry_bytes, entries_bytes};
ghost use Rattle.entries.specs.Held.{same, first_wrong};
ghost use Rattle.entries.specs.Inner.{Lays, entry_at, entry_place, Fits};

use blocks::{FilePlace, StreamPlace};
use whole::Recording;

// The bytes of an entry.
pub const ENTRY: usize = 12;

// An entry: the number of an announcing block, the number of its first packet, and where its reads start in the payload stream.
#[derive(Clone, Copy, Debug, PartialEq, Eq)]
pub struct Entry {
    pub number: usize,
    pub first: usize,
    pub place: StreamPlace,
}

// How many entries an index has, and how many packets its recording.
#[derive(Clone, Copy)]
pub struct Totals {
    pub entries: usize,
    pub packets: usize,
}

// Puts the four bytes of a number at a place.
pub fn put_word(out: &mut [u8], at: usize, n: usize)
    requires { at + 4 ≤ length out.old }
    ensures { Lays out.old at (word32 n) out.new }
{
    let word = (n % 4_294_967_296) as u32;
    tables::copy(out, at, &word.to_be_bytes(), 0, 4);
}

// The number whose four bytes stand at a place.
pub fn word_at(index: &[u8], at: usize) -> usize
    requires { at + 4 ≤ length index.now }
    ensures { (result ≡ word_at index.now at) × (result < 2 ^ 32) }
{
    u32::from_be_bytes([index[at], index[at + 1], index[at + 2], index[at + 3]]) as usize
}

// Puts the bytes of an entry at a place.
pub fn put_entry(out: &mut [u8], at: usize, entry: Entry)
    requires { at + 12 ≤ length out.old }
    ensures { Lays out.old at (entry_bytes entry) out.new }
{
    put_word(out, at, entry.number);
    put_word(out, at + 4, entry.first);
    put_word(out, at + 8, entry.place.0);
}

// The entry whose bytes stand at a place.
pub fn entry_at(index: &[u8], at: usize) -> Entry
    requires { at + 12 ≤ length index.now }
    ensures { result ≡ entry_at index.now at }
{
    Entry {
        number: word_at(index, at),
        first: word_at(index, at + 4),
        place: StreamPlace(word_at(index, at + 8)),
    }
}

// Whether the bytes of an entry stand at a place.
pub fn stands(entry: Entry, index: &[u8], at: usize) -> bool
    requires { Fits entry × (at ≤ 2 ^ 48) }
    ensures { result ≡ same (take 12 (drop at index.now)) (entry_bytes entry) }
{
    at + ENTRY <= index.len() && entry_at(index, at) == entry
}

// The entry of a block, before which so many packets are announced.
fn entry_of(file: &[u8], a: FilePlace, block: usize, first: usize) -> Entry
    requires there { Whole file.now a.0 (block + 1) × (block ≤ 2 ^ 32) }
    requires first { first ≡ announced_in file.now a.0 block }
    ensures { result ≡ entry_of file.now a.0 block }
{
    Entry {
        number: block,
        first,
        place: sp::dss_run(file, a, block).start,
    }
}

// How many entries the index of a recording has, and how many packets the recording.
pub fn add_up(file: &[u8], recording: Recording) -> Totals
    requires { Sound file.now recording }
    ensures entries { (result.entries ≡ length (entries_by file.now recording)) × (result.entries ≤ 2 ^ 20) }
    ensures packets { result.packets ≡ announced_by file.now recording }
{
    let mut entries: usize = 0;
    let mut packets: usize = 0;
    for block in 0..recording.blocks {
        let count = blocks::count_byte(file, recording.start, block);
        entries += count.min(1);
        packets += count;
    }
    Totals { entries, packets }
}

// Puts the entries of a recording from a place on.
pub fn put_entries(file: &[u8], recording: Recording, out: &mut [u8], front: usize)
    requires sound { Sound file.now recording }
    requires room { entry_place front (length (entries_by file.now recording)) ≤ length out.old }
    ensures { Lays out.old front (entries_bytes (entries_by file.now recording)) out.new }
{
    let mut at = front;
    let mut first: usize = 0;
    for block in 0..recording.blocks {
        let count = blocks::count_byte(file, recording.start, block);
        if count == 0 {
            continue;
        }
        put_entry(out, at, entry_of(file, recording.start, block, first));
        at += ENTRY;
        first += count;
    }
}

// The first entry of a recording that does not stand in an index, whose entries begin at a place; or, where all do, how many there are.
pub fn first_wrong(file: &[u8], recording: Recording, index: &[u8], front: usize) -> usize
    requires { Sound file.now recording × (front ≤ 2 ^ 32) }
    ensures { result ≡ first_wrong (entries_by file.now recording) (drop front index.now) }
{
    let mut number: usize = 0;
    let mut first: usize = 0;
    for block in 0..recording.blocks {
        let count = blocks::count_byte(file, recording.start, block);
        if count == 0 {
            continue;
        }
        let entry = entry_of(file, recording.start, block, first);
        if !stands(entry, index, front + ENTRY * number) {
            return number;
        }
        number += 1;
        first += count;
    }
    number
}
