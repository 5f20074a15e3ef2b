// What was tried of the files, and lines that say it. Rests on the rest of this crate and on test_tools.
use crate::Made;
use std::io;
use test_tools::{Cuts, say};

// What was tried: files, cuts, packets by pieces, frames and records; refused pieces (by 7) and refused files; and disagreements.
#[derive(Clone, Copy, Default)]
pub struct Tried {
    files: usize,
    cuts: usize,
    packets: usize,
    entries: usize,
    sevens: usize,
    refused: usize,
    wrong: usize,
}

// The line at the end.
pub fn conclude(rt: &impl Print, tried: Tried) -> io::Result<()> {
    say(rt, b"files ", tried.files as u64)?;
    say(rt, b", cuts ", tried.cuts as u64)?;
    say(rt, b", packets in pieces ", tried.packets as u64)?;
    say(rt, b", frames and records ", tried.entries as u64)?;
    say(rt, b", refused pieces ", tried.sevens as u64)?;
    say(rt, b", refused files ", tried.refused as u64)?;
    say(rt, b", wrong ", tried.wrong as u64)?;
    rt.write_all(b"\n")
}

// A file more, of which so much is handed out, if it is not refused.
pub fn with_file(tried: Tried, made: Made, out: u64, refusal: u64, wrong: usize) -> Tried {
    let entries = if crate::is_sp(made) { 0 } else { out };
    Tried {
        files: tried.files.wrapping_add(1),
        entries: tried.entries.wrapping_add(entries as usize),
        refused: tried.refused.wrapping_add(usize::from(refusal != 0)),
        wrong: tried.wrong.wrapping_add(wrong),
        ..tried
    }
}

// A cut more, which brought so many packets before the end, if it is not refused.
pub fn with_cut(tried: Tried, packets: u64, refusal: u64, wrong: usize) -> Tried {
    Tried {
        cuts: tried.cuts.wrapping_add(1),
        packets: tried.packets.wrapping_add(packets as usize),
        sevens: tried.sevens.wrapping_add(usize::from(refusal != 0)),
        wrong: tried.wrong.wrapping_add(wrong),
        ..tried
    }
}

// A line that says how the file of the lines before was cut.
pub fn show_cuts(rt: &impl Print, number: u64, cuts: Cuts) -> io::Result<()> {
    say(rt, b"that was file ", number)?;
    say(rt, b", cut at ", cuts.first as u64)?;
    say(rt, b" and ", cuts.second as u64)?;
    say(rt, b", step ", cuts.step as u64)?;
    rt.write_all(b"\n")
}
