// For the host: a reader that is advanced where it stands, and the public calls under C names. Nothing is decided here: a call goes to
// one of the crates below and hands its numbers over. Rests on all of them. include/klovdrun.h says the same in C.
#![tactic(auto)]

ghost use Rattle.std.specs.Prelude.{◌≡◌, length};
ghost use Rattle.detect.specs.Header.{good_header};
ghost use Rattle.detect.specs.Start.{audio_start};
ghost use Rattle.detect.specs.Kinds.{format_type};
ghost use Rattle.detect.specs.Format.{detected};
ghost use Rattle.whole.specs.Payload.{payload_place};
ghost use Rattle.sp.specs.Readings.{dss_reading, ds2_reading};
ghost use Rattle.at_once.specs.Straight.{packet_reading};
ghost use Rattle.qp.specs.Segments.{qp_reading};
ghost use Rattle.qp7.specs.Walk.{qp7_reading};
ghost use Rattle.frames.specs.Frames.{frame_of};
ghost use Rattle.frames.specs.Fetch.{fetch_from, standing};
ghost use Rattle.tally.specs.Tallies.{tallied};
ghost use Rattle.index.specs.Reading.{contents_of, index_read};
ghost use Rattle.index.specs.Outcome.{totalled};
ghost use Rattle.finding.specs.Finding.{entry_found};
ghost use Rattle.finding.specs.Packet.{packet_found};
ghost use Rattle.reader.specs.State.{Reached};
ghost use Rattle.reader.specs.History.{PieceCall, EndCall};
ghost use Rattle.numbers.specs.Numbers.{format_number, truth_number, one_number, found_numbers, stand_numbers, tally_numbers, read_numbers, entry_numbers};
ghost use Rattle.klovdrun.specs.Version.{version};
ghost use Rattle.klovdrun.specs.Wrapped.{SpCarries, QpCarries, Qp7Carries, FillCarries, WriteCarries, BuildCarries, OpenCarries, Advances};

use blocks::{FilePlace, StreamPlace};
use numbers::{Answer, Entry, Tallied};
use reader::Reader;

// The version of the boundary.
const VERSION: u64 = 5;

// A fresh reader beside the answer.
#[repr(C)]
#[derive(Clone, Copy)]
pub struct Opened {
    pub answer: Answer,
    pub reader: Reader,
}

pub fn klov_version() -> u64
    ensures { result ≡ version }
{
    VERSION
}

pub fn klov_detect_format(file: &[u8]) -> u8
    ensures { result ≡ format_number (detected file.now) }
{
    numbers::of_format(detect::detect_format(file))
}

pub fn klov_detect_ds2_audio_start(file: &[u8]) -> usize
    ensures { result ≡ audio_start file.now }
{
    detect::ds2::detect_ds2_audio_start(file).0
}

pub fn klov_detect_ds2_format_type(file: &[u8], header_size: usize) -> u8
    ensures { result ≡ format_type file.now header_size }
{
    detect::ds2::detect_ds2_format_type(file, FilePlace(header_size))
}

pub fn klov_is_ds2_audio_block_header(header: &[u8]) -> u8
    ensures { result ≡ truth_number (good_header header.now) }
{
    numbers::of_truth(detect::ds2::is_ds2_audio_block_header(header))
}

// First: the file place of the block's 506 bytes.
pub fn klov_payload(file: &[u8], block: usize) -> Answer
    ensures { result ≡ one_number (payload_place file.now block) }
{
    Answer::from(whole::payload_place(file, block))
}

// First: packets.
pub fn klov_demux_dss(file: &[u8], out: &mut [u8], counts: &mut [u8]) -> Answer
    ensures { SpCarries (dss_reading file.now) out.old out.new counts.old counts.new result }
{
    Answer::from(sp::demux_dss(file, out, counts))
}

// First: packets.
pub fn klov_demux_ds2_sp(file: &[u8], out: &mut [u8], counts: &mut [u8]) -> Answer
    ensures { SpCarries (ds2_reading file.now) out.old out.new counts.old counts.new result }
{
    Answer::from(sp::demux_ds2(file, out, counts))
}

// First: 1, the packet of that number.
pub fn klov_ds2_sp_packet(file: &[u8], number: usize, out: &mut [u8], counts: &mut [u8]) -> Answer
    ensures { SpCarries (packet_reading file.now number) out.old out.new counts.old counts.new result }
{
    Answer::from(at_once::ds2_sp_packet(file, number, out, counts))
}

// First: segments. Second: frames announced.
pub fn klov_demux_ds2_qp(file: &[u8], table: &mut [u32]) -> Answer
    ensures { QpCarries (qp_reading file.now) table.old table.new result }
{
    Answer::from(qp::demux_ds2_qp(file, table))
}

// First: records. Second: segments.
pub fn klov_demux_ds2_qp7(file: &[u8], records: &mut [u32], segments: &mut [u32]) -> Answer
    ensures { Qp7Carries (qp7_reading file.now) records.old records.new segments.old segments.new result }
{
    Answer::from(qp7::demux_ds2_qp7(file, records, segments))
}

// Frame k of a segment that has so many bytes from a start on. First: its place in the payload stream. Second: its size, 0 when missing.
pub fn klov_frame(start: u64, length: u64, k: u64) -> Answer
    ensures { result ≡ found_numbers (frame_of start length k) }
{
    Answer::from(frames::frame(StreamPlace(start as usize), length as usize, k as usize))
}

// Fills the scratch where the frame crosses a block. First 0: the frame is the file's bytes from file place second on. First 1: it is the
// scratch's start.
pub fn klov_fetch(file: &[u8], stream_place: usize, size: usize, scratch: &mut [u8]) -> Answer
    ensures { FillCarries file.now stream_place size scratch.old scratch.new result }
{
    Answer::from(frames::fill(file, StreamPlace(stream_place), size, scratch))
}

// The same answer as klov_fetch's, with a scratch that is only read.
pub fn klov_show(file: &[u8], stream_place: usize, size: usize, scratch: &[u8]) -> Answer
    ensures { result ≡ stand_numbers (standing (fetch_from file.now stream_place size (length scratch.now)) stream_place size) }
{
    Answer::from(frames::frame_place(file, StreamPlace(stream_place), size, scratch.len()))
}

pub fn klov_tally(file: &[u8]) -> Tallied
    ensures { result ≡ tally_numbers (tallied file.now) }
{
    Tallied::from(tally::tally(file))
}

// A kind is a number here, and so is the choice of an end below: C hands over any.
pub fn klov_open(kind: u64) -> Opened
    ensures { OpenCarries kind result }
{
    let step = Reader::open(kind);
    Opened {
        answer: Answer::from(step.answer),
        reader: step.reader,
    }
}

// A piece, where the reader stands. First: packets. Second: frames owed afterwards, refused or not.
pub fn klov_piece(reader: &mut Reader, src: &[u8], out: &mut [u8], counts: &mut [u8]) -> Answer
    requires { Reached reader.old }
    ensures { Advances (PieceCall reader.old src.now out.old out.new counts.old counts.new) reader.new result }
{
    let answer = reader.push(src, out, counts);
    numbers::of_call(answer, reader)
}

// An end, where the reader stands, strict or lenient by the choice. First: packets. Second: frames owed afterwards, refused or not.
pub fn klov_end(reader: &mut Reader, choice: u64, out: &mut [u8], counts: &mut [u8]) -> Answer
    requires { Reached reader.old }
    ensures { Advances (EndCall reader.old choice out.old out.new counts.old counts.new) reader.new result }
{
    let answer = reader.finish(choice, out, counts);
    numbers::of_call(answer, reader)
}

// First: bytes of the file.
pub fn klov_write_ds2_sp(header: &[u8], packets: &[u8], out: &mut [u8]) -> Answer
    ensures { WriteCarries header.now packets.now out.old out.new result }
{
    Answer::from(writing::write_ds2_sp(header, packets, out))
}

// First: bytes of the index. Second: entries.
pub fn klov_build_index(file: &[u8], out: &mut [u8]) -> Answer
    ensures { BuildCarries (contents_of file.now) out.old out.new result }
{
    Answer::from(index::build_index(file, out))
}

// First: entries. Second: packets in all.
pub fn klov_read_index(file: &[u8], index: &[u8]) -> Answer
    ensures { result ≡ read_numbers (totalled (index_read file.now index.now)) }
{
    Answer::from(index::read_index(file, index))
}

pub fn klov_find_entry(file: &[u8], index: &[u8], packet: usize) -> Entry
    ensures { result ≡ entry_numbers (entry_found file.now index.now packet) }
{
    Entry::from(finding::find_entry(file, index, packet))
}

// First: 1, the packet of that number.
pub fn klov_dss_packet(
    file: &[u8],
    index: &[u8],
    packet: usize,
    out: &mut [u8],
    counts: &mut [u8],
) -> Answer
    ensures { SpCarries (packet_found file.now index.now packet) out.old out.new counts.old counts.new result }
{
    Answer::from(finding::dss_packet(file, index, packet, out, counts))
}
