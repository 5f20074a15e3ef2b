// The exports for C: each is the function of its name in klovdrun, with its contract, and does nothing else. Rests on klovdrun.
// Each stands twice since C calls an archive's and Rattle a library's, and takes and answers numbers since C does.
// include/klovdrun.h says the same in C.
#![tactic(auto)]

ghost use Rattle.std.specs.Prelude.{◌≡◌, length};
ghost use Rattle.detect.specs.Header.{good_header};
ghost use Rattle.detect.specs.Start.{audio_start};
ghost use Rattle.detect.specs.Kinds.{format_type};
ghost use Rattle.detect.specs.Format.{detected};
ghost use Rattle.whole.specs.Payload.{payload_place};
ghost use Rattle.sp.specs.Readings.{dss_reading, ds2_reading};
ghost use Rattle.at_once.specs.Straight.{packet_reading};
ghost use Rattle.qp.specs.Segments.{qp_reading};
ghost use Rattle.qp7.specs.Walk.{qp7_reading};
ghost use Rattle.frames.specs.Frames.{frame_of};
ghost use Rattle.frames.specs.Fetch.{fetch_from, standing};
ghost use Rattle.tally.specs.Tallies.{tallied};
ghost use Rattle.index.specs.Reading.{contents_of, index_read};
ghost use Rattle.index.specs.Outcome.{totalled};
ghost use Rattle.finding.specs.Finding.{entry_found};
ghost use Rattle.finding.specs.Packet.{packet_found};
ghost use Rattle.reader.specs.State.{Reached};
ghost use Rattle.reader.specs.History.{PieceCall, EndCall};
ghost use Rattle.numbers.specs.Numbers.{format_number, truth_number, one_number, found_numbers, stand_numbers, tally_numbers, read_numbers, entry_numbers};
ghost use Rattle.klovdrun.specs.Version.{version};
ghost use Rattle.klovdrun.specs.Wrapped.{SpCarries, QpCarries, Qp7Carries, FillCarries, WriteCarries, BuildCarries, OpenCarries, Advances};

use klovdrun::Opened;
use numbers::{Answer, Entry, Tallied};
use reader::Reader;

#[unsafe(no_mangle)]
pub extern "C" fn klov_version() -> u64
    ensures { result ≡ version }
{
    klovdrun::klov_version()
}

#[unsafe(no_mangle)]
pub extern "C" fn klov_detect_format(file: &[u8]) -> u8
    ensures { result ≡ format_number (detected file.now) }
{
    klovdrun::klov_detect_format(file)
}

#[unsafe(no_mangle)]
pub extern "C" fn klov_detect_ds2_audio_start(file: &[u8]) -> usize
    ensures { result ≡ audio_start file.now }
{
    klovdrun::klov_detect_ds2_audio_start(file)
}

#[unsafe(no_mangle)]
pub extern "C" fn klov_detect_ds2_format_type(file: &[u8], header_size: usize) -> u8
    ensures { result ≡ format_type file.now header_size }
{
    klovdrun::klov_detect_ds2_format_type(file, header_size)
}

#[unsafe(no_mangle)]
pub extern "C" fn klov_is_ds2_audio_block_header(header: &[u8]) -> u8
    ensures { result ≡ truth_number (good_header header.now) }
{
    klovdrun::klov_is_ds2_audio_block_header(header)
}

#[unsafe(no_mangle)]
pub extern "C" fn klov_payload(file: &[u8], block: usize) -> Answer
    ensures { result ≡ one_number (payload_place file.now block) }
{
    klovdrun::klov_payload(file, block)
}

#[unsafe(no_mangle)]
pub extern "C" fn klov_demux_dss(file: &[u8], out: &mut [u8], counts: &mut [u8]) -> Answer
    ensures { SpCarries (dss_reading file.now) out.old out.new counts.old counts.new result }
{
    klovdrun::klov_demux_dss(file, out, counts)
}

#[unsafe(no_mangle)]
pub extern "C" fn klov_demux_ds2_sp(file: &[u8], out: &mut [u8], counts: &mut [u8]) -> Answer
    ensures { SpCarries (ds2_reading file.now) out.old out.new counts.old counts.new result }
{
    klovdrun::klov_demux_ds2_sp(file, out, counts)
}

#[unsafe(no_mangle)]
pub extern "C" fn klov_ds2_sp_packet(
    file: &[u8],
    number: usize,
    out: &mut [u8],
    counts: &mut [u8],
) -> Answer
    ensures { SpCarries (packet_reading file.now number) out.old out.new counts.old counts.new result }
{
    klovdrun::klov_ds2_sp_packet(file, number, out, counts)
}

#[unsafe(no_mangle)]
pub extern "C" fn klov_demux_ds2_qp(file: &[u8], table: &mut [u32]) -> Answer
    ensures { QpCarries (qp_reading file.now) table.old table.new result }
{
    klovdrun::klov_demux_ds2_qp(file, table)
}

#[unsafe(no_mangle)]
pub extern "C" fn klov_demux_ds2_qp7(
    file: &[u8],
    records: &mut [u32],
    segments: &mut [u32],
) -> Answer
    ensures { Qp7Carries (qp7_reading file.now) records.old records.new segments.old segments.new result }
{
    klovdrun::klov_demux_ds2_qp7(file, records, segments)
}

#[unsafe(no_mangle)]
pub extern "C" fn klov_frame(start: u64, length: u64, k: u64) -> Answer
    ensures { result ≡ found_numbers (frame_of start length k) }
{
    klovdrun::klov_frame(start, length, k)
}

#[unsafe(no_mangle)]
pub extern "C" fn klov_fetch(
    file: &[u8],
    stream_place: usize,
    size: usize,
    scratch: &mut [u8],
) -> Answer
    ensures { FillCarries file.now stream_place size scratch.old scratch.new result }
{
    klovdrun::klov_fetch(file, stream_place, size, scratch)
}

#[unsafe(no_mangle)]
pub extern "C" fn klov_show(file: &[u8], stream_place: usize, size: usize, scratch: &[u8]) -> Answer
    ensures { result ≡ stand_numbers (standing (fetch_from file.now stream_place size (length scratch.now)) stream_place size) }
{
    klovdrun::klov_show(file, stream_place, size, scratch)
}

#[unsafe(no_mangle)]
pub extern "C" fn klov_tally(file: &[u8]) -> Tallied
    ensures { result ≡ tally_numbers (tallied file.now) }
{
    klovdrun::klov_tally(file)
}

#[unsafe(no_mangle)]
pub extern "C" fn klov_open(kind: u64) -> Opened
    ensures { OpenCarries kind result }
{
    klovdrun::klov_open(kind)
}

#[unsafe(no_mangle)]
pub extern "C" fn klov_piece(
    reader: &mut Reader,
    src: &[u8],
    out: &mut [u8],
    counts: &mut [u8],
) -> Answer
    requires { Reached reader.old }
    ensures { Advances (PieceCall reader.old src.now out.old out.new counts.old counts.new) reader.new result }
{
    klovdrun::klov_piece(reader, src, out, counts)
}

#[unsafe(no_mangle)]
pub extern "C" fn klov_end(
    reader: &mut Reader,
    choice: u64,
    out: &mut [u8],
    counts: &mut [u8],
) -> Answer
    requires { Reached reader.old }
    ensures { Advances (EndCall reader.old choice out.old out.new counts.old counts.new) reader.new result }
{
    klovdrun::klov_end(reader, choice, out, counts)
}

#[unsafe(no_mangle)]
pub extern "C" fn klov_write_ds2_sp(header: &[u8], packets: &[u8], out: &mut [u8]) -> Answer
    ensures { WriteCarries header.now packets.now out.old out.new result }
{
    klovdrun::klov_write_ds2_sp(header, packets, out)
}

#[unsafe(no_mangle)]
pub extern "C" fn klov_build_index(file: &[u8], out: &mut [u8]) -> Answer
    ensures { BuildCarries (contents_of file.now) out.old out.new result }
{
    klovdrun::klov_build_index(file, out)
}

#[unsafe(no_mangle)]
pub extern "C" fn klov_read_index(file: &[u8], index: &[u8]) -> Answer
    ensures { result ≡ read_numbers (totalled (index_read file.now index.now)) }
{
    klovdrun::klov_read_index(file, index)
}

#[unsafe(no_mangle)]
pub extern "C" fn klov_find_entry(file: &[u8], index: &[u8], packet: usize) -> Entry
    ensures { result ≡ entry_numbers (entry_found file.now index.now packet) }
{
    klovdrun::klov_find_entry(file, index, packet)
}

#[unsafe(no_mangle)]
pub extern "C" fn klov_dss_packet(
    file: &[u8],
    index: &[u8],
    packet: usize,
    out: &mut [u8],
    counts: &mut [u8],
) -> Answer
    ensures { SpCarries (packet_found file.now index.now packet) out.old out.new counts.old counts.new result }
{
    klovdrun::klov_dss_packet(file, index, packet, out, counts)
}
