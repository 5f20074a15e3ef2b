// The audio start and the type of a DS2 file, for any bytes at all. Rests on blocks, for places and headers, and on magic, for
// the first byte.
ghost use Rattle.std.specs.Prelude.{◌≡◌, ◌-◌, min, drop};
ghost use Rattle.detect.specs.Header.{good_type, good_header};
ghost use Rattle.detect.specs.Start.{scanned, audio_start};
ghost use Rattle.detect.specs.Kinds.{format_type, kind_of, read_as};

use crate::Kind;
use blocks::{BLOCK, FilePlace, HEADER};

// Where the audio starts without a scan.
const DS2_HEADER_SIZE: usize = 0x600;

// Where the audio starts if the scan finds no good header.
const NONE_GOOD_START: usize = 0x1000;

#[tactic(auto, unfolding(crate::specs::Header::good_type))]
fn is_good_type(byte: u8) -> bool
    ensures { result ≡ good_type byte }
{
    byte < 4 || byte == 6 || byte == 7
}

// Whether a block's header can be that of DS2 audio.
#[tactic(auto, unfolding(crate::specs::Header::good_header))]
pub fn is_ds2_audio_block_header(header: &[u8]) -> bool
    ensures { result ≡ good_header header.now }
{
    HEADER <= header.len()
        && header[0] == 0x0F
        && header[3] == 0xFF
        && header[5] == 0xFF
        && 0 < header[2]
        && is_good_type(header[4])
}

// Whether a good header stands at a place of the file.
#[tactic(auto, unfolding(crate::specs::Header::good_header))]
fn is_good_at(file: &[u8], at: usize) -> bool
    ensures { result ≡ good_header (drop at file.now) }
{
    at <= file.len() && is_ds2_audio_block_header(&file[at..])
}

// How far the scan goes.
fn scan_end(long: usize) -> usize
    ensures { result ≡ min 0x10000 (long - 6) }
{
    long.saturating_sub(HEADER).min(0x10000)
}

// The scan stops at the first place with four good headers; else the best score wins. A rule of the project names its form:
// offsets and sixteen headers nested, left by a label, and the start yielded by break.
fn scan(file: &[u8]) -> usize
    ensures { result ≡ scanned file.now }
{
    let end = scan_end(file.len());
    let mut offset = BLOCK;
    let mut best = NONE_GOOD_START;
    let mut most: usize = 0;
    'scan: loop {
        if end < offset {
            break 'scan best;
        }
        let mut valid: usize = 0;
        while valid < 16 {
            if !is_good_at(file, offset + BLOCK * valid) {
                break;
            }
            valid += 1;
            if valid == 4 {
                break 'scan offset;
            }
        }
        if most < valid {
            most = valid;
            best = offset;
        }
        offset += BLOCK;
    }
}

// Where the audio of a DS2 file starts.
pub fn detect_ds2_audio_start(file: &[u8]) -> FilePlace
    ensures { result.0 ≡ audio_start file.now }
{
    if magic::first_byte(file) == 7 {
        return FilePlace(scan(file));
    }
    FilePlace(DS2_HEADER_SIZE)
}

// The type of a file whose audio starts at header_size: that of its first announcing block.
pub fn detect_ds2_format_type(file: &[u8], header_size: FilePlace) -> u8
    ensures { result ≡ format_type file.now header_size.0 }
{
    let blocks = blocks::whole_blocks(file.len(), header_size);
    for block in 0..blocks {
        if 0 < blocks::count_byte(file, header_size, block) {
            return blocks::header_byte(file, header_size, block, 4);
        }
    }
    0
}

// For the crates above. How a type is read.
#[tactic(auto, unfolding(crate::specs::Kinds::kind_of))]
pub fn kind_of(byte: u8) -> Kind
    ensures { result ≡ kind_of byte }
{
    match byte {
        0..=5 => Kind::Sp,
        7 => Kind::Qp7,
        _ => Kind::Qp,
    }
}

// For the crates above. Whether a type is read as this kind.
pub fn is_read_as(byte: u8, kind: Kind) -> bool
    ensures { result ≡ read_as byte kind }
{
    kind_of(byte) == kind
}
