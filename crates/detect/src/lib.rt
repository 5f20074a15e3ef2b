// Detection: what a file is by its magic and its type.
// Rests on blocks, for places and headers, on magic and on tables.
#![tactic(auto)]

ghost use Rattle.std.specs.Prelude.{◌≡◌};
ghost use Rattle.detect.specs.Kinds.{format_of};
ghost use Rattle.detect.specs.Format.{format_by, detected};

use magic::Magic;

// Where DS2's audio starts, and of what type it is.
pub mod ds2;

// Where the type stands if the audio starts at 0x600: a shorter file has no format.
const TYPE_PLACE: usize = 0x604;

// What a DS2 file's type says of its reading.
#[derive(Clone, Copy, Debug, PartialEq, Eq)]
pub enum Kind {
    Sp,
    Qp,
    Qp7,
}

// What detect_format reports.
#[derive(Clone, Copy, Debug, PartialEq, Eq)]
pub enum AudioFormat {
    None,
    DssSp,
    Ds2Sp,
    Ds2Qp,
    Ds2Qp7,
    GrundigSp,
}

// What a type is reported as.
#[tactic(auto, unfolding(crate::specs::Kinds::format_of))]
fn format_of(byte: u8) -> AudioFormat
    ensures { result ≡ format_of byte }
{
    match byte {
        7 => AudioFormat::Ds2Qp7,
        6 => AudioFormat::Ds2Qp,
        _ => AudioFormat::Ds2Sp,
    }
}

fn ds2_format(file: &[u8]) -> AudioFormat
    ensures { result ≡ format_by Magic.Ds2 file.now }
{
    if file.len() <= TYPE_PLACE {
        return AudioFormat::None;
    }
    let start = ds2::detect_ds2_audio_start(file);
    if file.len() <= start.0 + 4 {
        return AudioFormat::None;
    }
    format_of(ds2::detect_ds2_format_type(file, start))
}

// The format of a file, by its first bytes and, for DS2, its first announcing block.
#[tactic(auto, unfolding(crate::specs::Format::detected, crate::specs::Format::format_by))]
pub fn detect_format(file: &[u8]) -> AudioFormat
    ensures { result ≡ detected file.now }
{
    match magic::magic_of(file) {
        Magic::Dss => AudioFormat::DssSp,
        Magic::Ds2 => ds2_format(file),
        Magic::Grundig => AudioFormat::GrundigSp,
        Magic::Other => AudioFormat::None,
    }
}
