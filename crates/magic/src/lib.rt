// The magic: what a file's first four bytes say. Detection and every whole call go by it.
// Rests on tables, for its proofs.
#![tactic(auto)]

ghost use Rattle.std.specs.Prelude.{◌≡◌, ◌≤◌, length, get_or};
ghost use Rattle.magic.specs.Magics.{spells, names_dss, dss_by, ds2_by, magic_of};

// What a file's first four bytes say.
#[derive(Clone, Copy, Debug, PartialEq, Eq)]
pub enum Magic {
    Dss,
    Ds2,
    Grundig,
    Other,
}

// For the crates above. The file's first byte, and 0 where it has none.
pub fn first_byte(file: &[u8]) -> u8
    ensures { result ≡ get_or file.now 0 0 }
{
    file.first().copied().unwrap_or(0)
}

// For the crates above too. Whether bytes 1 to 3 of the file are these.
#[tactic(auto, unfolding(crate::specs::Magics::spells))]
pub fn is_spelt(file: &[u8], x: u8, y: u8, z: u8) -> bool
    requires { 4 ≤ length file.now }
    ensures { result ≡ spells file.now x y z }
{
    file[1] == x && file[2] == y && file[3] == z
}

#[tactic(auto, unfolding(crate::specs::Magics::dss_by))]
fn dss_by(first: u8) -> Magic
    ensures { result ≡ dss_by first }
{
    match first {
        2 | 3 => Magic::Dss,
        6 => Magic::Grundig,
        _ => Magic::Other,
    }
}

#[tactic(auto, unfolding(crate::specs::Magics::ds2_by))]
fn ds2_by(first: u8) -> Magic
    ensures { result ≡ ds2_by first }
{
    match first {
        1 | 3 | 7 => Magic::Ds2,
        _ => Magic::Other,
    }
}

// For the crates above. Whether bytes 1 to 3 of the file are `dss`, whatever its first byte is.
pub fn names_dss(file: &[u8]) -> bool
    ensures { result ≡ names_dss file.now }
{
    4 <= file.len() && is_spelt(file, b'd', b's', b's')
}

// For the crates above. What the file's first four bytes say.
pub fn magic_of(file: &[u8]) -> Magic
    ensures { result ≡ magic_of file.now }
{
    if file.len() < 4 {
        return Magic::Other;
    }
    if is_spelt(file, b'd', b's', b's') {
        return dss_by(file[0]);
    }
    if is_spelt(file, b'd', b's', b'2') {
        return ds2_by(file[0]);
    }
    Magic::Other
}
