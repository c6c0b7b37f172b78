//! Position encodings, and the scan of lines that are not all ASCII.
ghost use Rattle.std.specs.Prelude.{◌≡◌};
ghost use Rattle.lam_text.specs.Units.{units_of, units_in, bytes_within};

/// The unit of `Position::character` (LSP 3.17, `PositionEncodingKind`).
#[derive(Clone, Copy, Debug, PartialEq, Eq)]
pub enum Encoding {
    /// Bytes of UTF-8: 1 to 4 per character.
    Utf8,
    /// Units of UTF-16: 1 per character, or 2 from U+10000 on.
    Utf16,
    /// Characters.
    Utf32,
}

/// The number of units in a character.
fn units_of(encoding: Encoding, c: char) -> u64
    ensures { result ≡ units_of encoding c }
{
    match encoding {
        Encoding::Utf8 => c.len_utf8() as u64,
        Encoding::Utf16 => c.len_utf16() as u64,
        Encoding::Utf32 => 1,
    }
}

/// The number of units in a text.
pub(crate) fn units_in(encoding: Encoding, text: &str) -> u64
    ensures { result ≡ units_in encoding text.now }
{
    let mut units = 0;
    for c in text.chars() {
        units += units_of(encoding, c);
    }
    units
}

/// The length in bytes of the longest prefix of a line that takes at most `room` units.
pub(crate) fn bytes_within(encoding: Encoding, room: u64, line: &str) -> usize
    ensures { result ≡ bytes_within encoding room line.now }
{
    let mut bytes = 0;
    let mut left = room;
    for c in line.chars() {
        let units = units_of(encoding, c);
        if left < units {
            return bytes;
        }
        left -= units;
        bytes += c.len_utf8();
    }
    bytes
}
