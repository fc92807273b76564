// The rule of names.
ghost use Rattle.std.specs.Prelude.{◌≡◌, Decides};
ghost use Rattle.markup.specs.Name.{name_first, name_byte, LawfulName};

use crate::scan;
use crate::scan::NameBytes;

// The most bytes that a name has.
pub const MOST_BYTES: usize = 32;

// Whether a name may begin with this byte: a letter A–Z, a–z or `_`.
pub fn starts_name(b: u8) -> bool
    ensures { result ≡ name_first b }
{
    matches!(b, b'A'..=b'Z' | b'a'..=b'z' | b'_')
}

// Whether this byte may stand in a name: also digits, `-` and `.`.
pub fn in_name(b: u8) -> bool
    ensures { result ≡ name_byte b }
{
    matches!(b, b'A'..=b'Z' | b'a'..=b'z' | b'_' | b'0'..=b'9' | b'-' | b'.')
}

// Whether these bytes are a lawful name.
pub fn is_name(bytes: &[u8]) -> bool
    ensures { Decides result (LawfulName bytes.now) }
{
    if bytes.is_empty() || bytes.len() > MOST_BYTES {
        return false;
    }
    starts_name(bytes[0]) && scan::run::<NameBytes>(bytes) == bytes.len()
}
