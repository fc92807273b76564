// Reads numbers at their offsets among the bytes of a sheet: the two sizes of the format, by two methods of `byteorder`.
ghost use Rattle.std.specs.Prelude.{◌≡◌, ◌+◌, ◌≤◌, length};
ghost use Rattle.layout.specs.Layout.{u16_at, u32_at};

use byteorder::{ByteOrder, LittleEndian};

#[tactic(auto, using(crate::proofs::Words::u16_read))]
pub(crate) fn u16_at(bytes: &[u8], at: usize) -> u16
    requires { at + 2 ≤ length bytes.now }
    ensures { result ≡ u16_at bytes.now at }
{
    LittleEndian::read_u16(&bytes[at..])
}

#[tactic(auto, using(crate::proofs::Words::u32_read))]
pub(crate) fn u32_at(bytes: &[u8], at: usize) -> u32
    requires { at + 4 ≤ length bytes.now }
    ensures { result ≡ u32_at bytes.now at }
{
    LittleEndian::read_u32(&bytes[at..])
}
