// Writes the records of a sheet, each into its own bytes.
ghost use Rattle.std.specs.Prelude.{◌≡◌, length};
ghost use Rattle.layout.specs.Encoding.{element_bytes, name_bytes};

use byteorder::{ByteOrder, LittleEndian};
use layout::NameRecord;
use tree::Element;

// The record of an element.
#[tactic(auto, unfolding(layout::specs::Encoding::le16, layout::specs::Encoding::le32))]
pub(crate) fn put_element(out: &mut [u8], e: Element, next: u32)
    requires { length out.old ≡ 16 }
    ensures { out.new ≡ element_bytes e next }
{
    LittleEndian::write_u32(out, e.start);
    LittleEndian::write_u32(&mut out[4..], e.end);
    LittleEndian::write_u16(&mut out[8..], e.level);
    LittleEndian::write_u16(&mut out[10..], e.name);
    LittleEndian::write_u32(&mut out[12..], next);
}

// The record of a name.
#[tactic(auto, unfolding(layout::specs::Encoding::le32))]
pub(crate) fn put_name(out: &mut [u8], name: NameRecord)
    requires { length out.old ≡ 12 }
    ensures { out.new ≡ name_bytes name.offset name.length name.first }
{
    LittleEndian::write_u32_into(&[name.offset, name.length, name.first], out);
}
