// Reads the records of a sheet.
ghost use Rattle.std.specs.Prelude.{◌≡◌, ◌+◌, ◌<◌, ◌≤◌};
ghost use Rattle.layout.specs.Layout.{element_offset, element_count, element_at, next_at, name_count, byte_count, name_offset, bytes_offset, name_at, name_text};
ghost use Rattle.sheet.specs.Opening.{Sized};

use crate::header::Header;
use crate::read;
use layout::NameRecord;
use tree::Element;

// Where the record of element k begins.
pub(crate) fn element_offset(k: u32) -> usize
    ensures { result ≡ element_offset k }
{
    32 + 16 * k as usize
}

// The bytes of a sheet whose header is right and tells their length. Numbers of records have to be below their count, as an
// index of a slice has: a type for such numbers would be made anew for each. No model as bytes: a view has none, and the crates
// above cite its field.
#[derive(Clone, Copy)]
pub(crate) struct Records<'b> {
    pub(crate) bytes: &'b [u8],
    ghost sized: { ∥ Sized bytes.now ∥₁ },
}

impl<'b> Records<'b> {
    ghost use Rattle.sheet.specs.Opening.{header_at};

    fn header(&self) -> Header
        ensures { result ≡ header_at self.now.bytes.now }
    {
        Header::read(self.bytes)
    }

    pub(crate) fn element_count(&self) -> u32
        ensures { result ≡ element_count self.now.bytes.now }
    {
        self.header().elements
    }

    pub(crate) fn name_count(&self) -> u32
        ensures { result ≡ name_count self.now.bytes.now }
    {
        self.header().names
    }

    // How many name bytes there are.
    pub(crate) fn byte_count(&self) -> u32
        ensures { result ≡ byte_count self.now.bytes.now }
    {
        self.header().name_bytes
    }

    // Where the name bytes begin.
    pub(crate) fn bytes_offset(&self) -> usize
        ensures { result ≡ bytes_offset self.now.bytes.now }
    {
        self.header().texts as usize
    }

    // Where name record j begins.
    pub(crate) fn name_offset(&self, j: u32) -> usize
        ensures { result ≡ name_offset self.now.bytes.now j }
    {
        self.header().name_table as usize + 12 * j as usize
    }

    // Element k.
    pub(crate) fn element(&self, k: u32) -> Element
        requires { k < element_count self.now.bytes.now }
        ensures { result ≡ element_at self.now.bytes.now k }
    {
        let at = element_offset(k);
        Element {
            start: read::u32_at(self.bytes, at),
            end: read::u32_at(self.bytes, at + 4),
            level: read::u16_at(self.bytes, at + 8),
            name: read::u16_at(self.bytes, at + 10),
        }
    }

    // What the record of element k has as its next element of the same name.
    pub(crate) fn next(&self, k: u32) -> u32
        requires { k < element_count self.now.bytes.now }
        ensures { result ≡ next_at self.now.bytes.now k }
    {
        read::u32_at(self.bytes, element_offset(k) + 12)
    }

    // Name record j.
    pub(crate) fn name(&self, j: u32) -> NameRecord
        requires { j < name_count self.now.bytes.now }
        ensures { result ≡ name_at self.now.bytes.now j }
    {
        let at = self.name_offset(j);
        NameRecord {
            offset: read::u32_at(self.bytes, at),
            length: read::u32_at(self.bytes, at + 4),
            first: read::u32_at(self.bytes, at + 8),
        }
    }

    // The bytes of name j.
    pub(crate) fn text(&self, j: u32) -> &'b [u8]
        requires within { j < name_count self.now.bytes.now }
        requires fits { (name_at self.now.bytes.now j).offset + (name_at self.now.bytes.now j).length ≤ byte_count self.now.bytes.now }
        ensures { result.now ≡ name_text self.now.bytes.now j }
    {
        let name = self.name(j);
        let from = self.bytes_offset() + name.offset as usize;
        &self.bytes[from..from + name.length as usize]
    }
}
