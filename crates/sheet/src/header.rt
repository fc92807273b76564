// The header of a sheet.
ghost use Rattle.std.specs.Prelude.{◌≡◌, ◌≤◌, length};
ghost use Rattle.sheet.specs.Opening.{header_at};

use crate::read;

#[derive(Clone, Copy)]
pub(crate) struct Header {
    pub(crate) version: u32,
    // How many elements and names there are.
    pub(crate) elements: u32,
    pub(crate) names: u32,
    // Where the element records, the name records and the name bytes begin.
    pub(crate) element_table: u32,
    pub(crate) name_table: u32,
    pub(crate) texts: u32,
    // How many name bytes there are.
    pub(crate) name_bytes: u32,
    // The length of the sheet.
    pub(crate) total: u32,
}

impl Header {
    // From the first 32 bytes. Not of a `&[u8; 32]`, whose fields would have to be shown to be those of the whole sheet.
    pub(crate) fn read(bytes: &[u8]) -> Self
        requires { 32 ≤ length bytes.now }
        ensures { result ≡ header_at bytes.now }
    {
        Header {
            version: read::u32_at(bytes, 0),
            elements: read::u32_at(bytes, 4),
            names: read::u32_at(bytes, 8),
            element_table: read::u32_at(bytes, 12),
            name_table: read::u32_at(bytes, 16),
            texts: read::u32_at(bytes, 20),
            name_bytes: read::u32_at(bytes, 24),
            total: read::u32_at(bytes, 28),
        }
    }
}
