// The classes of bytes in a book text, beside those of names.
ghost use Rattle.lexer.specs.Bytes.{text_byte, blank_byte};

use markup::scan::Class;

// What a text run holds: all bytes but `<`.
pub struct TextBytes;

impl Class for TextBytes {
    ghost member = { text_byte };

    fn has(b: u8) -> bool {
        b != b'<'
    }
}

// What stands outside the top element: space, tab, CR and LF.
pub struct Blanks;

impl Class for Blanks {
    ghost member = { blank_byte };

    fn has(b: u8) -> bool {
        matches!(b, b' ' | b'\t' | b'\r' | b'\n')
    }
}
