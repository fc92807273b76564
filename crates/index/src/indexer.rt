// From a book text to its sheet.
ghost use Rattle.index.specs.Indexing.{Indexed};

use markup::Error;
use std::alloc::Global;

// Writes the sheet of a book text from byte 0 on, leaves the bytes behind it as they are, and answers its length. The refusals of the text
// come first, with their numbers and places; then `SheetWontFit` with the length needed. Neither a refusal nor want of memory writes anything.
pub fn index(heap: Global, text: &[u8], out: &mut [u8]) -> Result<usize, Error>
    ensures { Indexed text.now out.old out.new result }
{
    let book = book::read(heap, text)?;
    let len = sheet::encode(book.elements.as_slice(), book.names.as_slice(), out)?;
    Ok(len)
}
