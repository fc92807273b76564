// An element of a book.

// The region that an element takes up in its text, its level, and the number of its name among the book's names.
#[derive(Clone, Copy, Debug, PartialEq, Eq)]
pub struct Element {
    // The byte offset of the `<` of its start or empty tag.
    pub start: u32,
    // The byte offset of the `<` of its end tag, or of the `/` of its empty tag.
    pub end: u32,
    // How many elements are around it.
    pub level: u16,
    pub name: u16,
}
