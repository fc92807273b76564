// What a book text is read into.
use tree::Element;

// The elements of a book by their starts, and its names by first use, as parts of the text. An element's name is a number among the names.
#[derive(Drop)]
pub struct Book<'t> {
    pub elements: Vec<Element>,
    pub names: Vec<&'t [u8]>,
}
