// The limits of a book, which its text and its sheet share.

pub const MOST_ELEMENTS: usize = 65_535;

pub const MOST_NAMES: usize = 1024;
// Levels are 0 to 63.
pub const MOST_LEVELS: usize = 64;
// The highest end of an element.
pub const LAST_END: u32 = 16_777_215;
