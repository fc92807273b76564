// The format of a sheet, the binary index of a book: where each number stands, which bytes are a lawful sheet, and the
// bytes that a tree is written as. Here are the definitions and their laws; `sheet` has the code that writes and reads them.
#![tactic(auto)]

pub mod laws;
pub mod limits;
pub mod record;

pub use limits::LONGEST_SHEET;
pub use record::NameRecord;
