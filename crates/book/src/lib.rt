// The reader of book texts: from text to its elements and names, or to the first refusal.
#![tactic(auto)]

pub mod book;
pub mod promises;
pub mod reader;

pub use book::Book;
pub use reader::read;
