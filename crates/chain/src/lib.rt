// Stream sets over the sheet of a book: list i has elements with the name of a pattern's node i.
#![tactic(auto)]

pub mod chain;
pub mod laws;
pub mod select;

pub use chain::{ChainSet, MarkedSet};
