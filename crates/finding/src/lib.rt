// Finds the embeddings of a pattern in a book text, and writes their lines.
#![tactic(auto)]

mod ending;
pub mod input;
mod lines;
mod pages;
pub mod promises;

pub use lines::find;
