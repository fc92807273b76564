// Cuts a book text into its items: start, end and empty tags, and text runs.
//
// The lexer looks at one item at a time, so it takes `</b><a>` without a word: which tags may follow which is for the reader above it.
#![tactic(auto)]

pub mod class;
pub mod exact;
pub mod lexer;
pub mod token;
pub mod whole;

pub use lexer::Lexer;
pub use token::{Part, Tag, Token};
