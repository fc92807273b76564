// Twig patterns: the reader of a pattern text, the twig that it is read as, and the writer of its standard spelling.
// `docs/PATTERN.md` has the rules.
#![tactic(auto)]

mod cursor;
mod laws;
mod name;
mod node;
mod nodes;
mod questions;
mod reader;
mod reading;
mod speller;
mod summary;
mod twig;

pub use laws::{places, promises};
pub use node::{Edge, Mark};
pub use speller::LONGEST_SPELLING;
pub use twig::Twig;
