// A search: it gathers the useful regions of a stream set into rows that it holds until it is closed, and pages their embeddings.
#![tactic(auto)]

pub mod laws;
pub mod search;
pub mod state;

pub use search::Search;
