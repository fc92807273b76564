// Indexes book texts: from text to sheet.
#![tactic(auto)]

mod indexer;

pub use indexer::index;
