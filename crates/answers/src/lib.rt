// What a search's answers are in the tree of a text.
#![tactic(auto)]

pub mod laws;
