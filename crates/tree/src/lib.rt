// The elements of a book, and what a lawful book is.
#![tactic(auto)]

pub mod element;
pub mod laws;
pub mod limits;

pub use element::Element;
