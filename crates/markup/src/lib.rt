// What all texts and formats share: the refusals with their places, and the rule of names.
#![tactic(auto)]

pub mod fault;
pub mod name;
pub mod scan;

pub use fault::{Error, Fault, Refusal};
