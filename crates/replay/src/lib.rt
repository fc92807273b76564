// Runs whole series of calls on searches.
#![tactic(auto)]

pub mod series;

pub use series::{Answer, Step, replay};
