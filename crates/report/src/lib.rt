// The lines that the programs print.
#![tactic(auto)]

pub mod line;
pub mod outline;
