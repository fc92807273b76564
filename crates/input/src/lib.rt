// What programs read from standard input.
#![tactic(auto)]

pub mod bulk;

pub use bulk::read_up_to;
