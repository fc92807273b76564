// Stream sets: for each node of a pattern a list of regions of one book, taken from the front; and the layers that narrow them.
#![tactic(auto)]

pub mod layer;
pub mod region;
pub mod rule;
pub mod set;
pub mod walk;

pub use region::Region;
pub use rule::{Band, LevelRange, Levels, Span, Window};
pub use set::{POSITIONS, SkippingSet, StreamSet};
