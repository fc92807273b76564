// Stream sets for tests: one over a book in memory, and one that counts the calls on another.
#![tactic(auto)]

pub mod counted;
pub mod listed;
pub mod member;

pub use counted::Counted;
pub use listed::Listed;
pub use member::Member;
