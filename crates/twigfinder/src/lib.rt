// The finder for programs in other languages. `include/twigfinder.h` declares these functions for C.
#![tactic(auto)]

pub mod answer;
mod exports;
mod pages;
