//! Sets of numbers below 64, each held in a word: bit j is 1 where j is in the set.
#![tactic(auto)]

mod iterating;
mod set;

pub use iterating::Members;
pub use set::Set;
