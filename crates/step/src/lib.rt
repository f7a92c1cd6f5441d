//! The step of a request: the tokens on the places of a net, how a firing moves them, and the
//! firings up to the end of the step.
#![tactic(auto)]

mod beginning;
mod places;

pub use beginning::below_capacity;
pub use places::{PlaceKind, Places, Stepped};
