//! bench-run: each line of an input is answered by the machine, or by `?` where it is no call.
#![tactic(auto)]

mod line;
mod talking;
mod text;

pub use line::Line;
pub use talking::{Stop, talk};
