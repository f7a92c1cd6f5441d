//! The engine: a net with its counts, its open list and its totals. How it is read as the machine's state is in specs/View.antt.
#![tactic(auto)]

mod engine;
mod open_list;
mod snapshot;

pub use engine::Engine;
pub use open_list::{Entry, OpenList};
pub use snapshot::Snapshot;
