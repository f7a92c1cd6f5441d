//! A composed net, its transitions by number, and the walk over them that finds the next to fire. The
//! rules stand in docs/MACHINE.md, "Transitions" and "Firing".
#![tactic(auto)]

mod marked;
mod net;
mod padding;
mod table;

pub use marked::Marked;
pub use net::Net;
pub use padding::padded;
pub use table::Table;
