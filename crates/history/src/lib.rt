//! Lists of calls in bytes, on the net freshly loaded from an image (docs/MACHINE.md, "Lists of calls"). What holds after every such list,
//! whoever makes the calls, is in specs/Chains.antt.
#![tactic(auto)]

mod answers;
mod calls;
mod lists;
mod writer;

pub use lists::run;
