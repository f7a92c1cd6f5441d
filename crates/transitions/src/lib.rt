//! The transitions of a net one by one, each as sets. The rules stand in docs/MACHINE.md,
//! "Transitions".
#![tactic(auto)]

ghost use Rattle.std.specs.Prelude.{◌≡◌};

mod counts;
mod own;
mod priority;
mod roles;
mod walk;

pub use counts::count;
pub use priority::Priority;
pub use roles::{act, deac, extra};
use sets::Set;
pub use walk::Transitions;

/// One transition: its priority, and its eight sets.
#[derive(Clone, Copy, Debug, Default, PartialEq, Eq)]
pub struct Arcs {
    pub priority: Priority,
    pub takes_context: Set,
    pub takes_pr: Set,
    pub takes_not: Set,
    pub gives_context: Set,
    pub gives_pr: Set,
    pub gives_not: Set,
    pub inhib_context: Set,
    pub inhib_pr: Set,
}

impl Arcs {
    ghost use Rattle.transitions.specs.Arcs.{unasked};

    /// Whether this is a forced transition: of all forms it alone takes from no temporary place.
    #[tactic(auto, unfolding(crate::specs::Arcs::unasked))]
    pub fn is_forced(self) -> bool
        ensures { result ≡ unasked self }
    {
        self.takes_pr.is_empty() && self.takes_not.is_empty()
    }
}
