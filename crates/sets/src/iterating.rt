//! The members of a set as an iterator.
ghost use Rattle.std.specs.Prelude.{◌≡◌};

use crate::Set;
use std::marker::Model;

/// The members of a set that are still to come, in rising order.
#[derive(Clone, Copy, Debug, PartialEq, Eq)]
pub struct Members {
    left: Set,
}

// Clauses see the set of the members that are left, as a set is seen.
impl Model for Members {
    ghost use Rattle.std.specs.Prelude.{ℕ};

    ghost Value = { ℕ };

    ghost view = { λ m. m.left };

    ghost inverse = { λ m. record { left = m } };
}

impl Members {
    /// All members of a set.
    pub(crate) fn of(set: Set) -> Self
        ensures { result ≡ set }
    {
        Members { left: set }
    }
}

impl Iterator for Members {
    ghost use Rattle.std.specs.Iterator.{at_most};
    ghost use Rattle.std.specs.List.{count_by};
    ghost use Rattle.model.specs.Sets.{range};
    ghost use Rattle.sets.specs.Sets.{members};
    ghost use Rattle.sets.specs.Members.{GivesNext};

    type Item = usize;

    ghost next_gives = { GivesNext };

    ghost remaining = { λ left. at_most (count_by (members left) (range 0 64)) };

    fn next(&mut self) -> Option<usize> {
        let c = self.left.first()?;
        self.left.remove(c);
        Some(c)
    }
}
