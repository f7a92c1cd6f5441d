//! The marked places of a net, and the tests of a transition by them.
ghost use Rattle.std.specs.Prelude.{◌≡◌};

use crate::table::Row;
use sets::Set;

/// The marked places of a net, those that hold a token: for each kind of place the set of its
/// contexts.
#[derive(Clone, Copy, Debug, PartialEq, Eq)]
pub struct Marked {
    pub context: Set,
    pub pr: Set,
    pub pr_not: Set,
}

impl Marked {
    ghost use Rattle.model.specs.Sets.{number};
    ghost use Rattle.net.specs.Tables.{arcs_in};
    ghost use Rattle.net.specs.Walks.{movable, passes_first, passes_last, passes};

    /// The contexts whose own transitions may be ready: act(c) takes a token from Pr(c) and needs
    /// room at c, deac(c) takes one from Pr(¬c) and one from c.
    #[tactic(auto, using(sets::proofs::Laws::joined_holds), unfolding(crate::specs::Walks::movable))]
    pub(crate) fn movable(&self, spare: Set) -> Set
        ensures { result ≡ number 64 (movable self.now spare) }
    {
        let rising = self.pr.intersection(spare);
        let falling = self.pr_not.intersection(self.context);
        rising.union(falling)
    }

    /// Whether none of the inhibiting contexts of a transition is marked, and the contexts and the
    /// Pr(¬c) that it takes are.
    #[tactic(auto, unfolding(crate::specs::Walks::passes_first))]
    fn passes_first(&self, row: &Row<'_>) -> bool
        ensures { result ≡ passes_first (arcs_in row.now) self.now }
    {
        row.inhib_context().is_disjoint(self.context)
            & row.takes_context().is_subset(self.context)
            & row.takes_not().is_subset(self.pr_not)
    }

    /// Whether the Pr(c) that it takes are marked, none of its inhibiting ones is, and the contexts
    /// that it gives without taking them are below their capacity.
    fn passes_last(&self, row: &Row<'_>, spare: Set) -> bool
        ensures { result ≡ passes_last (arcs_in row.now) self.now spare }
    {
        let gained = row.gives_context().difference(row.takes_context());
        row.takes_pr().is_subset(self.pr)
            & row.inhib_pr().is_disjoint(self.pr)
            & gained.is_subset(spare)
    }

    /// Whether a transition is ready, where `spare` holds the contexts below their capacity: the
    /// tests that fail most often come first.
    #[tactic(auto, unfolding(crate::specs::Walks::passes))]
    pub(crate) fn passes(&self, row: &Row<'_>, spare: Set) -> bool
        ensures { result ≡ passes (arcs_in row.now) self.now spare }
    {
        self.passes_first(row) && self.passes_last(row, spare)
    }
}
