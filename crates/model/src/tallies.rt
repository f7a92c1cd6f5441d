//! How a call moves the totals.
ghost use Rattle.std.specs.Prelude.{◌≡◌};
ghost use Rattle.model.specs.Sets.{bit};
ghost use Rattle.model.specs.Machine.{saturating_add, adds_granted, adds_refused, adds_undone, tally_after};

use crate::{Call, Tally, Verdict};

// A total, and one more where the test holds.
fn raised(total: u32, test: bool) -> u32
    ensures { result ≡ saturating_add total (bit test) }
{
    total.saturating_add(u32::from(test))
}

fn adds_granted(call: Call, verdict: Verdict) -> bool
    ensures { result ≡ adds_granted call verdict }
{
    matches!(call, Call::Activate(_) | Call::Deactivate(_)) && verdict.is_granted()
}

fn adds_refused(call: Call, verdict: Verdict) -> bool
    ensures { result ≡ adds_refused call verdict }
{
    !matches!(call, Call::Settle) && !verdict.is_granted()
}

fn adds_undone(call: Call, verdict: Verdict) -> bool
    ensures { result ≡ adds_undone call verdict }
{
    matches!(call, Call::Undo) && verdict.is_granted()
}

impl Tally {
    /// Counts a call with this verdict.
    #[tactic(auto, unfolding(crate::specs::Machine::tally_after))]
    pub fn count(&mut self, call: Call, verdict: Verdict)
        ensures { self.new ≡ tally_after self.old call verdict }
    {
        self.granted = raised(self.granted, adds_granted(call, verdict));
        self.refused = raised(self.refused, adds_refused(call, verdict));
        self.undone = raised(self.undone, adds_undone(call, verdict));
    }
}
