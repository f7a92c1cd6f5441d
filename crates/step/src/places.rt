//! The tokens on the places of a net, and the sets that a step goes by: which places are marked, and
//! which contexts stand below their capacity. A firing moves the tokens, and renews the sets at the
//! places that change.
ghost use Rattle.std.specs.Prelude.{ℕ, ◌≡◌, ◌≤◌, cond, get_or};
ghost use Rattle.net.specs.Markings.{marking, Shows};
ghost use Rattle.step.specs.Spare.{spare_word};
ghost use Rattle.step.specs.declared.places.PlaceKind.TheVariants.{Pr, PrNot};

use crate::beginning;
use model::Request;
use net::{Marked, Net};
use sets::Set;
use transitions::Arcs;

/// The three kinds of places: those of the contexts, the Pr(c), and the Pr(¬c).
#[derive(Clone, Copy, Debug, PartialEq, Eq)]
pub enum PlaceKind {
    Context,
    Pr,
    PrNot,
}

/// So many firings a step makes at most.
const STEP_LIMIT: usize = 4096;

/// How a step ends: the firings made, how many of them were forced, and whether it is quiet, with no transition enabled.
#[derive(Clone, Copy, Debug, PartialEq, Eq)]
pub struct Stepped {
    pub firings: usize,
    pub forced: usize,
    pub quiet: bool,
}

/// The tokens on the places of a net: the counts of its contexts, with their capacities, and the tokens on its temporary places.
#[derive(Clone, Copy, Debug)]
pub struct Places {
    contexts: usize,
    capacities: [u8; 48],
    counts: [u8; 48],
    // Pr(c) stands at c, Pr(¬c) at 48 + c
    temporary: [u16; 96],
    marked: Marked,
    spare: Set,
    pub ghost few: { contexts ≤ 48 },
    // a firing fills a place up to its capacity and reads no capacity: that it is a byte is said here
    pub ghost narrow: { (c : ℕ) → get_or capacities c 0 ≤ 255 },
    pub ghost shows: { Shows contexts (marking counts temporary) marked },
    pub ghost spare_is: { spare ≡ spare_word contexts capacities counts },
}

// The temporary places on one of which a request puts its token.
impl From<Request> for PlaceKind {
    ghost from_gives = { λ request kind. kind ≡ cond request.on Pr PrNot };

    fn from(request: Request) -> Self {
        if request.on {
            PlaceKind::Pr
        } else {
            PlaceKind::PrNot
        }
    }
}

impl Places {
    ghost use Rattle.std.specs.Prelude.{◌<◌};
    ghost use Rattle.model.specs.Relations as model;
    ghost use Rattle.model.specs.Firing.{fire, fire_until_quiet, step_limit};
    ghost use Rattle.model.specs.Machine.{initial_marking};
    ghost use Rattle.model.specs.Claims.{at_rest};
    ghost use Rattle.net.specs.Nets.{contexts_of};
    ghost use Rattle.net.specs.Markings.{counts_in, AtMost};
    ghost use Rattle.step.specs.Places.{marking_of, width, tokens_at, put_at, moved_on};
    ghost use Rattle.step.specs.Places.{reading, cleared, Limits, SameLimits, CanMove, Firable};
    ghost use Rattle.step.specs.Steps.{step_from, Describes, Outcomes};

    /// The places of a net with these counts and no token on a temporary place.
    #[inline(always)]
    pub fn at_rest(net: &Net, capacities: &[u8; 48], counts: &[u8; 48]) -> Places
        ensures marking { marking_of result ≡ at_rest (counts_in counts.now) }
        ensures limits { Limits (contexts_of net.now) capacities.now result }
    {
        let contexts = net.contexts();
        let context = beginning::active(contexts, counts);
        let spare = beginning::below_capacity(contexts, capacities, counts);
        Places {
            contexts,
            capacities: *capacities,
            counts: *counts,
            temporary: [0; 96],
            marked: Marked {
                context,
                pr: Set::empty(),
                pr_not: Set::empty(),
            },
            spare,
        }
    }

    /// Puts one token on the request's own temporary place, which begins its step where no other token is. A
    /// step of several wishes is begun by one call for each.
    // Apart from `at_rest`, since a function of both would hand back places that it changed, and move
    // them: a request on a small net took a fifth more instructions.
    #[inline(always)]
    pub fn begin(&mut self, request: Request)
        requires inside { request.context < self.old.contexts }
        requires low { AtMost 1 (marking_of self.old) }
        ensures put { marking_of self.new
            ≡ put_at (cond request.on Pr PrNot) request.context 1 (marking_of self.old) }
        ensures marking { marking_of self.old ≡ at_rest (marking_of self.old).count
            → marking_of self.new ≡ initial_marking (marking_of self.old).count request }
        ensures low { AtMost 1 (marking_of self.new) }
        ensures limits { SameLimits self.old self.new }
    {
        self.put(PlaceKind::from(request), request.context, 1);
    }

    // The tokens on the place of context c of a kind.
    fn tokens(&self, kind: PlaceKind, c: usize) -> u16
        requires { c < self.now.contexts }
        ensures tokens { result ≡ tokens_at self.now kind c }
        ensures narrow { result ≤ width kind }
    {
        match kind {
            PlaceKind::Context => u16::from(self.counts[c]),
            PlaceKind::Pr => self.temporary[c],
            PlaceKind::PrNot => self.temporary[48 + c],
        }
    }

    /// Puts so many tokens on the place of context c of a kind, in the place of those that are there.
    pub fn put(&mut self, kind: PlaceKind, c: usize, tokens: u16)
        requires inside { c < self.old.contexts }
        requires narrow { tokens ≤ width kind }
        ensures marking { marking_of self.new ≡ put_at kind c tokens (marking_of self.old) }
        ensures limits { SameLimits self.old self.new }
    {
        match kind {
            PlaceKind::Context => {
                let capacity = u16::from(self.capacities[c]);
                self.counts[c] = tokens as u8;
                self.marked.context.assign(c, 0 < tokens);
                self.spare.assign(c, tokens < capacity);
            }
            PlaceKind::Pr => {
                self.temporary[c] = tokens;
                self.marked.pr.assign(c, 0 < tokens);
            }
            PlaceKind::PrNot => {
                self.temporary[48 + c] = tokens;
                self.marked.pr_not.assign(c, 0 < tokens);
            }
        }
    }

    // Moves the tokens of a firing on the places of one kind. A place that is taken and given keeps its tokens.
    fn move_tokens(&mut self, kind: PlaceKind, takes: Set, gives: Set)
        requires { CanMove self.old kind takes gives }
        ensures marking { marking_of self.new ≡ moved_on kind self.old.contexts takes gives (marking_of self.old) }
        ensures limits { SameLimits self.old self.new }
    {
        for c in takes
            .symmetric_difference(gives)
            .below(self.contexts)
            .iter()
        {
            let tokens = self.tokens(kind, c) - u16::from(takes.contains(c))
                + u16::from(gives.contains(c));
            self.put(kind, c, tokens);
        }
    }

    /// Fires a transition that these places find ready, where no temporary place holds more than 4,096 tokens.
    pub fn fire(&mut self, arcs: &Arcs)
        requires { Firable self.old arcs.now }
        ensures marking { marking_of self.new ≡ fire (reading self.old.contexts arcs.now) (marking_of self.old) }
        ensures limits { SameLimits self.old self.new }
    {
        self.move_tokens(PlaceKind::Context, arcs.takes_context, arcs.gives_context);
        self.move_tokens(PlaceKind::Pr, arcs.takes_pr, arcs.gives_pr);
        self.move_tokens(PlaceKind::PrNot, arcs.takes_not, arcs.gives_not);
    }

    /// The firings of a step on a net of these contexts: until nothing is enabled, or to the limit.
    pub fn run(&mut self, net: &Net) -> Stepped
        requires contexts { self.old.contexts ≡ contexts_of net.now }
        requires low { AtMost 1 (marking_of self.old) }
        ensures outcome { Outcomes result (marking_of self.new) (step_from net.now self.old) }
        ensures every { (whole : model.Net) → Describes whole net.now self.old.capacities
            → Outcomes result (marking_of self.new)
            (fire_until_quiet whole step_limit (marking_of self.old)) }
        ensures limits { SameLimits self.old self.new }
    {
        let mut firings = 0;
        let mut forced = 0;
        while let Some(i) = net.next(&self.marked, self.spare) {
            if firings == STEP_LIMIT {
                return Stepped {
                    firings,
                    forced,
                    quiet: false,
                };
            }
            let arcs = net.arcs(i);
            self.fire(&arcs);
            firings += 1;
            forced += usize::from(arcs.is_forced());
        }
        Stepped {
            firings,
            forced,
            quiet: true,
        }
    }

    /// Whether no temporary place holds a token.
    pub fn is_clear(&self) -> bool
        ensures { result ≡ cleared self.now.contexts (marking_of self.now) }
    {
        self.marked.pr.is_empty() && self.marked.pr_not.is_empty()
    }

    /// The counts of the contexts.
    pub fn counts(&self) -> &[u8; 48]
        ensures { counts_in result.now ≡ (marking_of self.now).count }
    {
        &self.counts
    }

    /// The places that hold a token.
    pub fn marked(&self) -> Marked
        ensures marked { result ≡ self.now.marked }
        ensures shows { Shows self.now.contexts (marking_of self.now) result }
    {
        self.marked // renewed wherever a token moves
    }

    /// The contexts below their capacity.
    pub fn spare(&self) -> Set
        ensures { result ≡ spare_word self.now.contexts self.now.capacities self.now.counts }
    {
        self.spare // renewed wherever a count moves
    }

    /// The tokens on the temporary places: Pr(c) stands at c, Pr(¬c) at 48 + c.
    pub fn temporary(&self) -> &[u16; 96]
        ensures { marking self.now.counts result.now ≡ marking_of self.now }
    {
        &self.temporary
    }
}
