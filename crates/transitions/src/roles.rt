//! The five forms of a transition, from what the relations of a list link.
ghost use Rattle.std.specs.Prelude.{◌≡◌, ◌<◌, map};
ghost use Rattle.std.specs.Option.{option_to_list};
ghost use Rattle.model.specs.Sets.{number, singleton, empty_set};
ghost use Rattle.model.specs.Transitions.{asks_on, asks_off, act, deac, forced, drop_of, decline_of};
ghost use Rattle.relations.specs.Reading.{relation_of};
ghost use Rattle.relations.specs.Lists.{net_of};
ghost use Rattle.transitions.specs.Arcs.{arcs_of, extra_of};

use crate::{Arcs, Priority};
use relations::{FittingList, Kind, Link};
use sets::Set;

// What a context asks off when it goes: all that it causes or implies.
#[inline(always)]
fn asked_off(list: &FittingList<'_>, context: usize) -> Set
    requires { context < 48 }
    ensures { result ≡ number 64 (asks_off (net_of list.now).rels context) }
{
    list.linked(Kind::Causes, context)
        .union(list.linked(Kind::Implies, context))
}

// What a context asks on when it comes: all that it asks off when it goes, and what it suggests.
#[inline(always)]
fn asked_on(list: &FittingList<'_>, context: usize) -> Set
    requires { context < 48 }
    ensures { result ≡ number 64 (asks_on (net_of list.now).rels context) }
{
    asked_off(list, context).union(list.linked(Kind::Suggests, context))
}

/// The activation of a context. It needs what the context requires, and what is excluded with it
/// stops it.
#[inline(always)]
pub fn act(list: &FittingList<'_>, context: usize) -> Arcs
    requires { context < 48 }
    ensures { result ≡ arcs_of (act (net_of list.now).rels context) }
{
    let needed = list.linked(Kind::Requires, context);
    let mut given = needed;
    given.insert(context);
    Arcs {
        priority: Priority::Urgent,
        takes_context: needed,
        takes_pr: Set::singleton(context),
        gives_context: given,
        gives_pr: asked_on(list, context),
        inhib_context: list.linked(Kind::Excludes, context),
        ..Arcs::default()
    }
}

/// The deactivation of a context.
#[tactic(auto, using(sets::proofs::Laws::zero_holds), unfolding(model::specs::Transitions::deac))]
#[inline(always)]
pub fn deac(list: &FittingList<'_>, context: usize) -> Arcs
    requires { context < 48 }
    ensures { result ≡ arcs_of (deac (net_of list.now).rels context) }
{
    let own = Set::singleton(context);
    Arcs {
        priority: Priority::Urgent,
        takes_context: own,
        takes_not: own,
        gives_not: asked_off(list, context),
        ..Arcs::default()
    }
}

// The forced transition of "a requires b". That of "a implies b" is also stopped by Pr(b).
#[inline(always)]
fn forced(list: &FittingList<'_>, link: Link) -> Arcs
    ensures { result ≡ arcs_of (forced (net_of list.now).rels link.a (singleton link.b) empty_set) }
{
    let Link { a, b, .. } = link;
    let mut asked = asked_off(list, a);
    asked.remove(b);
    Arcs {
        priority: Priority::Urgent,
        takes_context: Set::singleton(a),
        gives_not: asked,
        inhib_context: Set::singleton(b),
        ..Arcs::default()
    }
}

// The drop of "a causes b".
#[tactic(auto, using(sets::proofs::Laws::zero_holds), unfolding(model::specs::Transitions::drop_of))]
#[inline(always)]
fn drop_of(link: Link) -> Arcs
    ensures { result ≡ arcs_of (drop_of link.b) }
{
    let it = Set::singleton(link.b);
    Arcs {
        priority: Priority::Late,
        takes_not: it,
        inhib_context: it,
        ..Arcs::default()
    }
}

// The decline of "a suggests b".
#[tactic(auto, using(sets::proofs::Laws::zero_holds), unfolding(model::specs::Transitions::decline_of))]
#[inline(always)]
fn decline_of(link: Link) -> Arcs
    ensures { result ≡ arcs_of (decline_of link.b) }
{
    Arcs {
        priority: Priority::Late,
        takes_pr: Set::singleton(link.b),
        ..Arcs::default()
    }
}

/// The extra transition of a relation, where it has one: an exclusion has none.
#[tactic(auto, unfolding(model::specs::Transitions::extra, model::specs::Transitions::forced))]
#[inline(always)]
pub fn extra(list: &FittingList<'_>, link: Link) -> Option<Arcs>
    ensures { option_to_list result ≡ map arcs_of (extra_of list.now (relation_of link)) }
{
    match link.kind {
        Kind::Excludes => None,
        Kind::Causes => Some(drop_of(link)),
        Kind::Implies => Some(Arcs {
            inhib_pr: Set::singleton(link.b),
            ..forced(list, link)
        }),
        Kind::Requires => Some(forced(list, link)),
        Kind::Suggests => Some(decline_of(link)),
    }
}
