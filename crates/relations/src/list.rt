//! Lists whose relations fit, and those of them that passed the checks.
ghost use Rattle.std.specs.Prelude.{◌≡◌, ◌≤◌, false, length};
ghost use Rattle.std.proofs.Props.{props};
ghost use Rattle.model.specs.Sets.{any};
ghost use Rattle.model.specs.Relations.{has_zero, misfit, repeats};
ghost use Rattle.model.specs.Image.{edition_1, bad_sizes};
ghost use Rattle.relations.specs.Reading.{relations_of};
ghost use Rattle.relations.specs.Links.{Linked};

use crate::checks;
use crate::kind::Kind;
use crate::links::Links;
use model::Refusal;
use sets::Set;

/// The capacities of at most 48 contexts, at most 96 relations that fit these, and what the relations link. A net can be made of it: here a
/// capacity may be 0, a relation may stand twice, and there may be no context.
#[derive(Debug, Drop)]
pub struct FittingList<'a> {
    capacities: &'a [u8],
    relations: &'a [[u8; 3]],
    links: Links,
    pub ghost few_contexts: { length capacities.now ≤ 48 },
    pub ghost few_relations: { length relations.now ≤ 96 },
    pub ghost fits: { any (misfit (length capacities.now)) (relations_of relations.now) ≡ false },
    ghost linked: { Linked (relations_of relations.now) links.sets } by { Prim.hlevel props },
}

/// The list of a net that no check refuses.
#[derive(Debug, Drop)]
pub struct CheckedList<'a> {
    fitting: FittingList<'a>,
    pub ghost sizes: { bad_sizes edition_1 (length fitting.capacities.now) (length fitting.relations.now) ≡ false },
    pub ghost no_zero: { has_zero fitting.capacities.now ≡ false },
    pub ghost once: { repeats (relations_of fitting.relations.now) ≡ false },
}

impl<'a> FittingList<'a> {
    ghost use Rattle.std.specs.Prelude.{true, IfNone, IfSome, ◌<◌};
    ghost use Rattle.model.specs.Sets.{number};
    ghost use Rattle.model.specs.Relations.{size};
    ghost use Rattle.relations.specs.Kinds.{kind_number};
    ghost use Rattle.relations.specs.Links.{ends};
    ghost use Rattle.relations.specs.Lists.{net_of, is_fitting, net_with};

    /// The list of these capacities and relations, where these are not too many and each relation fits.
    #[tactic(auto, using(crate::proofs::Fitting::too_many, crate::proofs::Fitting::misfitting, crate::proofs::Fitting::fits, crate::proofs::Fitting::few_contexts, crate::proofs::Fitting::few_relations, crate::proofs::Lists::fitting, crate::proofs::Fitting::fits_most))]
    pub fn new(capacities: &'a [u8], relations: &'a [[u8; 3]]) -> Option<Self>
        ensures none { IfNone result (is_fitting capacities.now relations.now ≡ false) }
        ensures some { IfSome result (λ list. is_fitting capacities.now relations.now ≡ true) }
        ensures net { IfSome result (λ list. net_of list ≡ net_with capacities.now relations.now) }
    {
        if checks::too_many(capacities.len(), relations.len()) {
            return None;
        }
        if checks::has_misfit(relations, capacities.len()) {
            return None;
        }
        let mut links = Links::none();
        links.link_all(relations);
        Some(FittingList {
            capacities,
            relations,
            links,
        })
    }

    /// How many contexts the net has.
    pub fn contexts(&self) -> usize
        ensures value { result ≡ size (net_of self.now) }
        ensures few { result ≤ 48 }
    {
        self.capacities.len()
    }

    /// The capacity of each context, in the order of their numbers.
    pub fn capacities(&self) -> &[u8]
        ensures { result.now ≡ (net_of self.now).caps }
    {
        self.capacities
    }

    /// The relations, three bytes each: its kind and its two ends.
    pub fn relations(&self) -> &[[u8; 3]]
        ensures value { relations_of result.now ≡ (net_of self.now).rels }
        ensures few { length result.now ≤ 96 }
    {
        self.relations
    }

    /// The contexts at the other ends of a context's relations of a kind. An exclusion links
    /// both of its ends.
    pub fn linked(&self, kind: Kind, context: usize) -> Set
        requires { context < 48 }
        ensures { result ≡ number 64 (ends (net_of self.now).rels (kind_number kind) context) }
    {
        self.links.linked_with(kind, context)
    }
}

impl<'a> CheckedList<'a> {
    ghost use Rattle.std.specs.Prelude.{IfOk, ◌<◌};
    ghost use Rattle.model.specs.Sets.{number};
    ghost use Rattle.model.specs.Refusals.{first_refusal, verdict_of};
    ghost use Rattle.model.specs.Relations.{size};
    ghost use Rattle.model.specs.Image.{given_net};
    ghost use Rattle.relations.specs.Kinds.{kind_number};
    ghost use Rattle.relations.specs.Links.{ends};
    ghost use Rattle.relations.specs.Lists.{net_of, given_checks};

    /// The list of these capacities and of these relations, three bytes each.
    #[tactic(auto, using(crate::proofs::Lists::verdict_is, crate::proofs::Lists::fitting, crate::proofs::Lists::fits_most, crate::proofs::Lists::few_contexts, crate::proofs::Lists::few_relations, crate::proofs::Reading::relations_read))]
    #[inline(always)]
    pub fn new(capacities: &'a [u8], relations: &'a [u8]) -> Result<Self, Refusal>
        ensures verdict { verdict_of result ≡ first_refusal (given_checks capacities.now relations.now) }
        ensures net { IfOk result (λ list. net_of list.fitting ≡ given_net edition_1 capacities.now relations.now) }
    {
        let (triples, rest) = relations.as_chunks::<3>();
        if checks::wrong_sizes(capacities.len(), triples.len()) || !rest.is_empty() {
            return Err(Refusal::WrongSizes);
        }
        if checks::has_zero(capacities) {
            return Err(Refusal::ZeroCapacity);
        }
        if checks::has_misfit(triples, capacities.len()) {
            return Err(Refusal::WrongRelation);
        }
        let mut links = Links::none();
        if links.link_all(triples) {
            return Err(Refusal::RepeatedRelation);
        }
        Ok(CheckedList {
            fitting: FittingList {
                capacities,
                relations: triples,
                links,
            },
        })
    }

    /// The list, whatever else was checked: nets and their transitions are made of it.
    pub fn fitting(&self) -> &FittingList<'a>
        ensures { result.now ≡ self.now.fitting }
    {
        &self.fitting
    }

    /// How many contexts the net has.
    #[tactic(auto, using(crate::proofs::Lists::some_context))]
    pub fn contexts(&self) -> usize
        ensures value { result ≡ size (net_of self.now.fitting) }
        ensures some { 0 < result }
        ensures few { result ≤ 48 }
    {
        self.fitting.contexts()
    }

    /// The capacity of each context, in the order of their numbers.
    pub fn capacities(&self) -> &[u8]
        ensures { result.now ≡ (net_of self.now.fitting).caps }
    {
        self.fitting.capacities()
    }

    /// The relations, three bytes each: its kind and its two ends.
    pub fn relations(&self) -> &[[u8; 3]]
        ensures value { relations_of result.now ≡ (net_of self.now.fitting).rels }
        ensures few { length result.now ≤ 96 }
    {
        self.fitting.relations()
    }

    /// The contexts at the other ends of a context's relations of a kind. An exclusion links
    /// both of its ends.
    pub fn linked(&self, kind: Kind, context: usize) -> Set
        requires { context < 48 }
        ensures { result ≡ number 64 (ends (net_of self.now.fitting).rels (kind_number kind) context) }
    {
        self.fitting.linked(kind, context)
    }
}
