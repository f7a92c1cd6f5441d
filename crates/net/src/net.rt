//! A composed net: its contexts, its relations and its transitions.
ghost use Rattle.std.specs.Prelude.{◌≡◌, ◌≤◌, false};
ghost use Rattle.model.specs.Sets.{any};
ghost use Rattle.model.specs.Relations.{misfit};
ghost use Rattle.net.specs.Tables.{relations_in, StoresAll};

use crate::table::Table;
use crate::{Marked, padded};
use relations::FittingList;
use sets::Set;
use transitions::Arcs;

/// A net of at most 48 contexts and 96 relations, with its transitions; it knows no capacities.
#[derive(Clone, Copy, Debug)]
pub struct Net {
    contexts: usize,
    relation_count: usize,
    // three bytes each: its kind and its two ends
    relations: [[u8; 3]; 96],
    table: Table,
    pub ghost few_contexts: { contexts ≤ 48 },
    pub ghost few_relations: { relation_count ≤ 96 },
    pub ghost fits: { any (misfit contexts) (relations_in relation_count relations) ≡ false },
    pub ghost stores: { StoresAll table contexts (relations_in relation_count relations) },
}

impl Net {
    ghost use Rattle.std.specs.Prelude.{◌<◌, [], length, get_or};
    ghost use Rattle.model.specs.Relations.{size};
    ghost use Rattle.relations.specs.Reading.{relations_of};
    ghost use Rattle.relations.specs.Lists.{net_of};
    ghost use Rattle.net.specs.Tables.{blank};
    ghost use Rattle.net.specs.Nets.{contexts_of, rels_of, table_of, transitions_in, arcs_of};
    ghost use Rattle.transitions.specs.Arcs.{Holds};
    ghost use Rattle.net.specs.Walks.{Chooses};

    /// The net of a list, without its capacities.
    pub fn new(list: &FittingList<'_>) -> Self
        ensures contexts { contexts_of result ≡ size (net_of list.now) }
        ensures relations { rels_of result ≡ (net_of list.now).rels }
    {
        let mut net = Net::empty();
        net.set(list);
        net
    }

    /// Becomes the net of a list, where it is: a net is large, and moving it takes time and stack.
    #[inline(always)]
    pub fn set(&mut self, list: &FittingList<'_>)
        ensures contexts { contexts_of self.new ≡ size (net_of list.now) }
        ensures relations { rels_of self.new ≡ (net_of list.now).rels }
    {
        let triples = list.relations();
        self.table.fill(list);
        self.contexts = list.contexts();
        self.relation_count = triples.len();
        self.relations = padded(triples, [0; 3]);
    }

    /// Becomes the net without contexts.
    #[inline(always)]
    pub fn clear(&mut self)
        ensures contexts { contexts_of self.new ≡ 0 }
        ensures relations { rels_of self.new ≡ [] }
    {
        self.table.clear();
        self.contexts = 0;
        self.relation_count = 0;
    }

    /// The net without contexts.
    pub fn empty() -> Self
        ensures contexts { contexts_of result ≡ 0 }
        ensures relations { rels_of result ≡ [] }
    {
        Net {
            contexts: 0,
            relation_count: 0,
            relations: [[0; 3]; 96],
            table: Table::new(),
        }
    }

    /// How many contexts it has.
    pub fn contexts(&self) -> usize
        ensures contexts { result ≡ contexts_of self.now }
        ensures few { result ≤ 48 }
    {
        self.contexts // at most 48
    }

    /// Its relations, three bytes each: its kind and its two ends.
    pub fn relations(&self) -> &[[u8; 3]]
        ensures { relations_of result.now ≡ rels_of self.now }
    {
        &self.relations[..self.relation_count]
    }

    /// How many transitions it has.
    pub fn transitions(&self) -> usize
        ensures { result ≡ length (transitions_in self.now) }
    {
        self.table.count
    }

    /// The sets of transition i, where it is one of the net.
    #[tactic(auto, using(crate::proofs::Nets::holds_at))]
    pub fn arcs(&self, i: usize) -> Arcs
        requires { i < 192 }
        ensures entry { result ≡ arcs_of self.now i }
        ensures holds { i < length (transitions_in self.now) → Holds result (get_or (transitions_in self.now) i blank) }
    {
        self.table.arcs(i)
    }

    /// The enabled transition of the lowest number, where these places are marked, and `spare` holds
    /// the contexts below their capacity.
    pub fn next(&self, marked: &Marked, spare: Set) -> Option<usize>
        ensures { Chooses (contexts_of self.now) (table_of self.now) marked.now spare result }
    {
        self.table.next(self.contexts, marked, spare)
    }
}
