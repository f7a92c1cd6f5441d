//! What relations link: for each kind and context the contexts at the other ends.
ghost use Rattle.std.specs.Prelude.{◌≡◌, false, [], ◌<◌, ◌-◌};
ghost use Rattle.model.specs.Sets.{any};
ghost use Rattle.model.specs.Relations.{misfit, repeats};
ghost use Rattle.relations.specs.Kinds.{kind_number};
ghost use Rattle.relations.specs.Reading.{relation_of, relations_of};
ghost use Rattle.relations.specs.Links.{set_at, Linked, marked, LinksOneMore, TellsRepeated};

use crate::kind::Kind;
use crate::link::Link;
use sets::Set;

/// For each kind, and in it for each context, the set of those that it is linked with.
#[derive(Debug, Drop)]
pub struct Links {
    // as words: a struct with a lifetime that holds sets cannot be handed on by `?` yet
    sets: [[u64; 48]; 5],
}

// Where the sets of a kind stand: those of exclusions come first.
fn row_of(kind: Kind) -> usize
    ensures row { result ≡ kind_number kind - 1 }
    ensures inside { result < 5 }
{
    usize::from(kind.number()) - 1
}

impl Links {
    /// What no relation links.
    #[inline(always)]
    pub(crate) fn none() -> Links
        ensures { Linked [] result.sets }
    {
        Links { sets: [[0; 48]; 5] }
    }

    /// Links these relations, where none is linked yet, and tells whether one of them is the same as an earlier one.
    #[inline(always)]
    pub(crate) fn link_all(&mut self, triples: &[[u8; 3]]) -> bool
        requires fitting { any (misfit 48) (relations_of triples.now) ≡ false }
        requires none { Linked [] self.old.sets }
        ensures linked { Linked (relations_of triples.now) self.new.sets }
        ensures repeated { result ≡ repeats (relations_of triples.now) }
    {
        let mut repeated = false;
        for &triple in triples {
            let link = Link::of(triple);
            repeated |= self.linked(link);
            self.link(link);
        }
        repeated
    }

    /// The contexts that relations of a kind link with this one.
    pub(crate) fn linked_with(&self, kind: Kind, context: usize) -> Set
        requires { context < 48 }
        ensures { result ≡ set_at self.now.sets (kind_number kind) context }
    {
        Set::of_word(self.sets[row_of(kind)][context])
    }

    // The second end of a relation joins the set of its first.
    fn mark(&mut self, link: Link)
        ensures { self.new.sets ≡ marked self.old.sets (kind_number link.kind) link.a link.b }
    {
        let mut linked = self.linked_with(link.kind, link.a);
        linked.insert(link.b);
        self.sets[row_of(link.kind)][link.a] = linked.word();
    }

    // One relation more: an exclusion links both ways.
    fn link(&mut self, link: Link)
        ensures { LinksOneMore (relation_of link) self.old.sets self.new.sets }
    {
        self.mark(link);
        if link.kind == Kind::Excludes {
            self.mark(link.exchanged());
        }
    }

    // Whether a relation links what an earlier one links already.
    fn linked(&self, link: Link) -> bool
        ensures { TellsRepeated (relation_of link) self.now.sets result }
    {
        self.linked_with(link.kind, link.a).contains(link.b)
    }
}
