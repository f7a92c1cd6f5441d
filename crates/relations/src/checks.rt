//! The checks of a list, each over the whole of it: its sizes, its capacities, its relations.
ghost use Rattle.std.specs.Prelude.{◌≡◌};
ghost use Rattle.std.specs.List.{list_any};
ghost use Rattle.model.specs.Relations.{has_zero};
ghost use Rattle.model.specs.Image.{edition_1, bad_sizes};
ghost use Rattle.relations.specs.Reading.{misfits_triple};
ghost use Rattle.relations.specs.Sizes.{exceeds};

use crate::kind::Kind;

const MOST_CONTEXTS: usize = 48;

const MOST_RELATIONS: usize = 96;

/// Whether edition 1 has no net of so many contexts and relations.
#[tactic(auto, unfolding(model::specs::Image::bad_sizes))]
pub fn wrong_sizes(contexts: usize, relations: usize) -> bool
    ensures { result ≡ bad_sizes edition_1 contexts relations }
{
    contexts == 0 || contexts > MOST_CONTEXTS || relations > MOST_RELATIONS
}

/// Whether there are more contexts or relations than a net has room for.
pub(crate) fn too_many(contexts: usize, relations: usize) -> bool
    ensures { result ≡ exceeds contexts relations }
{
    contexts > MOST_CONTEXTS || relations > MOST_RELATIONS
}

/// Whether a capacity is 0.
#[tactic(auto, unfolding(model::specs::Relations::has_zero))]
pub fn has_zero(capacities: &[u8]) -> bool
    ensures { result ≡ has_zero capacities.now }
{
    capacities.contains(&0)
}

// Whether the relation of three bytes has no kind, an end that is no context, or equal ends.
#[tactic(auto, unfolding(model::specs::Relations::misfit))]
fn is_misfit(triple: [u8; 3], contexts: usize) -> bool
    ensures { result ≡ misfits_triple contexts triple }
{
    let [kind, source, target] = triple;
    let (source, target) = (usize::from(source), usize::from(target));
    Kind::try_from(kind).is_err() || source >= contexts || target >= contexts || source == target
}

/// Whether a relation does not fit so many contexts.
pub fn has_misfit(triples: &[[u8; 3]], contexts: usize) -> bool
    ensures { result ≡ list_any (misfits_triple contexts) triples.now }
{
    // by number, and not by `any`: here an edit that misreads a byte is refused for that byte, and not for its form
    for i in 0..triples.len() {
        if is_misfit(triples[i], contexts) {
            return true;
        }
    }
    false
}
