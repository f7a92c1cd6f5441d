//! The records of transitions: each has the priority, then eight sets in six bytes each.
ghost use Rattle.std.specs.Prelude.{◌≡◌, ◌+◌, ◌*◌, ◌≤◌, ◌++◌, [], ◌∷◌, length, take, drop};
ghost use Rattle.std.specs.Int.{w64, to_le_bytes};
ghost use Rattle.model.specs.Sets.{equal_lists};
ghost use Rattle.model.specs.Transitions.{transitions};
ghost use Rattle.model.specs.Image.{edition_1, records};
ghost use Rattle.relations.specs.Lists.{net_of};
ghost use Rattle.image.specs.Records.{sets_of, record_of};

use relations::FittingList;
use sets::Set;
use transitions::{Arcs, Transitions};

/// The bytes of a record.
pub const RECORD_SIZE: usize = 49;

/// The bytes of a set.
const SET_SIZE: usize = 6;

/// Above the numbers of six bytes.
const SET_LIMIT: u64 = 0x1_0000_0000_0000;

/// The sets of a transition in the order of its record: the last one apart.
#[inline(always)]
fn sets_of(arcs: &Arcs) -> ([Set; 7], Set)
    ensures sets { result.0 ++ (result.1 ∷ []) ≡ sets_of arcs.now }
    ensures seven { length result.0 ≡ 7 }
{
    (
        [
            arcs.takes_context,
            arcs.takes_pr,
            arcs.takes_not,
            arcs.gives_context,
            arcs.gives_pr,
            arcs.gives_not,
            arcs.inhib_context,
        ],
        arcs.inhib_pr,
    )
}

/// The record of a transition. A set goes out as a whole word, whose last two bytes the next set covers: that takes half as many writes.
#[inline(always)]
fn write_record(out: &mut [u8], arcs: &Arcs)
    requires { length out.old ≡ 49 }
    ensures { out.new ≡ record_of arcs.now }
{
    let (sets, last) = sets_of(arcs);
    out[0] = arcs.priority.number();
    for (i, set) in sets.iter().enumerate() {
        out[SET_SIZE * i + 1..SET_SIZE * i + 9].copy_from_slice(&set.to_le_bytes());
    }
    out[43..].copy_from_slice(&last.to_le_bytes()[..SET_SIZE]);
}

/// The word whose bytes are the eight from a place on.
#[inline(always)]
fn word_at(bytes: &[u8], at: usize) -> u64
    requires { at + 8 ≤ length bytes.now }
    ensures { to_le_bytes w64 result ≡ take 8 (drop at bytes.now) }
{
    u64::from_le_bytes(*bytes[at..].first_chunk::<8>().unwrap())
}

/// Whether the bytes are the record of a transition. A set is compared within the whole word that begins with it, the last one within the word
/// that ends with it: that takes half as many reads. A difference does not end the test: most records are the same.
#[inline(always)]
fn same_record(bytes: &[u8], arcs: &Arcs) -> bool
    requires { length bytes.now ≡ 49 }
    ensures { result ≡ equal_lists bytes.now (record_of arcs.now) }
{
    let (sets, last) = sets_of(arcs);
    let mut same = bytes[0] == arcs.priority.number();
    for (i, set) in sets.iter().enumerate() {
        same &= word_at(bytes, SET_SIZE * i + 1) % SET_LIMIT == set.word() % SET_LIMIT;
    }
    same & (word_at(bytes, 41) / 0x1_0000 == last.word() % SET_LIMIT)
}

/// The records of a list's transitions, over as many bytes.
// Each at its index: of parts that are lent in a loop it is not known what the whole ends as.
#[tactic(auto, unfolding(model::specs::Image::records))]
pub fn write_records(out: &mut [u8], list: &FittingList<'_>)
    requires { length out.old ≡ 49 * length (transitions (net_of list.now)) }
    ensures { out.new ≡ records edition_1 (net_of list.now) }
{
    let mut at = 0;
    for arcs in Transitions::of(list) {
        write_record(&mut out[at..at + RECORD_SIZE], &arcs);
        at += RECORD_SIZE;
    }
}

/// Whether the bytes are the records of a list's transitions.
// Cut off one by one: over a zip of the transitions and the records a load takes 18,900 instructions in place of 16,500.
pub fn same_records(section: &[u8], list: &FittingList<'_>) -> bool
    requires { length section.now ≡ 49 * length (transitions (net_of list.now)) }
    ensures { result ≡ equal_lists section.now (records edition_1 (net_of list.now)) }
{
    let mut left = section;
    for arcs in Transitions::of(list) {
        let (record, behind) = left.split_at(RECORD_SIZE);
        if !same_record(record, &arcs) {
            return false;
        }
        left = behind;
    }
    true
}
