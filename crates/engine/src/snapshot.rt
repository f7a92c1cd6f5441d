//! An engine as plain data.
use model::{Request, Tally};

/// All that an engine holds, as plain data, which can be kept and made an engine again (`Engine::of`). Every value stands for an engine: one
/// of more than 48 contexts, 96 relations or 32 open requests, or with a relation that does not fit its contexts, for that of the net without
/// contexts, with nothing open.
#[derive(Clone, Copy, Debug)]
pub struct Snapshot {
    pub contexts: usize,
    pub relation_count: usize,
    pub capacities: [u8; 48],
    /// Three bytes each: kind and ends.
    pub relations: [[u8; 3]; 96],
    pub counts: [u8; 48],
    /// The open requests, in a ring of slots, and the counts from before each.
    pub requests: [Request; 32],
    pub markings: [[u8; 48]; 32],
    /// The slot of the oldest open request, and how many are open.
    pub first: usize,
    pub opened: usize,
    pub tally: Tally,
}
