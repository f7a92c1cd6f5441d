//! The open list: the granted requests that can still be undone.
ghost use Rattle.std.specs.Prelude.{◌≡◌, ◌+◌, ◌%◌, ◌<◌, ◌≤◌};

use model::Request;

/// How many requests can be open.
const OPEN_LIMIT: usize = 32;

/// A granted request that can still be undone, and the counts from before it.
#[derive(Clone, Copy, Debug)]
pub struct Entry {
    pub request: Request,
    pub before: [u8; 48],
}

/// The open requests, in a ring, so that none moves when one joins or leaves. Clauses see its entries, the newest first.
#[derive(Copy, Clone, Debug)]
pub struct OpenList {
    requests: [Request; 32],
    // the undoable markings, the counts from before each request: an array of their own, in a given form, and no entry with its request
    markings: [[u8; 48]; 32],
    // the slot of the oldest, and how many are open
    first: usize,
    len: usize,
    pub ghost in_ring: { first < 32 },
    pub ghost few: { len ≤ 32 },
}

// The slot that this many older ones come before.
fn slot(first: usize, older: usize) -> usize
    requires { (first < 32) × (older ≤ 32) }
    ensures { result ≡ (first + older) % 32 }
{
    (first + older) % OPEN_LIMIT
}

impl OpenList {
    ghost use Rattle.std.specs.Prelude.{◌↔◌, [], ◌∷◌, length, take, IsTrue, IsNone, IfNone, IfSome};
    ghost use Rattle.engine.specs.Open.{newest, entries};

    /// The list with nothing open.
    pub fn new() -> Self
        ensures { entries result ≡ [] }
    {
        let none = Request {
            on: false,
            context: 0,
        };
        OpenList {
            requests: [none; 32],
            markings: [[0; 48]; 32],
            first: 0,
            len: 0,
        }
    }

    /// The list of so many requests in a ring of slots, from the oldest one's slot on, which may be any number: it is taken modulo 32. None
    /// where more are open than can be.
    pub fn of(
        requests: &[Request; 32],
        markings: &[[u8; 48]; 32],
        first: usize,
        opened: usize,
    ) -> Option<Self>
        ensures none { IsNone result ↔ (32 < opened) }
        ensures some { IfSome result (λ list. entries list ≡ newest requests.now markings.now first opened) }
    {
        if opened > OPEN_LIMIT {
            return None;
        }
        Some(OpenList {
            requests: *requests,
            markings: *markings,
            first: first % OPEN_LIMIT,
            len: opened,
        })
    }

    /// How many are open.
    #[tactic(auto, using(crate::proofs::Rings::length_newest))]
    pub fn len(&self) -> usize
        ensures value { result ≡ self.now.len }
        ensures entries { result ≡ length (entries self.now) }
    {
        self.len // at most 32
    }

    /// The slots of the requests.
    pub(crate) fn requests(&self) -> &[Request; 32]
        ensures { result.now ≡ self.now.requests }
    {
        &self.requests
    }

    /// The counts from before each request, by slot.
    pub(crate) fn markings(&self) -> &[[u8; 48]; 32]
        ensures { result.now ≡ self.now.markings }
    {
        &self.markings
    }

    /// The slot of the oldest request.
    pub(crate) fn first(&self) -> usize
        ensures { result ≡ self.now.first }
    {
        self.first
    }

    #[tactic(auto, using(crate::proofs::Rings::length_newest))]
    fn is_full(&self) -> bool
        ensures { IsTrue result ↔ (length (entries self.now) ≡ 32) }
    {
        self.len == OPEN_LIMIT
    }

    /// The entry joins the list. Where 32 were open, the oldest is no longer.
    #[tactic(auto, using(crate::proofs::Rings::push_free, crate::proofs::Rings::push_full))]
    pub fn push(&mut self, entry: Entry)
        ensures { entries self.new ≡ take 32 (entry ∷ entries self.old) }
    {
        let full = self.is_full();
        let Entry { request, before } = entry;
        let free = slot(self.first, self.len);
        self.requests[free] = request;
        self.markings[free] = before;
        if full {
            self.first = slot(self.first, 1);
        } else {
            self.len += 1;
        }
    }

    /// Removes the newest entry.
    pub fn pop(&mut self) -> Option<Entry>
        ensures none { IsNone result ↔ (entries self.old ≡ []) }
        ensures newest { IfSome result (λ entry. entries self.old ≡ entry ∷ entries self.new) }
        ensures kept { IfNone result (entries self.new ≡ entries self.old) }
    {
        if self.len == 0 {
            return None;
        }
        self.len -= 1;
        let last = slot(self.first, self.len);
        Some(Entry {
            request: self.requests[last],
            before: self.markings[last],
        })
    }

    /// Removes every entry.
    pub fn clear(&mut self)
        ensures { entries self.new ≡ [] }
    {
        self.len = 0;
    }
}
