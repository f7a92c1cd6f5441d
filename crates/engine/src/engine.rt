//! The engine: its four calls, and what can be read of it.
ghost use Rattle.std.specs.Prelude.{◌≡◌, ◌≤◌, [], length};
ghost use Rattle.std.specs.List.{slice_get};

use crate::open_list::{Entry, OpenList};
use crate::snapshot::Snapshot;
use model::{Answer, Call, Refusal, Relation, Request, Tally, Verdict};
use net::Net;
use relations::{CheckedList, FittingList};

/// A net, composed once, with its counts, its open list and its totals.
#[derive(Clone, Copy, Debug)]
pub struct Engine {
    net: Net,
    capacities: [u8; 48],
    counts: [u8; 48],
    // the open requests, with the counts from before them
    opened: OpenList,
    tally: Tally,
}

impl Engine {
    ghost use Rattle.model.specs.Relations.{size, relation_count, empty_net};
    ghost use Rattle.relations.specs.Reading.{relations_of};
    ghost use Rattle.model.specs.Machine.{call_of, fresh, reading};
    ghost use Rattle.model.specs.declared.Call.TheVariants.{Undo, Settle};
    ghost use Rattle.engine.specs.View.{state, net_of, counts_of, tally_of, Moves, Replies, listed_counts};
    ghost use Rattle.relations.specs.Lists;
    ghost use Rattle.net.specs.Nets.{net_with};
    ghost use Rattle.engine.specs.Readings.{result_of};
    ghost use Rattle.std.specs.Prelude.{List, true, false, IfNone, IfSome};
    ghost use Rattle.model.specs.declared.Request.{Request};
    ghost use Rattle.engine.specs.Snapshots.{sound, state_in};

    // The machine of a net before its first call: no tokens, nothing open, no totals.
    fn fresh(net: Net, capacities: [u8; 48]) -> Self
        ensures { state result [] ≡ fresh (net_with net capacities) }
    {
        Engine {
            net,
            capacities,
            counts: [0; 48],
            opened: OpenList::new(),
            tally: Tally::default(),
        }
    }

    /// The machine of a list's net before its first call.
    pub fn new(list: &CheckedList<'_>) -> Self
        ensures { state result [] ≡ fresh (Lists.net_of list.now.fitting) }
    {
        let mut engine = Engine::empty();
        engine.set(list.fitting());
        engine
    }

    /// Becomes the machine of a list's net before its first call, where it is: an engine is large, and moving it takes time and stack.
    #[inline(always)]
    pub fn set(&mut self, list: &FittingList<'_>)
        ensures { state self.new [] ≡ fresh (Lists.net_of list.now) }
    {
        self.net.set(list);
        self.capacities = net::padded(list.capacities(), 0);
        self.begin();
    }

    /// Becomes the machine of the net without contexts.
    #[inline(always)]
    pub fn clear(&mut self)
        ensures { state self.new [] ≡ fresh empty_net }
    {
        self.net.clear();
        self.begin();
    }

    // Back to before the first call.
    #[inline(always)]
    fn begin(&mut self)
        ensures { state self.new [] ≡ fresh (net_of self.old) }
    {
        self.counts = [0; 48];
        OpenList::clear(&mut self.opened);
        self.tally = Tally::default();
    }

    /// The machine of the net without contexts.
    pub fn empty() -> Self
        ensures { state result [] ≡ fresh empty_net }
    {
        Engine::fresh(Net::empty(), [0; 48])
    }

    /// The engine that a sound snapshot stands for; none where it is not sound.
    pub fn of_sound(snapshot: &Snapshot) -> Option<Self>
        ensures none { IfNone result (sound snapshot.now ≡ false) }
        ensures some { IfSome result (λ engine. sound snapshot.now ≡ true) }
        ensures state { IfSome result (λ engine. (settled : List Request) → state engine settled ≡ state_in snapshot.now settled) }
    {
        let capacities = snapshot.capacities.get(..snapshot.contexts)?;
        let relations = snapshot.relations.get(..snapshot.relation_count)?;
        let list = FittingList::new(capacities, relations)?;
        let opened = OpenList::of(
            &snapshot.requests,
            &snapshot.markings,
            snapshot.first,
            snapshot.opened,
        )?;
        Some(Engine {
            net: Net::new(&list),
            capacities: snapshot.capacities,
            counts: snapshot.counts,
            opened,
            tally: snapshot.tally,
        })
    }

    /// The engine that a snapshot stands for.
    pub fn of(snapshot: &Snapshot) -> Self
        ensures { (settled : List Request) → state result settled ≡ state_in snapshot.now settled }
    {
        match Engine::of_sound(snapshot) {
            Some(engine) => engine,
            None => Engine {
                tally: snapshot.tally,
                ..Engine::empty()
            },
        }
    }

    /// All that the engine holds, as plain data.
    pub fn snapshot(&self) -> Snapshot
        ensures sound { sound result ≡ true }
        ensures state { (settled : List Request) → state_in result settled ≡ state self.now settled }
    {
        let relations = self.net.relations();
        Snapshot {
            contexts: self.net.contexts(),
            relation_count: relations.len(),
            capacities: self.capacities,
            relations: net::padded(relations, [0; 3]),
            counts: self.counts,
            requests: *self.opened.requests(),
            markings: *self.opened.markings(),
            first: self.opened.first(),
            opened: self.opened.len(),
            tally: self.tally,
        }
    }

    /// How many contexts there are.
    pub fn contexts(&self) -> usize
        ensures contexts { result ≡ size (net_of self.now) }
        ensures few { result ≤ 48 }
    {
        self.net.contexts()
    }

    /// How many relations there are.
    pub fn relation_count(&self) -> usize
        ensures { result ≡ relation_count (net_of self.now) }
    {
        self.relations().len()
    }

    /// The capacity of each context, in the order of their numbers.
    pub fn capacities(&self) -> &[u8]
        ensures { result.now ≡ (net_of self.now).caps }
    {
        &self.capacities[..self.net.contexts()]
    }

    /// The relations in their order, three bytes each: kind and ends.
    pub fn relations(&self) -> &[[u8; 3]]
        ensures { relations_of result.now ≡ (net_of self.now).rels }
    {
        self.net.relations()
    }

    /// The count of each context, in the order of their numbers.
    pub fn counts(&self) -> &[u8]
        ensures counts { result.now ≡ listed_counts (state self.now []) }
        ensures few { length result.now ≤ 48 }
    {
        &self.counts[..self.net.contexts()]
    }

    /// The capacity of a context.
    pub fn capacity(&self, context: usize) -> Option<u8>
        ensures { result ≡ slice_get (net_of self.now).caps context }
    {
        self.capacities().get(context).copied()
    }

    /// A relation by its place in the list.
    pub fn relation(&self, i: usize) -> Option<Relation>
        ensures { result ≡ slice_get (net_of self.now).rels i }
    {
        let &[kind, a, b] = self.relations().get(i)?;
        Some(Relation { kind, a, b })
    }

    /// The count of a context.
    pub fn count(&self, context: usize) -> Result<u8, Refusal>
        ensures { result ≡ result_of (reading (size (net_of self.now)) context (counts_of self.now context)) }
    {
        self.counts()
            .get(context)
            .copied()
            .ok_or(Refusal::NoSuchContext)
    }

    /// The three totals.
    pub fn totals(&self) -> Tally
        ensures { result ≡ tally_of self.now }
    {
        self.tally
    }

    // Takes back the newest open request.
    #[tactic(auto, using(crate::proofs::States::undo_refused, crate::proofs::States::undo_done))]
    fn take_back(&mut self) -> Answer
        ensures moves { Moves Undo self.old self.new result }
        ensures uncounted { self.new.tally ≡ self.old.tally }
    {
        let Some(entry) = self.opened.pop() else {
            return Answer::unfired(Verdict::Refused(Refusal::NothingOpen));
        };
        let before = entry.before;
        self.counts = before;
        Answer::unfired(Verdict::Granted)
    }

    // Nothing that was open can be taken back any more.
    #[tactic(auto, using(crate::proofs::States::settled))]
    fn close(&mut self) -> Answer
        ensures moves { Moves Settle self.old self.new result }
        ensures uncounted { self.new.tally ≡ self.old.tally }
    {
        self.opened.clear();
        Answer::unfired(Verdict::Granted)
    }

    // Makes a request, which is open where it is granted.
    #[tactic(auto, using(crate::proofs::States::request_granted, crate::proofs::States::request_refused))]
    fn request(&mut self, request: Request) -> Answer
        ensures moves { Moves (call_of request) self.old self.new result }
        ensures uncounted { self.new.tally ≡ self.old.tally }
    {
        let before = self.counts;
        let answer = requests::judge(&self.net, &self.capacities, &mut self.counts, request);
        if answer.verdict.is_granted() {
            self.opened.push(Entry { request, before });
        }
        answer
    }

    /// One call on the machine.
    #[tactic(auto, using(crate::proofs::States::counted))]
    pub fn perform(&mut self, call: Call) -> Answer
        ensures { Replies call self.old self.new result }
    {
        let answer = match call {
            Call::Activate(context) => self.request(Request { on: true, context }),
            Call::Deactivate(context) => self.request(Request { on: false, context }),
            Call::Undo => self.take_back(),
            Call::Settle => self.close(),
        };
        self.tally.count(call, answer.verdict);
        answer
    }

    /// Takes back the newest open request.
    pub fn undo(&mut self) -> Answer
        ensures { Replies Undo self.old self.new result }
    {
        self.perform(Call::Undo)
    }

    /// Settles the open list.
    pub fn settle(&mut self) -> Answer
        ensures { Replies Settle self.old self.new result }
    {
        self.perform(Call::Settle)
    }
}
