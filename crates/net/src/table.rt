//! A net's transitions by number, in nine arrays, and which of them fires next. The walk goes by the
//! marked places and the set of the contexts below their capacity: no count and no capacity is within
//! its reach.
ghost use Rattle.std.specs.Prelude.{◌<◌, ◌≤◌};

use crate::Marked;
use relations::FittingList;
use sets::Set;
use transitions::{Arcs, Priority, Transitions};

/// The first `count` entries of each array are in use: entry i of each is the word of a set of
/// transition i, or its priority.
// Arrays that `[0; n]` starts are the form given for transition sets; and of most transitions the
// walk reads three entries alone.
#[derive(Clone, Copy, Debug)]
pub struct Table {
    pub count: usize,
    pub priority: [Priority; 192],
    pub takes_context: [u64; 192],
    pub takes_pr: [u64; 192],
    pub takes_not: [u64; 192],
    pub gives_context: [u64; 192],
    pub gives_pr: [u64; 192],
    pub gives_not: [u64; 192],
    pub inhib_context: [u64; 192],
    pub inhib_pr: [u64; 192],
    pub ghost few: { count ≤ 192 },
}

/// One transition of a table. A set is read when it is asked for: of most transitions the walk looks
/// at three.
#[derive(Clone, Copy, Debug)]
pub(crate) struct Row<'a> {
    table: &'a Table,
    number: usize,
    ghost inside: { number < 192 },
}

impl Row<'_> {
    ghost use Rattle.std.specs.Prelude.{◌≡◌};
    ghost use Rattle.net.specs.Tables.{arcs_in};

    #[inline(always)]
    pub fn priority(&self) -> Priority
        ensures { result ≡ (arcs_in self.now).priority }
    {
        self.table.priority[self.number]
    }

    #[inline(always)]
    pub fn takes_context(&self) -> Set
        ensures { result ≡ (arcs_in self.now).takes_context }
    {
        Set::of_word(self.table.takes_context[self.number])
    }

    #[inline(always)]
    pub fn takes_pr(&self) -> Set
        ensures { result ≡ (arcs_in self.now).takes_pr }
    {
        Set::of_word(self.table.takes_pr[self.number])
    }

    #[inline(always)]
    pub fn takes_not(&self) -> Set
        ensures { result ≡ (arcs_in self.now).takes_not }
    {
        Set::of_word(self.table.takes_not[self.number])
    }

    #[inline(always)]
    pub fn gives_context(&self) -> Set
        ensures { result ≡ (arcs_in self.now).gives_context }
    {
        Set::of_word(self.table.gives_context[self.number])
    }

    #[inline(always)]
    pub fn inhib_context(&self) -> Set
        ensures { result ≡ (arcs_in self.now).inhib_context }
    {
        Set::of_word(self.table.inhib_context[self.number])
    }

    #[inline(always)]
    pub fn inhib_pr(&self) -> Set
        ensures { result ≡ (arcs_in self.now).inhib_pr }
    {
        Set::of_word(self.table.inhib_pr[self.number])
    }
}

impl Table {
    ghost use Rattle.std.specs.Prelude.{◌≡◌, ◌<◌, []};
    ghost use Rattle.model.specs.Transitions.{transitions};
    ghost use Rattle.relations.specs.Lists.{net_of};
    ghost use Rattle.net.specs.Tables.{row, arcs_in, Stores, Joins};
    ghost use Rattle.net.specs.Walks.{ready_row, FindsOwn, PrefersUrgent, Chooses};

    /// No transition.
    pub fn new() -> Self
        ensures { Stores result [] }
    {
        Table {
            count: 0,
            priority: [Priority::Late; 192],
            takes_context: [0; 192],
            takes_pr: [0; 192],
            takes_not: [0; 192],
            gives_context: [0; 192],
            gives_pr: [0; 192],
            gives_not: [0; 192],
            inhib_context: [0; 192],
            inhib_pr: [0; 192],
        }
    }

    /// All transitions of a list.
    pub fn of(list: &FittingList<'_>) -> Self
        ensures { Stores result (transitions (net_of list.now)) }
    {
        let mut table = Table::new();
        table.fill(list);
        table
    }

    /// Becomes the table of all transitions of a list, where it is: a table is large, and moving it takes time and stack.
    #[inline(always)]
    pub fn fill(&mut self, list: &FittingList<'_>)
        ensures { Stores self.new (transitions (net_of list.now)) }
    {
        self.clear();
        for arcs in Transitions::of(list) {
            self.push(arcs);
        }
    }

    /// Becomes the table of no transition.
    #[inline(always)]
    pub fn clear(&mut self)
        ensures { Stores self.new [] }
    {
        self.count = 0;
    }

    /// A transition more, behind the others.
    #[inline(always)]
    fn push(&mut self, arcs: Arcs)
        requires { self.old.count < 192 }
        ensures { Joins self.old arcs self.new }
    {
        let i = self.count;
        self.priority[i] = arcs.priority;
        self.takes_context[i] = arcs.takes_context.word();
        self.takes_pr[i] = arcs.takes_pr.word();
        self.takes_not[i] = arcs.takes_not.word();
        self.gives_context[i] = arcs.gives_context.word();
        self.gives_pr[i] = arcs.gives_pr.word();
        self.gives_not[i] = arcs.gives_not.word();
        self.inhib_context[i] = arcs.inhib_context.word();
        self.inhib_pr[i] = arcs.inhib_pr.word();
        self.count = i + 1;
    }

    /// Transition i, to be looked at.
    #[inline(always)]
    pub(crate) fn row(&self, i: usize) -> Row<'_>
        requires { i < 192 }
        ensures { arcs_in result ≡ row self.now i }
    {
        Row {
            table: self,
            number: i,
        }
    }

    /// Transition i.
    pub fn arcs(&self, i: usize) -> Arcs
        requires { i < 192 }
        ensures { result ≡ row self.now i }
    {
        Arcs {
            priority: self.priority[i],
            takes_context: Set::of_word(self.takes_context[i]),
            takes_pr: Set::of_word(self.takes_pr[i]),
            takes_not: Set::of_word(self.takes_not[i]),
            gives_context: Set::of_word(self.gives_context[i]),
            gives_pr: Set::of_word(self.gives_pr[i]),
            gives_not: Set::of_word(self.gives_not[i]),
            inhib_context: Set::of_word(self.inhib_context[i]),
            inhib_pr: Set::of_word(self.inhib_pr[i]),
        }
    }

    /// Whether transition i is ready.
    #[inline(always)]
    #[tactic(auto, unfolding(crate::specs::Walks::ready_row))]
    fn is_ready(&self, i: usize, marked: &Marked, spare: Set) -> bool
        requires { i < 192 }
        ensures { result ≡ ready_row self.now marked.now spare i }
    {
        marked.passes(&self.row(i), spare)
    }

    /// The first ready one of the activations and deactivations, act(c) at 2c and deac(c) behind
    /// it. A context where neither may be ready is passed over.
    fn first_own(&self, contexts: usize, marked: &Marked, spare: Set) -> Option<usize>
        requires { contexts ≤ 48 }
        ensures { FindsOwn contexts self.now marked.now spare result }
    {
        for c in marked.movable(spare).below(contexts).iter() {
            let act = 2 * c;
            if self.is_ready(act, marked, spare) {
                return Some(act);
            }
            let deac = 2 * c + 1;
            if self.is_ready(deac, marked, spare) {
                return Some(deac);
            }
        }
        None
    }

    /// Of the other transitions the first ready one of the higher priority, or else the first ready
    /// one.
    fn first_extra(&self, contexts: usize, marked: &Marked, spare: Set) -> Option<usize>
        requires { contexts ≤ 48 }
        ensures { PrefersUrgent contexts self.now marked.now spare result }
    {
        let mut late = None;
        for i in 2 * contexts..self.count {
            let row = self.row(i);
            if !marked.passes(&row, spare) {
                continue;
            }
            match row.priority() {
                Priority::Urgent => return Some(i),
                Priority::Late => late = late.or(Some(i)),
            }
        }
        late
    }

    /// The enabled transition of the lowest number in a net of so many contexts, where these places
    /// are marked, and `spare` holds the contexts below their capacity.
    pub fn next(&self, contexts: usize, marked: &Marked, spare: Set) -> Option<usize>
        requires { contexts ≤ 48 }
        ensures { Chooses contexts self.now marked.now spare result }
    {
        self.first_own(contexts, marked, spare)
            .or_else(|| self.first_extra(contexts, marked, spare))
    }
}
