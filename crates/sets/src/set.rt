//! A set, and what is asked of it.
ghost use Rattle.std.specs.Prelude.{ℕ, ◌≡◌, get_or, ◌<◌, ◌≤◌, eqb, IsNone, IfSome, ◌↔◌};
ghost use Rattle.std.specs.Int.{w64, to_le_bytes};
ghost use Rattle.model.specs.Sets.{empty_set, singleton, number};
ghost use Rattle.sets.specs.Sets.{members, union, common, minus, differing, insert, remove, assigned, within, apart, upto, byte_of, Least};

use crate::Members;
use std::marker::Model;

/// A set of numbers below 64.
#[derive(Clone, Copy, Debug, Default, PartialEq, Eq)]
pub struct Set {
    word: u64,
}

// Clauses see the word: what `members` reads in it is the set.
impl Model for Set {
    ghost use Rattle.std.specs.Prelude.{ℕ};

    ghost Value = { ℕ };

    ghost view = { λ s. s.word };

    ghost inverse = { λ m. record { word = m } };
}

impl Set {
    /// The set without members.
    #[tactic(auto, using(crate::proofs::Laws::zero_holds))]
    pub fn empty() -> Self
        ensures word { result ≡ 0 }
        ensures members { result ≡ number 64 empty_set }
    {
        Set { word: 0 }
    }

    /// The set that a word holds.
    pub fn of_word(word: u64) -> Self
        ensures { result ≡ word }
    {
        Set { word }
    }

    /// The word that holds the set.
    pub fn word(self) -> u64
        ensures { result ≡ self }
    {
        let Set { word } = self;
        word
    }

    /// The set of c alone.
    #[tactic(auto, using(crate::proofs::Words::single_64))]
    pub fn singleton(c: usize) -> Self
        requires { c < 64 }
        ensures { result ≡ number 64 (singleton c) }
    {
        Set { word: 1 << c }
    }

    /// Puts c into the set.
    #[tactic(auto, using(crate::proofs::Words::with_word))]
    pub fn insert(&mut self, c: usize)
        requires { c < 64 }
        ensures { self.new ≡ number 64 (insert c (members self.old)) }
    {
        self.word |= Set::singleton(c).word;
    }

    /// Takes c out of the set.
    #[tactic(auto, using(crate::proofs::Words::without_64))]
    pub fn remove(&mut self, c: usize)
        requires { c < 64 }
        ensures { self.new ≡ number 64 (remove c (members self.old)) }
    {
        self.word &= !Set::singleton(c).word;
    }

    /// Has c in the set where the test holds, and not in it otherwise.
    pub fn assign(&mut self, c: usize, test: bool)
        requires { c < 64 }
        ensures { self.new ≡ number 64 (assigned (members self.old) c test) }
    {
        if test {
            self.insert(c);
        } else {
            self.remove(c);
        }
    }

    /// The members of both.
    #[tactic(auto, using(crate::proofs::Words::union_word))]
    pub fn union(self, other: Self) -> Self
        ensures { result ≡ number 64 (union (members self) (members other)) }
    {
        Set {
            word: self.word | other.word,
        }
    }

    /// The members that the two have in common.
    #[tactic(auto, using(crate::proofs::Words::common_word))]
    pub fn intersection(self, other: Self) -> Self
        ensures { result ≡ number 64 (common (members self) (members other)) }
    {
        Set {
            word: self.word & other.word,
        }
    }

    /// The members that are not in the other.
    #[tactic(auto, using(crate::proofs::Words::minus_64))]
    pub fn difference(self, other: Self) -> Self
        ensures { result ≡ number 64 (minus (members self) (members other)) }
    {
        Set {
            word: self.word & !other.word,
        }
    }

    /// The members of one of the two alone.
    #[tactic(auto, using(crate::proofs::Laws::joined_holds))]
    pub fn symmetric_difference(self, other: Self) -> Self
        ensures { result ≡ number 64 (differing (members self) (members other)) }
    {
        let left = self.difference(other);
        left.union(other.difference(self))
    }

    /// Whether the other has all members of this one.
    #[tactic(auto, using(crate::proofs::Words::within_word))]
    pub fn is_subset(self, other: Self) -> bool
        ensures { result ≡ within 64 (members self) (members other) }
    {
        self.word & other.word == self.word
    }

    /// Whether the two have no member in common.
    #[tactic(auto, using(crate::proofs::Words::apart_word))]
    pub fn is_disjoint(self, other: Self) -> bool
        ensures { result ≡ apart 64 (members self) (members other) }
    {
        self.word & other.word == 0
    }

    /// Whether c is in the set.
    #[tactic(auto, unfolding(crate::specs::Sets::members))]
    pub fn contains(self, c: usize) -> bool
        requires { c < 64 }
        ensures { result ≡ members self c }
    {
        (self.word >> c) % 2 == 1
    }

    /// Whether the set has no member.
    pub fn is_empty(self) -> bool
        ensures { result ≡ eqb self 0 }
    {
        self.word == 0
    }

    /// The least member.
    #[tactic(auto, using(crate::proofs::Least::least_64, crate::proofs::Least::inside_64))]
    pub fn first(self) -> Option<usize>
        ensures none { IsNone result ↔ (self ≡ 0) }
        ensures some { IfSome result (Least (members self)) }
        ensures inside { IfSome result (λ c. c < 64) }
    {
        match self.word() {
            0 => None,
            word => Some(word.trailing_zeros() as usize),
        }
    }

    /// The members below a limit.
    #[tactic(auto, using(crate::proofs::Least::below_word, crate::proofs::Least::whole_word))]
    pub fn below(self, end: usize) -> Self
        requires { end ≤ 64 }
        ensures { result ≡ number 64 (upto end (members self)) }
    {
        if end == 64 {
            return self;
        }
        Set {
            word: self.word % Set::singleton(end).word,
        }
    }

    /// The bytes of the word that holds the set, the low one first.
    pub fn to_le_bytes(self) -> [u8; 8]
        ensures word { result ≡ to_le_bytes w64 self }
        ensures bytes { (i : ℕ) → i < 8 → get_or result i 0 ≡ byte_of i (members self) }
    {
        self.word().to_le_bytes()
    }

    /// The members in rising order.
    pub fn iter(self) -> Members
        ensures { result ≡ self }
    {
        Members::of(self)
    }
}
