//! Sets of states, by their numbers.
ghost use Rattle.std.specs.Prelude.{◌≡◌, ℕ, ◌<◌, T, ◌⊎◌, ◌↔◌, MatchOption};
ghost use Rattle.sets.specs.Sets.{bit, limit, member, Lowest};

use crate::bits::is_set;

/// A set of states: state `s` is in it where bit `s` of the word is set.
#[derive(Clone, Copy, PartialEq, Eq, Debug)]
pub struct StateSet {
    bits: u64,
}

impl From<u64> for StateSet {
    ghost from_gives = { λ word result. (s : ℕ) → T (member result s) ↔ ((s < limit) × T (bit word s)) };

    /// The set of the states whose bits are set.
    fn from(word: u64) -> StateSet {
        StateSet { bits: word }
    }
}

impl From<StateSet> for u64 {
    ghost from_gives = { λ set result. (s : ℕ) → T (bit result s) ↔ T (member set s) };

    /// The word whose bits are the set's states.
    fn from(set: StateSet) -> u64 {
        set.bits
    }
}

impl StateSet {
    /// The set that holds nothing.
    pub fn empty() -> StateSet
        ensures { (s : ℕ) → T (member result s) → ⊥ }
    {
        StateSet::below(0)
    }

    /// The set of `s` alone; of nothing, past the limit.
    pub fn single(s: u8) -> StateSet
        ensures { (t : ℕ) → T (member result t) ↔ ((t ≡ s) × (t < limit)) }
    {
        if s < 64 {
            StateSet { bits: 1 << s }
        } else {
            StateSet::empty()
        }
    }

    /// The set of all states below `n`, up to the limit.
    pub fn below(n: u8) -> StateSet
        ensures { (t : ℕ) → T (member result t) ↔ ((t < n) × (t < limit)) }
    {
        if n < 64 {
            StateSet { bits: (1 << n) - 1 }
        } else {
            StateSet { bits: u64::MAX }
        }
    }

    /// Whether it holds `s`.
    pub fn contains(self, s: u8) -> bool
        ensures { result ≡ member self s }
    {
        is_set(self.bits, s)
    }

    /// Adds `s`, if it is below the limit.
    pub fn insert(&mut self, s: u8)
        ensures { (t : ℕ) → T (member self.new t) ↔ (T (member self.old t) ⊎ ((t ≡ s) × (t < limit))) }
    {
        *self = self.union(StateSet::single(s));
    }

    /// What is in either.
    pub fn union(self, other: StateSet) -> StateSet
        ensures { (s : ℕ) → T (member result s) ↔ (T (member self s) ⊎ T (member other s)) }
    {
        let bits = self.bits | other.bits;
        StateSet { bits }
    }

    /// What is in both.
    pub fn intersection(self, other: StateSet) -> StateSet
        ensures { (s : ℕ) → T (member result s) ↔ (T (member self s) × T (member other s)) }
    {
        let bits = self.bits & other.bits;
        StateSet { bits }
    }

    /// What is in this one and not in the other.
    pub fn difference(self, other: StateSet) -> StateSet
        ensures { (s : ℕ) → T (member result s) ↔ (T (member self s) × (T (member other s) → ⊥)) }
    {
        let bits = self.bits & !other.bits;
        StateSet { bits }
    }

    /// Whether it holds nothing.
    pub fn is_empty(self) -> bool
        ensures { T result ↔ ((s : ℕ) → T (member self s) → ⊥) }
    {
        self.bits == 0
    }

    /// Whether the other holds all that this one holds.
    pub fn is_subset(self, other: StateSet) -> bool
        ensures { T result ↔ ((s : ℕ) → T (member self s) → T (member other s)) }
    {
        self.difference(other).is_empty()
    }

    /// The lowest of its states, if it has one.
    pub fn lowest(self) -> Option<u8>
        ensures { MatchOption result ((s : ℕ) → T (member self s) → ⊥) (λ l. Lowest (member self) l) }
    {
        (0..64).find(|s| self.contains(*s))
    }
}
