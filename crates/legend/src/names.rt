//! What can be done with a legend.
ghost use Rattle.std.specs.Prelude.{◌≡◌, ℕ, ◌<◌, [], ◌∷◌, ◌++◌, length, MatchOption, ◌≢◌, slice_index_or};
ghost use Rattle.std.specs.Option.{SomeIff};
ghost use Rattle.legend.specs.Names.{Lawful, padded};
ghost use Rattle.legend.specs.Legends.{names_of};

use super::Legend;
use crate::name::{is_name, pad};

impl Legend {
    /// No names.
    pub fn empty() -> Legend
        ensures { names_of result ≡ [] }
    {
        Legend {
            names: [[0; 8]; 16],
            count: 0,
        }
    }

    /// The names, in the order of their marks.
    pub fn names(&self) -> &[[u8; 8]]
        ensures { result.now ≡ names_of self.now }
    {
        &self.names[..self.count as usize]
    }

    /// How many names there are.
    pub fn count(&self) -> u8
        ensures { result ≡ length (names_of self.now) }
    {
        self.names().len() as u8
    }

    /// The name of a mark, or none from the count on.
    pub fn name(&self, mark: u8) -> Option<[u8; 8]>
        ensures { SomeIff result (mark < length (names_of self.now)) (slice_index_or (names_of self.now) mark []) }
    {
        self.names().get(mark as usize).copied()
    }

    /// The mark that eight bytes name, or none.
    fn position(&self, name: &[u8; 8]) -> Option<u8>
        ensures { MatchOption result ((i : ℕ) → i < length (names_of self.now) → slice_index_or (names_of self.now) i [] ≢ name.now) (λ i. (i < length (names_of self.now)) × (slice_index_or (names_of self.now) i [] ≡ name.now)) }
    {
        let mark = self.names().iter().position(|n| n == name)?;
        Some(mark as u8)
    }

    /// The mark whose name is this word with spaces to its right, or none.
    pub fn find(&self, word: &[u8]) -> Option<u8>
        ensures { MatchOption result ((i : ℕ) → i < length (names_of self.now) → slice_index_or (names_of self.now) i [] ≢ padded word.now) (λ i. (i < length (names_of self.now)) × (slice_index_or (names_of self.now) i [] ≡ padded word.now)) }
    {
        self.position(&pad(word)?)
    }

    /// Adds a name for the next mark and answers the mark's number, or answers none and leaves the legend where the names would break the rule.
    pub fn add(&mut self, name: [u8; 8]) -> Option<u8>
        ensures { MatchOption result ((self.new ≡ self.old) × (Lawful (names_of self.old ++ name ∷ []) → ⊥)) (λ i. (i ≡ length (names_of self.old)) × (names_of self.new ≡ names_of self.old ++ name ∷ []) × (Lawful (names_of self.old) → Lawful (names_of self.old ++ name ∷ []))) }
    {
        if self.count >= 16 || !is_name(&name) || self.position(&name).is_some() {
            return None;
        }
        let mark = self.count;
        self.names[mark as usize] = name;
        self.count = mark + 1;
        Some(mark)
    }
}
