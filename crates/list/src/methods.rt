//! What can be done with a list.
ghost use Rattle.std.specs.Prelude.{◌≡◌, ◌<◌, ◌≤◌, [], ◌∷◌, length, MatchOption, MatchResult, slice_index_or};
ghost use Rattle.list.specs.Lists.{full_number, items, room, Emptied, Puts, Kept, Refilled};

use super::{Full, List};
use refusal::Numbered;

impl Numbered for Full {
    ghost number_of = { λ _. full_number };

    fn number(self) -> u8 {
        51
    }
}

impl<'a, T: Copy> List<'a, T> {
    /// The empty list over these places, which stay as they are.
    pub fn empty(places: &'a mut [T]) -> List<'a, T>
        ensures count { result.count ≡ 0 }
        ensures places { result.places.now ≡ places.old }
        ensures named { result.places.ghost_name ≡ places.entry.ghost_name }
    {
        List { places, count: 0 }
    }

    /// Makes the list empty; the places stay as they are.
    pub fn clear(&mut self)
        ensures { Emptied self.old self.new }
    {
        self.count = 0;
    }

    /// How many items it has.
    pub fn count(&self) -> usize
        ensures { result ≡ length (items self.now) }
    {
        self.items().len()
    }

    /// How many places there are, taken or not.
    pub fn size(&self) -> usize
        ensures { result ≡ length self.now.places.now }
    {
        self.places.len()
    }

    /// The items, as a part of the places.
    pub fn items(&self) -> &[T]
        ensures { result.now ≡ items self.now }
    {
        &self.places[0..self.count]
    }

    /// Item number `i`, or none from the count on.
    pub fn at(&self, i: usize) -> Option<T>
        ensures { MatchOption result (length (items self.now) ≤ i) (λ x. (i < length (items self.now)) × (x ≡ slice_index_or (items self.now) i x)) }
    {
        self.items().get(i).copied()
    }

    /// Adds an item after the others, where a place is left; else the list and every place stay as they are.
    pub fn add(&mut self, x: T) -> Result<(), Full>
        ensures { MatchResult result (λ _. (0 < room self.old) × Puts self.old self.new (x ∷ [])) (λ _. (room self.old ≡ 0) × Kept self.old self.new) }
    {
        // kept: with `get_mut` and `ok_or` the proof didn't close, since nothing is known of the places after the loan
        if self.count < self.size() {
            self.places[self.count] = x;
            self.count += 1;
            Ok(())
        } else {
            Err(Full)
        }
    }

    /// Adds these items after the others, where places for all are left; else the list and every place stay as they are.
    pub fn extend(&mut self, xs: &[T]) -> Result<(), Full>
        ensures { MatchResult result (λ _. (length xs.now ≤ room self.old) × Puts self.old self.new xs.now) (λ _. (room self.old < length xs.now) × Kept self.old self.new) }
    {
        if self.size() - self.count < xs.len() {
            return Err(Full);
        }
        let end = self.count + xs.len();
        self.places[self.count..end].copy_from_slice(xs);
        self.count = end;
        Ok(())
    }

    /// Makes the list hold just these items, where there are places for all; else the list and every place stay as they are.
    pub fn fill(&mut self, xs: &[T]) -> Result<(), Full>
        ensures { MatchResult result (λ _. Refilled self.old self.new xs.now) (λ _. (length self.old.places.now < length xs.now) × Kept self.old self.new) }
    {
        if self.size() < xs.len() {
            return Err(Full);
        }
        self.clear();
        self.extend(xs)
    }
}
