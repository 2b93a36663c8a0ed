//! The veil: a model of which only some marks are seen.
ghost use Rattle.std.specs.Prelude.{◌≡◌};
ghost use Rattle.model.specs.Kinds.{veiled, veiled_marks};
ghost use Rattle.std.proofs.Common.{arith, rules};
ghost use Rattle.std.proofs.lemmas.Nat.{and_le_l};

use crate::game::{Game, Marked};

/// The model `under`, with only the marks in `mask`.
#[derive(Clone, Copy, Drop)]
pub struct Veil<G> {
    under: G,
    mask: u16,
}

impl<G> Veil<G> {
    /// The model with only the marks in the mask.
    pub fn new(under: G, mask: u16) -> Veil<G>
        ensures { (result.under ≡ under) × (result.mask ≡ mask) }
    {
        Veil { under, mask }
    }
}

impl<G: Marked> Marked for Veil<G> {
    ghost marked = { λ v. veiled_marks v.mask (G.Marked.marked v.under) };

    ghost in_range = { λ x.
        let r = G.Marked.in_range x.under in
        record { states = r.states; sixteen = λ s h. omega (arith, r.sixteen s h, and_le_l ((G.Marked.marked x.under).marks s) x.mask) } };

    fn states(&self) -> u8 {
        self.under.states()
    }

    fn marks(&self, s: u8) -> Option<u16> {
        self.under.marks(s).map(|marks| marks & self.mask)
    }
}

impl<G: Game> Game for Veil<G> {
    ghost model = { λ v. veiled v.mask (G.Game.model v.under) };

    ghost tied = { Prim.search rules };

    ghost ranged = { λ x.
        let r = G.Game.ranged x.under in
        record {
          states = r.states;
          agents = r.agents;
          sixteen = λ s h. omega (arith, r.sixteen s h, and_le_l ((G.Game.model x.under).marks s) x.mask);
          choices = r.choices;
          product = r.product;
          inside = r.inside;
        } };

    fn agents(&self) -> u8 {
        self.under.agents()
    }

    fn choices(&self, s: u8, a: u8) -> Option<u8> {
        self.under.choices(s, a)
    }

    fn out(&self, s: u8, j: u8) -> Option<u8> {
        self.under.out(s, j)
    }
}
