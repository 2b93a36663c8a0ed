//! The ring line as a model.
ghost use Rattle.std.specs.Prelude.{◌≡◌, ◌<◌, ◌≤◌, MatchResult};
ghost use Rattle.sets.specs.Sets.{limit};
ghost use Rattle.model.specs.Model.{marks_of};
ghost use Rattle.model.specs.Kinds.{ring, ring_number};
ghost use Rattle.std.proofs.Common.{rules};

use super::{NoRing, Ring};
use crate::game::{Game, Marked};
use refusal::Numbered;

impl Numbered for NoRing {
    ghost number_of = { λ _. ring_number };

    fn number(self) -> u8 {
        38
    }
}

impl Ring {
    /// The ring with so many positions, 1 to 64; else it is refused.
    pub fn new(positions: u8) -> Result<Ring, NoRing>
        ensures { MatchResult result (λ x. x.positions ≡ positions) (λ _. (1 ≤ positions) × (positions ≤ limit) → ⊥) }
    {
        if (1..=64).contains(&positions) {
            Ok(Ring { positions })
        } else {
            Err(NoRing)
        }
    }
}

impl Marked for Ring {
    ghost marked = { λ r. marks_of (ring r.positions) };

    ghost in_range = { Prim.search rules };

    fn states(&self) -> u8 {
        self.positions
    }

    fn marks(&self, s: u8) -> Option<u16> {
        (s < self.positions).then_some(u16::from(s == 0))
    }
}

impl Game for Ring {
    ghost model = { λ r. ring r.positions };

    ghost tied = { Prim.search rules };

    ghost ranged = { Prim.search rules };

    fn agents(&self) -> u8 {
        2
    }

    fn choices(&self, s: u8, a: u8) -> Option<u8> {
        (s < self.positions && a < 2).then_some(2)
    }

    fn out(&self, s: u8, j: u8) -> Option<u8> {
        if s >= self.positions {
            return None;
        }
        match j {
            0 | 3 => Some(s),
            1 => Some((s + 1) % self.positions),
            2 => Some((s + self.positions - 1) % self.positions),
            _ => None,
        }
    }
}
