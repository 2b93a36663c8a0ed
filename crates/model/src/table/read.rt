//! The table as a model.
ghost use Rattle.std.specs.Prelude.{◌≡◌, ◌<◌, MatchOption};
ghost use Rattle.model.specs.Model.{marks_of};
ghost use Rattle.model.specs.Rows.{row_at};
ghost use Rattle.model.specs.Tables.{model_of};
ghost use Rattle.std.proofs.Common.{rules};

use super::Table;
use super::row::Row;
use crate::game::{Game, Marked};

impl Table {
    /// The row of a state, or none where the state doesn't exist.
    fn row(&self, s: u8) -> Option<&Row>
        ensures { MatchOption result (s < self.now.states → ⊥) (λ r. (s < self.now.states) × (r.now ≡ row_at self.now.rows s)) }
    {
        self.rows[..self.states as usize].get(s as usize)
    }
}

impl Marked for Table {
    ghost marked = { λ t. marks_of (model_of t) };

    ghost in_range = { λ x. record { states = x.kept.ranged.states; sixteen = x.kept.ranged.sixteen } };

    fn states(&self) -> u8 {
        self.states
    }

    fn marks(&self, s: u8) -> Option<u16> {
        self.row(s).map(|row| row.state.marks)
    }
}

impl Game for Table {
    ghost model = { model_of };

    ghost tied = { Prim.search rules };

    ghost ranged = { λ x. x.kept.ranged };

    fn agents(&self) -> u8 {
        self.agents
    }

    fn choices(&self, s: u8, a: u8) -> Option<u8> {
        let counts = &self.row(s)?.state.counts;
        counts[..self.agents as usize].get(a as usize).copied()
    }

    fn out(&self, s: u8, j: u8) -> Option<u8> {
        let row = self.row(s)?;
        row.state.outcomes[..row.joint as usize]
            .get(j as usize)
            .copied()
    }
}
