//! Tables are made here: a blank one, and one of states that keep the ranges.
ghost use Rattle.std.specs.Prelude.{length, MatchOption};
ghost use Rattle.model.specs.Model.{Ranged, Same};
ghost use Rattle.model.specs.Kinds.{table_of, blank};
ghost use Rattle.model.specs.Tables.{model_of};

use super::Table;
use super::row::Row;
use crate::state::State;

impl Table {
    /// One state, one agent with one choice, no marks.
    pub fn blank() -> Table
        ensures { Same blank (model_of result) }
    {
        let state = State {
            marks: 0,
            counts: [1; 6],
            outcomes: [0; 64],
        };
        Table {
            states: 1,
            agents: 1,
            rows: [Row { state, joint: 1 }; 64],
        }
    }

    /// The model of these states, for so many agents, or none exactly where they break the ranges.
    pub fn from_states(agents: u8, states: &[State]) -> Option<Table>
        ensures { MatchOption result (Ranged (table_of (length states.now) agents states.now) → ⊥) (λ t. Ranged (table_of (length states.now) agents states.now) × Same (table_of (length states.now) agents states.now) (model_of t)) }
    {
        if !(1..=6).contains(&agents) || !(1..=64).contains(&states.len()) {
            return None;
        }
        let n = states.len() as u8;
        let unused = Row {
            state: states[0],
            joint: 1,
        };
        let mut rows = [unused; 64];
        // kept: with `rows.iter_mut().zip(states)` it stayed open what the rows hold after the loop, since nothing is known of a slice lent through an adapter
        for (s, state) in states.iter().enumerate() {
            let joint = state.moves_among(n, agents)?;
            rows[s] = Row {
                state: *state,
                joint,
            };
        }
        Some(Table {
            states: n,
            agents,
            rows,
        })
    }
}
