//! Whether a state that is written out keeps the ranges.
ghost use Rattle.std.specs.Option.{SomeIff};
ghost use Rattle.model.specs.Model.{everyone, moves};
ghost use Rattle.model.specs.Kinds.{counts_at, CountsRanged, StateRanged};

use super::State;

impl State {
    /// How many joint moves so many agents have here, or none where their counts break the ranges.
    pub fn joint_moves(self, agents: u8) -> Option<u8>
        ensures { SomeIff result (CountsRanged agents (counts_at self)) (moves everyone (counts_at self) agents) }
    {
        // kept: with `try_fold` it stayed open which number it yields, and that none means that the counts break the ranges
        let mut joint = 1;
        for d in self.counts.get(0..agents as usize)? {
            if *d < 1 || *d > 64 / joint {
                return None;
            }
            joint *= *d;
        }
        Some(joint)
    }

    /// The same, or none also where an outcome is not among so many states.
    pub fn moves_among(self, states: u8, agents: u8) -> Option<u8>
        ensures { SomeIff result (StateRanged states agents self) (moves everyone (counts_at self) agents) }
    {
        let joint = self.joint_moves(agents)?;
        let outcomes = &self.outcomes[0..joint as usize];
        outcomes.iter().all(|t| *t < states).then_some(joint)
    }
}
