//! STATE.
ghost use Rattle.std.specs.Prelude.{◌≡◌, ℕ, false, List, [], ◌∷◌, ◌++◌, length, IfOk, MatchResult};
ghost use Rattle.std.specs.Option.{SomeIff};
ghost use Rattle.model.specs.Model.{everyone, moves};
ghost use Rattle.model.specs.Kinds.{counts_at};
ghost use Rattle.file.specs.File.{Command, state, encode};
ghost use Rattle.file.specs.Reading.{Counts, Seen, after, due};
ghost use Rattle.reader.specs.Faults.{Refuses};
ghost use Rattle.reader.specs.Heads.{HeadOf};
ghost use Rattle.reader.specs.Sofar.{Reached};

use super::Head;
use crate::body::Body;
use crate::fault::{FileFault, FileRule};
use file::kind::Kind;
use file::write::among;
use model::state::State;
use refusal::Rule;

/// How many joint moves so many agents have at a state, or none where the six counts break the rule.
fn joint_of(x: State, agents: u8) -> Option<u8>
    ensures { SomeIff result (Counts agents x.counts) (moves everyone (counts_at x) agents) }
{
    let joint = x.joint_moves(agents)?;
    let others = &x.counts[agents as usize..];
    others.iter().all(|d| *d == 0).then_some(joint)
}

/// The state that these operands tell, without its outcomes.
fn state_of(operands: [u8; 8]) -> State
    ensures { (length result.counts ≡ 6) × (3 ∷ operands ≡ encode (state result.marks result.counts)) }
{
    // kept: with a pattern `[high, low, counts @ ..]` the function gets no proof, since a part of an array that a pattern binds is not covered
    State {
        marks: u16::from_be_bytes(operands[..2].try_into().unwrap()),
        counts: operands[2..].try_into().unwrap(),
        outcomes: [0; 64],
    }
}

impl<'a> Body<'a> {
    /// Reads one STATE.
    pub(crate) fn read_head(&mut self) -> Result<Head, FileFault>
        ensures header { self.new.header ≡ self.old.header }
        ensures head { IfOk result (HeadOf self.old.header) }
        ensures reads { (input : List ℕ) (cs : List Command) (s : Seen) → Reached input self.old.cursor cs s → s.ended ≡ false → due s ≡ 3 → s.k ≡ self.old.header.agents → s.m ≡ self.old.header.marks → MatchResult result (λ x. Reached input self.new.cursor (cs ++ state x.state.marks x.state.counts ∷ []) (after s (state x.state.marks x.state.counts))) (Refuses input) }
    {
        let place = self.cursor.place;
        let state = state_of(self.cursor.take(Kind::State)?);
        if !among(state.marks, self.header.marks) {
            return Err(FileRule::Mark.at(place));
        }
        let joint = joint_of(state, self.header.agents).ok_or(FileRule::Count.at(place))?;
        Ok(Head { state, joint })
    }
}
