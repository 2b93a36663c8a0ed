//! The outcomes of a state.
ghost use Rattle.std.specs.Prelude.{◌≡◌, ℕ, ◌<◌, List, ◌++◌, length, EachIndex, IfOk, MatchResult, OnOk, slice_index};
ghost use Rattle.model.specs.Model.{everyone, moves};
ghost use Rattle.model.specs.Kinds.{counts_at};
ghost use Rattle.file.specs.File.{Command, upto};
ghost use Rattle.file.specs.Reading.{Seen};
ghost use Rattle.reader.specs.Faults.{Refuses};
ghost use Rattle.reader.specs.Heads.{Kept, Naming, out_command, outs_seen, state_commands, state_seen};
ghost use Rattle.reader.specs.Sofar.{Reached};

use crate::body::Body;
use crate::cursor::Cursor;
use crate::fault::{FileFault, FileRule};
use crate::head::Head;
use file::kind::Kind;
use model::state::State;
use refusal::Rule;

/// Reads an OUT for each of a state's outcomes, of so many states.
fn read_outs(cursor: &mut Cursor, states: u8, outcomes: &mut [u8]) -> Result<(), FileFault>
    ensures inside { OnOk result (EachIndex outcomes.new (λ j. slice_index outcomes.new j < states)) }
    ensures reads { (input : List ℕ) (cs : List Command) (s : Seen) → Reached input cursor.old cs s → Naming s → s.left ≡ length outcomes.old → s.n ≡ states → MatchResult result (λ _. Reached input cursor.new (cs ++ upto (out_command outcomes.new) (length outcomes.new)) (outs_seen s (length outcomes.new))) (Refuses input) }
{
    for outcome in outcomes.iter_mut() {
        let place = cursor.place;
        let [state] = cursor.take::<1>(Kind::Out)?;
        if state >= states {
            return Err(FileRule::Out.at(place));
        }
        *outcome = state;
    }
    Ok(())
}

impl<'a> Body<'a> {
    /// Reads one STATE and its OUTs.
    pub(crate) fn read_state(&mut self) -> Result<Head, FileFault>
        ensures header { self.new.header ≡ self.old.header }
        ensures kept { IfOk result (λ x. Kept self.old.header x.state × (x.joint ≡ moves everyone (counts_at x.state) self.old.header.agents)) }
        ensures reads { (input : List ℕ) (cs : List Command) (s : Seen) → Reached input self.old.cursor cs s → Naming s → s.left ≡ 0 → s.states < s.n → s.k ≡ self.old.header.agents → s.m ≡ self.old.header.marks → s.n ≡ self.old.header.states → MatchResult result (λ x. Reached input self.new.cursor (cs ++ state_commands self.old.header.agents x.state) (state_seen s x.joint)) (Refuses input) }
    {
        let Head { state, joint } = self.read_head()?;
        // kept: after a loan of a part of `state.outcomes` itself a proof knows none of its bytes
        let mut outcomes = state.outcomes;
        read_outs(
            &mut self.cursor,
            self.header.states,
            &mut outcomes[..joint as usize],
        )?;
        Ok(Head {
            state: State { outcomes, ..state },
            joint,
        })
    }
}
