//! What follows BEGIN: the states one after another, and END.
ghost use Rattle.std.specs.Prelude.{◌≡◌, ℕ, ◌<◌, ◌≤◌, List, [], ◌∷◌, ◌++◌, length, MatchResult, OnOk, slice_index_or};
ghost use Rattle.model.specs.Kinds.{nowhere};
ghost use Rattle.file.specs.File.{Command, finish, upto};
ghost use Rattle.file.specs.Reading.{Seen, after};
ghost use Rattle.reader.specs.Faults.{Refuses};
ghost use Rattle.reader.specs.Bodies.{row_commands};
ghost use Rattle.reader.specs.Heads.{Kept, Naming, body_seen};
ghost use Rattle.reader.specs.Sofar.{Reached};

use crate::cursor::Cursor;
use crate::fault::{FileFault, FileRule};
use crate::header::Header;
use file::kind::Kind;
use model::state::State;
use refusal::Rule;

/// A file whose BEGIN was read: where the reading is, and what BEGIN declares.
#[derive(Drop)]
pub(crate) struct Body<'a> {
    pub(crate) cursor: Cursor<'a>,
    pub(crate) header: Header,
}

impl<'a> Body<'a> {
    /// Reads all states, and answers how many outcomes they have.
    pub(crate) fn read_states(&mut self, states: &mut [State]) -> Result<u16, FileFault>
        requires { length states.old ≡ self.old.header.states }
        ensures header { self.new.header ≡ self.old.header }
        ensures kept { OnOk result ((t : ℕ) → t < self.old.header.states → Kept self.old.header (slice_index_or states.new t nowhere)) }
        ensures reads { (input : List ℕ) (cs : List Command) (names : List (List ℕ)) → length names ≡ self.old.header.marks → Reached input self.old.cursor cs (body_seen self.old.header names 0 0) → MatchResult result (λ total. Reached input self.new.cursor (cs ++ upto (row_commands self.old.header.agents states.new) self.old.header.states) (body_seen self.old.header names self.old.header.states total)) (Refuses input) }
    {
        let mut total = 0;
        for state in states.iter_mut() {
            let head = self.read_state()?;
            *state = head.state;
            total += u16::from(head.joint);
        }
        Ok(total)
    }

    /// Reads END, with the number of all outcomes.
    pub(crate) fn read_end(&mut self, total: u16) -> Result<(), FileFault>
        ensures header { self.new.header ≡ self.old.header }
        ensures reads { (input : List ℕ) (cs : List Command) (s : Seen) → Reached input self.old.cursor cs s → Naming s → s.left ≡ 0 → s.n ≤ s.states → s.outs ≡ total → MatchResult result (λ _. Reached input self.new.cursor (cs ++ finish total ∷ []) (after s (finish total))) (Refuses input) }
    {
        let place = self.cursor.place;
        let told = u16::from_be_bytes(self.cursor.take(Kind::End)?);
        if told != total {
            return Err(FileRule::End.at(place));
        }
        Ok(())
    }
}
