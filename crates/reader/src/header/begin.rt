//! BEGIN.
ghost use Rattle.std.specs.Prelude.{◌≡◌, ℕ, List, [], MatchOption, MatchResult};
ghost use Rattle.file.specs.File.{begin};
ghost use Rattle.file.specs.Reading.{Keeps, nothing};
ghost use Rattle.reader.specs.Faults.{Refuses};
ghost use Rattle.reader.specs.Sofar.{Reached, named, opening};

use super::Header;
use crate::cursor::Cursor;
use crate::fault::{FileFault, FileRule};
use file::kind::Kind;
use refusal::Rule;

impl Header {
    /// The header of what BEGIN declares, or none where it is out of range.
    fn new(agents: u8, states: u8, marks: u8) -> Option<Header>
        ensures { MatchOption result (Keeps nothing (begin agents states marks) → ⊥) (λ h. (h.agents ≡ agents) × (h.states ≡ states) × (h.marks ≡ marks)) }
    {
        // kept: `then_some` makes the value before the test, where its ghost fields don't hold
        if (1..=6).contains(&agents) && (1..=64).contains(&states) && marks <= 16 {
            Some(Header {
                agents,
                states,
                marks,
            })
        } else {
            None
        }
    }
}

/// Reads BEGIN.
pub(crate) fn read_begin(cursor: &mut Cursor) -> Result<Header, FileFault>
    ensures { (input : List ℕ) → Reached input cursor.old [] nothing → MatchResult result (λ h. Reached input cursor.new (opening h []) (named h [])) (Refuses input) }
{
    let place = cursor.place;
    let [agents, states, marks] = cursor.take::<3>(Kind::Begin)?;
    Header::new(agents, states, marks).ok_or(FileRule::Begin.at(place))
}
