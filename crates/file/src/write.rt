//! Writing a model's file.
ghost use Rattle.std.specs.Prelude.{◌≡◌, ◌^◌, ◌<◌, ◌≤◌, T, ◌↔◌, length, MatchResult};
ghost use Rattle.legend.specs.Legends.{names_of};
ghost use Rattle.file.specs.Writing.{Refused, Written, fault_number};

use crate::contents::{Contents, is_covered};
use legend::Legend;
use list::List;
use model::game::Game;
use refusal::Numbered;
use sets::bits::is_below;
use thiserror::Error;

/// Why a model isn't written.
#[derive(Clone, Copy, PartialEq, Eq, Debug, Error)]
pub enum WriteFault {
    #[error("a mark that some state carries has no name")]
    Unnamed = 35,
    #[error("there are fewer bytes than the file has")]
    Bytes = 36,
}

impl Numbered for WriteFault {
    ghost number_of = { fault_number };

    fn number(self) -> u8 {
        self as u8
    }
}

/// Whether each of the marks is one of the first `names`.
pub fn among(marks: u16, names: u8) -> bool
    ensures { T result ↔ (marks < 2 ^ names) }
{
    is_below(u64::from(marks), names)
}

/// Writes the file of a model and its legend, and answers the file's length; the bytes past it stay as they were.
#[tactic(auto, using(crate::proofs::Putting::written))]
pub fn write<G: Game>(g: &G, legend: &Legend, bytes: &mut [u8]) -> Result<usize, WriteFault>
    ensures { MatchResult result (λ len. Written (G.Game.model g.now) (names_of legend.now) bytes.old bytes.new len) (λ f. Refused (G.Game.model g.now) (names_of legend.now) (length bytes.old) f × (bytes.new ≡ bytes.old)) }
{
    if !is_covered(g, legend) {
        return Err(WriteFault::Unnamed);
    }
    let contents = Contents::new(g, legend);
    let len = contents.length();
    if bytes.len() < len {
        return Err(WriteFault::Bytes);
    }
    contents.put(&mut List::empty(bytes));
    Ok(len)
}
