//! Reading and writing, one after the other.
ghost use Rattle.std.specs.Prelude.{◌≡◌, length, MatchResult};
ghost use Rattle.model.specs.Tables.{model_of};
ghost use Rattle.legend.specs.Legends.{names_of};
ghost use Rattle.file.specs.Writing.{Refused};
ghost use Rattle.reader.specs.declared.round.CopyFault.TheVariants as copy;
ghost use Rattle.reader.specs.Rounds.{Copied, Uncopied, Restored};

use crate::fault::FileFault;
use crate::model_file::read;
use file::write::{WriteFault, write};
use legend::Legend;
use model::game::{Game, Marked};
use model::table::Table;
use thiserror::Error;

/// Why a file isn't copied: it is refused, or it doesn't fit.
#[derive(Clone, Copy, PartialEq, Eq, Debug, Error)]
pub enum CopyFault {
    #[error("the file is refused: {0}")]
    Read(FileFault),
    #[error("the file doesn't fit: {0}")]
    Write(WriteFault),
}

// kept: the derive's From has no contract
impl From<FileFault> for CopyFault {
    ghost from_gives = { λ fault made. made ≡ copy.Read fault };

    fn from(fault: FileFault) -> CopyFault {
        CopyFault::Read(fault)
    }
}

// kept: the derive's From has no contract
impl From<WriteFault> for CopyFault {
    ghost from_gives = { λ fault made. made ≡ copy.Write fault };

    fn from(fault: WriteFault) -> CopyFault {
        CopyFault::Write(fault)
    }
}

/// Reads the file at the front of the input, and writes the model that it spells: the same bytes.
pub fn copy(input: &[u8], bytes: &mut [u8]) -> Result<usize, CopyFault>
    ensures { MatchResult result (λ len. Copied input.now bytes.old bytes.new len) (λ f. Uncopied input.now (length bytes.old) f × (bytes.new ≡ bytes.old)) }
{
    let mut table = Table::blank();
    let mut legend = Legend::empty();
    read(input, &mut table, &mut legend)?;
    Ok(write(&table, &legend, bytes)?)
}

/// Writes a model and its legend, and reads them back: the same model and the same names.
pub fn restore<G: Game>(
    g: &G,
    legend: &Legend,
    bytes: &mut [u8],
) -> Result<(Table, Legend), WriteFault>
    ensures { MatchResult result (λ x. Restored (G.Game.model g.now) (names_of legend.now) bytes.old bytes.new (model_of x.0) (names_of x.1)) (λ f. Refused (G.Game.model g.now) (names_of legend.now) (length bytes.old) f × (bytes.new ≡ bytes.old)) }
{
    write(g, legend, bytes)?;
    let mut table = Table::blank();
    let mut back = Legend::empty();
    read(bytes, &mut table, &mut back).unwrap();
    Ok((table, back))
}
