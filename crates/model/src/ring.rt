//! The ring line: positions in a ring, on which two agents push.
ghost use Rattle.std.specs.Prelude.{◌≤◌};
ghost use Rattle.sets.specs.Sets.{limit};

mod play;

use thiserror::Error;

/// A ring of 1 to 64 positions.
#[derive(Clone, Copy)]
pub struct Ring {
    positions: u8,
    ghost some: { 1 ≤ positions },
    ghost few: { positions ≤ limit },
}

/// The refusal of a ring with no positions or with too many.
#[derive(Clone, Copy, PartialEq, Eq, Debug, Error)]
#[error("a ring has 1 to 64 positions")]
pub struct NoRing;
