//! A state's own command.

mod read;

use model::state::State;

/// A state that was read, and how many joint moves it has.
// kept: `Row` of `model` has the same fields, but is private there
#[derive(Clone, Copy)]
pub(crate) struct Head {
    pub(crate) state: State,
    pub(crate) joint: u8,
}
