//! One row of a table.
use crate::state::State;

/// A state, and how many joint moves it has.
#[derive(Clone, Copy)]
pub(crate) struct Row {
    pub(crate) state: State,
    pub(crate) joint: u8,
}
