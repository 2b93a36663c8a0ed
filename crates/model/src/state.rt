//! One state of a table.

mod range;

/// The marks of a state, how many choices each agent has there, and the state that follows each joint move.
#[derive(Clone, Copy)]
pub struct State {
    pub marks: u16,
    pub counts: [u8; 6],
    pub outcomes: [u8; 64],
}
