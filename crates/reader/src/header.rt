//! The first command of a file.
ghost use Rattle.std.specs.Prelude.{◌≤◌};

mod begin;

/// How many agents, states and marks a file declares: never out of range.
#[derive(Clone, Copy)]
pub(crate) struct Header {
    pub(crate) agents: u8,
    pub(crate) states: u8,
    pub(crate) marks: u8,
    ghost agents_ranged: { (1 ≤ agents) × (agents ≤ 6) },
    ghost states_ranged: { (1 ≤ states) × (states ≤ 64) },
    ghost marks_ranged: { marks ≤ 16 },
}

pub(crate) use begin::read_begin;
