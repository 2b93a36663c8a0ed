//! What the agents of a coalition choose in each joint move.
ghost use Rattle.std.specs.Prelude.{◌≤◌};

mod extend;

/// What the first agents choose in each of their `width` joint moves, those of a coalition alone: one of `count` own choices.
#[derive(Drop)]
pub(crate) struct Parts {
    // kept: a vector of fixed capacity (arrayvec) writes its length at each push; `width` is written once for each agent
    pub(crate) own: [u8; 64],
    pub(crate) width: u8,
    pub(crate) count: u8,
    ghost some: { 1 ≤ width },
    ghost few: { count ≤ width },
}
