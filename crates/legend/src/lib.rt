//! The names of a model's marks.
#![tactic(auto)]

ghost use Rattle.std.specs.Prelude.{◌≤◌, take};
ghost use Rattle.legend.specs.Names.{Lawful};

mod name;
mod names;

pub use name::{is_name, pad, same};

/// Up to 16 different names, each of eight bytes: name number i stands for mark i.
// kept: a vector of fixed capacity (arrayvec) is not Copy, and a legend is, for its users
#[derive(Clone, Copy)]
pub struct Legend {
    names: [[u8; 8]; 16],
    count: u8,
    ghost few: { count ≤ 16 },
    ghost lawful: { ∥ Lawful (take count names) ∥₁ },
}
