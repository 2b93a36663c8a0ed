//! What a coalition can bring about in one step.
#![tactic(auto)]

mod enforce;
mod own;
mod parts;

pub use enforce::{able, can};
pub use own::{own_choice, own_choices};
