//! Questions of alternating-time temporal logic, and where they hold.
#![tactic(auto)]

mod answer;
pub mod fixpoint;
pub mod line;
mod lines;
mod rule;

pub use answer::evaluate;
pub use lines::with_mark;
