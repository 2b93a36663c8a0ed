//! The model file.
#![tactic(auto)]

mod contents;
pub mod kind;
mod put;
pub mod write;
