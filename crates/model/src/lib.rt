//! Concurrent game models: what a model answers, and the kinds of models.
#![tactic(auto)]

pub mod game;
pub mod pointed;
pub mod ring;
pub mod state;
pub mod table;
pub mod veil;
