//! Sets of states and coalitions of agents, each a word whose bits are its members.
#![tactic(auto)]

pub mod bits;
pub mod coalition;
pub mod state_set;
