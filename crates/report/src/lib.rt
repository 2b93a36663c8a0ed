//! The listing calls: a job goes in, a listing comes out.
#![tactic(auto)]

pub mod fault;
mod listing;
mod question;

pub use question::ask;
