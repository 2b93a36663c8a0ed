//! Reading model files.
#![tactic(auto)]

mod body;
mod cursor;
pub mod fault;
mod head;
mod header;
mod model_file;
mod names;
mod outs;
mod round;

pub use model_file::read;
pub use round::{CopyFault, copy, restore};
