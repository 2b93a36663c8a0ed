//! Question text: from its bytes to the lines of a question.
#![tactic(auto)]

mod cursor;
pub mod fault;
mod lexer;
mod parser;
mod parts;
mod question;
mod reader;
mod runs;
mod terms;
mod token;

pub use question::parse;
