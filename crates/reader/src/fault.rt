//! Why a file is refused, and where.
ghost use Rattle.reader.specs.Faults.{rule_number};

use refusal::{Fault, Numbered, Rule};
use thiserror::Error;

/// What a file breaks.
#[derive(Clone, Copy, PartialEq, Eq, Debug, Error)]
pub enum FileRule {
    #[error("the bytes end before END is whole")]
    Short = 1,
    #[error("another command was due")]
    Due = 2,
    #[error("an operand of BEGIN is out of range")]
    Begin = 3,
    #[error("NAME breaks a rule")]
    Name = 4,
    #[error("STATE has a mark that was not declared")]
    Mark = 5,
    #[error("a count or the product of the counts is out of range, or a count past the agents isn't 0")]
    Count = 6,
    #[error("OUT is not a state")]
    Out = 7,
    #[error("END's number differs from the number of OUTs")]
    End = 8,
}

impl Numbered for FileRule {
    ghost number_of = { rule_number };

    fn number(self) -> u8 {
        self as u8
    }
}

impl Rule for FileRule {}

/// The rule that a file breaks, and the place of the command at which it is found.
pub type FileFault = Fault<FileRule>;
