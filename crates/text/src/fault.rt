//! Why a text is refused, and where.
ghost use Rattle.text.specs.Faults.{rule_number};

use refusal::{Fault, Numbered, Rule};
use thiserror::Error;

/// What a text breaks.
#[derive(Clone, Copy, PartialEq, Eq, Debug, Error)]
pub enum TextRule {
    #[error("there is no such token, or it is not due")]
    Token = 11,
    #[error("a name is not in the legend")]
    Name = 12,
    #[error("an agent does not exist")]
    Agent = 13,
    #[error("a state is due at depth 33")]
    Depth = 14,
    #[error("the text is longer than 4,096 bytes")]
    Length = 15,
    #[error("the list has fewer places than the question has lines")]
    Places = 16,
}

impl Numbered for TextRule {
    ghost number_of = { rule_number };

    fn number(self) -> u8 {
        self as u8
    }
}

impl Rule for TextRule {}

/// The rule that a text breaks, and the place of the token at which it is found.
pub type TextFault = Fault<TextRule>;
