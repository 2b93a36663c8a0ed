//! Tokens of question text.
ghost use Rattle.std.specs.Prelude.{◌≡◌};
ghost use Rattle.text.specs.declared.fault.TextRule.TheVariants as rule;

use crate::fault::{TextFault, TextRule};
use refusal::Rule;

/// A token; names and agents are the part of the text that they fill.
#[derive(Clone, Copy)]
pub(crate) enum Token<'a> {
    True,
    Name(&'a [u8]),
    Agents(&'a [u8]),
    Not,
    And,
    Or,
    Open,
    Close,
    Less,
    Greater,
    Next,
    Always,
    Until,
    End,
}

/// A token that was read, and the place of its first byte.
#[derive(Clone, Copy)]
pub(crate) struct Read<'a> {
    pub(crate) token: Token<'a>,
    pub(crate) place: usize,
}

/// The fault that the token at this place is not due, or is none.
pub(crate) fn undue(place: usize) -> TextFault
    ensures rule { result.rule ≡ rule.Token }
    ensures place { result.place ≡ place }
{
    TextRule::Token.at(place)
}
