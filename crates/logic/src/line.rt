//! Questions: lists of lines, each pointing only at earlier lines.
use sets::coalition::Coalition;
use thiserror::Error;

/// One line of a question; its pointers are numbers of earlier lines.
#[derive(Clone, Copy, PartialEq, Eq, Debug)]
pub enum Line {
    True,
    Mark(u8),
    Not(u16),
    And(u16, u16),
    Or(u16, u16),
    Next(Coalition, u16),
    Always(Coalition, u16),
    Until(Coalition, u16, u16),
}

/// Why a question is refused.
#[derive(Clone, Copy, PartialEq, Eq, Debug, Error)]
pub enum QuestionFault {
    #[error("a question has 1 to 4,096 lines")]
    Length,
    #[error("there are fewer sets than lines")]
    Sets,
    /// The first line with a wrong pointer, mark or coalition.
    #[error("line {0} has a wrong pointer, mark or coalition")]
    Line(u16),
}
