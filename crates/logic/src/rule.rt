//! Whether a question breaks a rule.
ghost use Rattle.std.specs.Prelude.{◌≡◌, T, ◌↔◌, MatchResult};
ghost use Rattle.logic.specs.Logic.{Rule};
ghost use Rattle.logic.specs.Questions.{line_of, fault_number, Accepted, Refused};

use crate::line::{Line, QuestionFault};
use refusal::Numbered;

impl Numbered for QuestionFault {
    ghost number_of = { fault_number };

    fn number(self) -> u8 {
        // kept: a case with a value has no number that `as` could read
        match self {
            QuestionFault::Length => 21,
            QuestionFault::Sets => 22,
            QuestionFault::Line(_) => 23,
        }
    }
}

/// Whether line number `i` of a question to so many agents breaks no rule.
fn keeps_rule(agents: u8, i: usize, line: Line) -> bool
    ensures { T result ↔ Rule agents i (line_of line) }
{
    match line {
        Line::True => true,
        Line::Mark(m) => m < 16,
        Line::Not(a) => usize::from(a) < i,
        Line::And(a, b) | Line::Or(a, b) => usize::from(a) < i && usize::from(b) < i,
        Line::Next(c, a) | Line::Always(c, a) => c.is_among(agents) && usize::from(a) < i,
        Line::Until(c, a, b) => { c.is_among(agents) && usize::from(a) < i && usize::from(b) < i }
    }
}

/// Judges a question to so many agents, to be answered in so many sets.
pub(crate) fn judge(agents: u8, lines: &[Line], room: usize) -> Result<(), QuestionFault>
    ensures { MatchResult result (λ _. Accepted agents lines.now room) (λ f. Refused agents lines.now room f) }
{
    if lines.is_empty() || lines.len() > 4096 {
        return Err(QuestionFault::Length);
    }
    if room < lines.len() {
        return Err(QuestionFault::Sets);
    }
    let broken = lines
        .iter()
        .enumerate()
        .position(|(i, line)| !keeps_rule(agents, i, *line));
    match broken {
        None => Ok(()),
        Some(i) => Err(QuestionFault::Line(i as u16)),
    }
}
