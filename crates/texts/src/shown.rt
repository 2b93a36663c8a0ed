//! A line of a question as the table shows it.
use logic::line::Line;
use std::fmt;

/// It prints as `mark(0)` or `until(1;1,3)`: the coalition by its number, the lines below by theirs.
#[derive(Clone, Copy)]
pub(crate) struct Shown(pub(crate) Line);

impl fmt::Display for Shown {
    fn fmt<W: fmt::Write>(&self, f: &mut fmt::Formatter<W>) -> fmt::Result {
        match self.0 {
            Line::True => write!(f, "true"),
            Line::Mark(mark) => write!(f, "mark({mark})"),
            Line::Not(a) => write!(f, "not({a})"),
            Line::And(a, b) => write!(f, "and({a},{b})"),
            Line::Or(a, b) => write!(f, "or({a},{b})"),
            Line::Next(who, a) => write!(f, "next({};{a})", u8::from(who)),
            Line::Always(who, a) => write!(f, "always({};{a})", u8::from(who)),
            Line::Until(who, a, b) => write!(f, "until({};{a},{b})", u8::from(who)),
        }
    }
}
