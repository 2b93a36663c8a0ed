//! Questions of 4,096 lines, for all coalitions in turn.
use logic::line::Line;
use sets::coalition::Coalition;

/// The coalition whose turn it is at line number `i`.
fn who(i: u16) -> Coalition {
    Coalition::from((i & 63) as u8)
}

/// The line before line number `i`.
fn last(i: u16) -> u16 {
    i.saturating_sub(1)
}

/// What can be brought about in one step, of the line before.
pub(crate) fn next(i: u16) -> Line {
    Line::Next(who(i), last(i))
}

/// What can be kept up for ever, of not mark 0.
pub(crate) fn always(i: u16) -> Line {
    Line::Always(who(i), 1)
}

/// What can be brought about in the end, of mark 0.
pub(crate) fn until(i: u16) -> Line {
    Line::Until(who(i), 2, 0)
}

/// Every kind of line in turn.
pub(crate) fn mixed(i: u16) -> Line {
    match i & 7 {
        0 => next(i),
        1 => always(i),
        2 => until(i),
        3 => Line::Not(last(i)),
        4 => Line::And(last(i), 1),
        5 => Line::Or(last(i), 0),
        6 => Line::Always(who(i), last(i)),
        _ => Line::Until(who(i), 1, last(i)),
    }
}

/// The question whose first lines are mark 0, its negation and true, and whose other lines `line` gives by their numbers.
pub(crate) fn question<F: Fn(u16) -> Line>(line: F) -> [Line; 4096]
    requires { F.IsAlwaysCallable line }
{
    let mut lines = [Line::Mark(0); 4096];
    lines[1] = Line::Not(0);
    lines[2] = Line::True;
    for (place, i) in lines.iter_mut().zip(0..4096).skip(3) {
        *place = line(i);
    }
    lines
}
