//! When a question is refused, and what it leaves.
use logic::evaluate;
use logic::line::{Line, QuestionFault};
use model::ring::Ring;
use refusal::Numbered;
use sets::coalition::Coalition;
use sets::state_set::StateSet;
use std::process::Abort;
use std::test::Fail;

/// Puts the question to a ring of 6 positions in so many sets, and expects the refusal; the sets stay.
fn refused(
    rt: &impl Abort,
    lines: &[Line],
    room: usize,
    expected: QuestionFault,
    number: u8,
) -> Result<(), Fail> {
    let ring = Ring::new(6)?;
    let mut sets = [StateSet::single(9); 8];
    let places = sets.get_mut(..room).ok_or("too many sets")?;
    let Err(fault) = evaluate(&ring, lines, places) else {
        return Err(Fail::new("the question is accepted"));
    };
    assert_eq!(rt; fault, expected);
    assert_eq!(rt; fault.number(), number);
    assert!(rt; sets.iter().all(|set| u64::from(*set) == 512));
    Ok(())
}

#[test]
fn refusals(rt: HostRuntime) -> Result<(), Fail> {
    let three = Coalition::from(4);
    refused(&rt, &[], 8, QuestionFault::Length, 21)?;
    refused(&rt, &[Line::Not(0); 4097], 0, QuestionFault::Length, 21)?;
    refused(&rt, &[Line::Not(0); 4096], 8, QuestionFault::Sets, 22)?;
    refused(&rt, &[Line::Not(0); 2], 1, QuestionFault::Sets, 22)?;
    refused(&rt, &[Line::Not(0)], 1, QuestionFault::Line(0), 23)?;
    refused(
        &rt,
        &[Line::True, Line::Mark(16), Line::Not(9)],
        3,
        QuestionFault::Line(1),
        23,
    )?;
    refused(
        &rt,
        &[Line::True, Line::True, Line::Or(0, 2)],
        3,
        QuestionFault::Line(2),
        23,
    )?;
    refused(
        &rt,
        &[Line::True, Line::Next(three, 0)],
        8,
        QuestionFault::Line(1),
        23,
    )?;
    refused(
        &rt,
        &[Line::True, Line::Until(Coalition::from(3), 1, 0)],
        8,
        QuestionFault::Line(1),
        23,
    )
}

#[test]
fn accepted(rt: HostRuntime) -> Result<(), Fail> {
    let ring = Ring::new(6)?;
    let mut sets = [StateSet::single(9); 4];
    let lines = [
        Line::Mark(0),
        Line::Mark(15),
        Line::Next(Coalition::from(3), 0),
    ];
    assert!(rt; u64::from(evaluate(&ring, &lines, &mut sets)?) == 35);
    assert_eq!(rt; sets.map(u64::from), [1, 0, 35, 512]);
    Ok(())
}
