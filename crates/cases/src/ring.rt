//! The ring line with 6 positions.
use crate::put::ask_all;
use anyhow::Context;
use logic::line::Line;
use model::game::Game;
use model::ring::Ring;
use sets::coalition::Coalition;

/// Where the joint moves at position 0 lead: nobody pushes, agent 0, agent 1, both.
fn outcomes(rt: &HostRuntime, ring: &Ring) -> anyhow::Result<()> {
    print!(rt; "ring 6: outcomes at 0:")?;
    for t in (0..4).filter_map(|j| ring.out(0, j)) {
        print!(rt; " {t}")?;
    }
    println!(rt; "")?;
    Ok(())
}

/// Both agents together, nobody, and each agent alone: the two push in opposite directions.
pub(crate) fn ring_cases(rt: &HostRuntime) -> anyhow::Result<()> {
    let ring = Ring::new(6).context("a ring of 6 positions is refused")?;
    outcomes(rt, &ring)?;
    let nobody = Coalition::from(0);
    let first = Coalition::from(1);
    let second = Coalition::from(2);
    let both = Coalition::from(3);
    let marked = Line::Mark(0);
    let unmarked = Line::Not(0);
    let questions: [(&str, &[Line]); 7] = [
        ("ring 6: next 3 of mark 0", &[marked, Line::Next(both, 0)]),
        (
            "ring 6: next 0 of not mark 0",
            &[marked, unmarked, Line::Next(nobody, 1)],
        ),
        (
            "ring 6: until 1 of true, mark 0",
            &[marked, Line::True, Line::Until(first, 1, 0)],
        ),
        (
            "ring 6: always 1 of not mark 0",
            &[marked, unmarked, Line::Always(first, 1)],
        ),
        (
            "ring 6: next 2 of not mark 0",
            &[marked, unmarked, Line::Next(second, 1)],
        ),
        (
            "ring 6: until 2 of true, mark 0",
            &[marked, Line::True, Line::Until(second, 1, 0)],
        ),
        (
            "ring 6: always 2 of not mark 0",
            &[marked, unmarked, Line::Always(second, 1)],
        ),
    ];
    ask_all(rt, &ring, &questions)
}
