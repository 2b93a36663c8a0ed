//! A table in which agent 0 has two choices and agent 1 has three, and every joint move leads elsewhere.
use crate::put::ask_all;
use ability::own_choice;
use anyhow::Context;
use logic::line::Line;
use model::state::State;
use model::table::Table;
use sets::coalition::Coalition;

/// A state that carries these marks and stays where it is.
fn end(marks: u16, here: u8) -> State {
    State {
        marks,
        counts: [1; 6],
        outcomes: [here; 64],
    }
}

/// From state 0 the joint move j leads to state j + 1, which alone carries mark j.
fn fan() -> Option<Table> {
    let mut outcomes = [0; 64];
    outcomes[..6].copy_from_slice(&[1, 2, 3, 4, 5, 6]);
    let start = State {
        marks: 0,
        counts: [2, 3, 0, 0, 0, 0],
        outcomes,
    };
    Table::from_states(
        2,
        &[
            start,
            end(1, 1),
            end(2, 2),
            end(4, 3),
            end(8, 4),
            end(16, 5),
            end(32, 6),
        ],
    )
}

/// The own choice of the coalition that each joint move at state 0 agrees with.
fn own(rt: &HostRuntime, table: &Table, number: u8) -> anyhow::Result<()> {
    print!(rt; "table: own choices of {number}:")?;
    let who = Coalition::from(number);
    for c in (0..6).filter_map(|j| own_choice(table, who, 0, j)) {
        print!(rt; " {c}")?;
    }
    println!(rt; "")?;
    Ok(())
}

/// Whether a coalition can bring about one of two marks in one step.
// kept: a question of another length is an array of another type, and its lines point by their numbers
fn next_of_two(who: u8, [a, b]: [u8; 2]) -> [Line; 4] {
    [
        Line::Mark(a),
        Line::Mark(b),
        Line::Or(0, 1),
        Line::Next(Coalition::from(who), 2),
    ]
}

/// Whether a coalition can bring about one of three marks in one step.
fn next_of_three(who: u8, [a, b, c]: [u8; 3]) -> [Line; 6] {
    [
        Line::Mark(a),
        Line::Mark(b),
        Line::Or(0, 1),
        Line::Mark(c),
        Line::Or(2, 3),
        Line::Next(Coalition::from(who), 4),
    ]
}

/// Another order of the agents, in the joint moves or in the own choices, would change these answers.
pub(crate) fn table_cases(rt: &HostRuntime) -> anyhow::Result<()> {
    let table = fan().context("the table breaks the ranges")?;
    for number in 0..4 {
        own(rt, &table, number)?;
    }
    let questions: [(&str, &[Line]); 4] = [
        (
            "table: next 1 of mark 0, 2 or 4",
            &next_of_three(1, [0, 2, 4]),
        ),
        (
            "table: next 1 of mark 0, 1 or 2",
            &next_of_three(1, [0, 1, 2]),
        ),
        ("table: next 2 of mark 2 or 3", &next_of_two(2, [2, 3])),
        ("table: next 2 of mark 1 or 4", &next_of_two(2, [1, 4])),
    ];
    ask_all(rt, &table, &questions)
}
