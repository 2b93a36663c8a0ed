//! How long a question of 4,096 lines takes on models with 64 states, 6 agents and 64 joint moves.
#![tactic(auto)]

mod models;
mod questions;

use crate::questions::{always, mixed, next, question, until};
use anyhow::Context;
use logic::evaluate;
use logic::line::Line;
use model::state::State;
use model::table::Table;
use sets::state_set::StateSet;
use std::time::Instant;

/// Prints the answer of the last line, and on standard error how long the evaluation took.
fn measure(
    rt: &HostRuntime,
    model: &str,
    states: &[State],
    kind: &str,
    lines: &[Line],
) -> anyhow::Result<()> {
    let table = Table::from_states(6, states).context("the table breaks the ranges")?;
    let mut sets = [StateSet::empty(); 4096];
    let start = Instant::now(rt)?;
    let answer = evaluate(&table, lines, &mut sets);
    let took = start.elapsed(rt)?.as_micros();
    let word = u64::from(answer.context("the question is refused")?);
    println!(rt; "{model}, {kind}: {word:016x}")?;
    eprintln!(rt; "{model}, {kind}: {took} us")?;
    Ok(())
}

/// Puts a question to both models.
fn on_both(rt: &HostRuntime, kind: &str, lines: &[Line]) -> anyhow::Result<()> {
    measure(rt, "random outcomes", &models::random(), kind, lines)?;
    measure(rt, "chain", &models::chain(), kind, lines)
}

fn run(rt: &HostRuntime) -> anyhow::Result<()> {
    on_both(rt, "Next", &question(next))?;
    on_both(rt, "Always", &question(always))?;
    on_both(rt, "Until", &question(until))?;
    on_both(rt, "Mixed", &question(mixed))
}

fn main(rt: HostRuntime) -> anyhow::Result<()> {
    run(&rt)
}
