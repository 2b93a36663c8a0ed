//! Puts worked questions to a ring and to a table, and prints the states where each holds.
#![tactic(auto)]

mod files;
mod put;
mod ring;
mod table;

fn run(rt: &HostRuntime) -> anyhow::Result<()> {
    ring::ring_cases(rt)?;
    table::table_cases(rt)?;
    files::file_cases(rt)
}

fn main(rt: HostRuntime) -> anyhow::Result<()> {
    run(&rt)
}
