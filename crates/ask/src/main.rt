//! Reads a job, a model file and then question text, and prints where the question holds.
#![tactic(auto)]

use jobs::{read_job, show};
use list::List;
use report::ask;

fn run(rt: &HostRuntime) -> anyhow::Result<()> {
    let job = read_job(rt)?;
    let mut places = [0; 512];
    let mut listing = List::empty(&mut places);
    let outcome = ask(&job, &mut listing);
    show(rt, listing.items(), outcome)
}

fn main(rt: HostRuntime) -> anyhow::Result<()> {
    run(&rt)
}
