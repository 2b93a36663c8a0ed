//! What the programs share: a job comes from standard input or from a file, a listing goes to standard output.
#![tactic(auto)]

ghost use Rattle.std.specs.Prelude.{IsOk, OnOk};

use anyhow::Context;
use std::io::{Read, Write};
use std::{env, fs, io};

/// The job: the file that the first argument names, or else all of standard input.
// No contract can say which bytes a file or a terminal gives.
pub fn read_job(rt: &HostRuntime) -> io::Result<Vec<u8>> {
    if let Some(path) = env::args(rt)?.nth(1) {
        return fs::read(rt, path.as_str());
    }
    let mut job = Vec::new(rt.alloc());
    rt.stdin().read_to_end(&mut job)?;
    Ok(job)
}

/// Prints a listing; a refusal then ends the program with a status that isn't 0.
// No contract can say which bytes a terminal takes, nor when it takes them.
pub fn show<E: Drop>(rt: &HostRuntime, listing: &[u8], outcome: Result<(), E>) -> anyhow::Result<()>
    ensures { OnOk result (IsOk outcome) }
{
    rt.stdout().write_all(listing)?;
    outcome.ok().context("the job is refused")
}
