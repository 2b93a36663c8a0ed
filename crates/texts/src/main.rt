//! Reads a table of question texts, and prints what each is read as: its lines, or its refusal and place.
#![tactic(auto)]

mod row;
mod shown;

use crate::row::Row;
use crate::shown::Shown;
use anyhow::Context;
use legend::{Legend, pad};
use list::List;
use logic::line::Line;
use refusal::Numbered;
use text::parse;

/// Reads the text of a row, for two agents, into as many places as the row says, and prints what comes of it.
fn put_row(rt: &HostRuntime, legend: &Legend, row: &Row) -> anyhow::Result<()> {
    let mut places = [Line::Mark(9); 64];
    let mut lines = List::empty(&mut places[..row.places.min(64)]);
    match parse(&row.text, legend, 2, &mut lines) {
        Ok(()) => {
            for line in lines.items() {
                let shown = Shown(*line);
                print!(rt; " {shown}")?;
            }
            println!(rt; "")?;
        }
        Err(fault) => {
            let (number, place) = (fault.number(), fault.place);
            println!(rt; " refused {number} at {place}, {} lines", lines.count())?;
        }
    }
    Ok(())
}

fn run(rt: &HostRuntime) -> anyhow::Result<()> {
    let mut legend = Legend::empty();
    for name in ["p", "a1b", "truex"] {
        pad(name.as_bytes())
            .and_then(|name| legend.add(name))
            .context("a name is not taken")?;
    }
    for line in rt.lines(rt.alloc()) {
        let line = line?;
        let row = Row::read(rt.alloc(), line.as_str())?;
        if line.len() < 80 {
            print!(rt; "{line} ->")?;
        } else {
            print!(rt; "{} bytes ->", row.text.len())?;
        }
        put_row(rt, &legend, &row)?;
    }
    Ok(())
}

fn main(rt: HostRuntime) -> anyhow::Result<()> {
    run(&rt)
}
