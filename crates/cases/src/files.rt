//! The ring line written as a file, and asked again after the file was read.
use crate::put::ask;
use anyhow::{Context, anyhow};
use file::write::write;
use legend::{Legend, pad};
use logic::line::Line;
use model::ring::Ring;
use model::table::Table;
use reader::read;
use refusal::Numbered;
use sets::coalition::Coalition;

/// Writes the ring with mark 0 named `home`, reads the file, and puts a question to the table that was read.
pub(crate) fn file_cases(rt: &HostRuntime) -> anyhow::Result<()> {
    let ring = Ring::new(6).context("a ring of 6 positions is refused")?;
    let mut legend = Legend::empty();
    pad(b"home")
        .and_then(|name| legend.add(name))
        .context("the name is not taken")?;
    let mut bytes = [0; 256];
    let len = write(&ring, &legend, &mut bytes).context("the ring is not written")?;
    println!(rt; "ring 6: a file of {len} bytes")?;
    let mut table = Table::blank();
    let mut names = Legend::empty();
    read(&bytes, &mut table, &mut names).map_err(|fault| anyhow!("refused {}", fault.number()))?;
    let home = names.find(b"home").context("the name is lost")?;
    let both = Coalition::from(3);
    ask(
        rt,
        &table,
        "ring 6, read from its file: next 3 of home",
        &[Line::Mark(home), Line::Next(both, 0)],
    )
}
