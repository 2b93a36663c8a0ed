//! Reading a whole file.
ghost use Rattle.std.specs.Prelude.{◌≡◌, MatchResult};
ghost use Rattle.model.specs.Tables.{model_of};
ghost use Rattle.legend.specs.Legends.{names_of};
ghost use Rattle.reader.specs.Faults.{rule_number};
ghost use Rattle.reader.specs.Whole.{Accepts, Rejects};

use crate::body::Body;
use crate::cursor::Cursor;
use crate::fault::FileFault;
use crate::header::read_begin;
use legend::Legend;
use model::state::State;
use model::table::Table;

/// The model and the names that a file spells, and the bytes after it.
#[derive(Drop)]
struct Whole<'a> {
    table: Table,
    legend: Legend,
    rest: &'a [u8],
}

/// Reads the file at the front of the input.
fn read_whole(input: &[u8]) -> Result<Whole<'_>, FileFault>
    ensures { MatchResult result (λ w. Accepts input.now (model_of w.table) (names_of w.legend) w.rest.now) (λ f. Rejects input.now (rule_number f.rule) f.place) }
{
    let mut cursor = Cursor::new(input);
    let header = read_begin(&mut cursor)?;
    let mut body = Body { cursor, header };
    let legend = body.read_names()?;
    let unused = State {
        marks: 0,
        counts: [0; 6],
        outcomes: [0; 64],
    };
    let mut states = [unused; 64];
    let states = &mut states[..header.states as usize];
    let total = body.read_states(states)?;
    body.read_end(total)?;
    Ok(Whole {
        table: Table::from_states(header.agents, states).unwrap(),
        legend,
        rest: body.cursor.rest,
    })
}

/// Reads the file at the front of the input into the table and the legend, and answers the unread rest; a refusal leaves both as they were.
pub fn read<'a>(
    input: &'a [u8],
    table: &mut Table,
    legend: &mut Legend,
) -> Result<&'a [u8], FileFault>
    ensures { MatchResult result (λ rest. Accepts input.now (model_of table.new) (names_of legend.new) rest.now) (λ f. Rejects input.now (rule_number f.rule) f.place × (table.new ≡ table.old) × (legend.new ≡ legend.old)) }
{
    let whole = read_whole(input)?;
    *table = whole.table;
    *legend = whole.legend;
    Ok(whole.rest)
}
