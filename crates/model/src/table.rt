//! The table model: states, each written out.
ghost use Rattle.model.specs.Rows.{Tabled};

mod build;
mod read;
mod row;

use crate::table::row::Row;

/// So many states and agents, and what each state has; what stands past the states stands for nothing.
// kept: no heap and fixed memory: a vector of fixed capacity (arrayvec) asks for a default, which a state lacks
#[derive(Drop)]
pub struct Table {
    states: u8,
    agents: u8,
    rows: [Row; 64],
    ghost kept: { Tabled states agents rows },
}
