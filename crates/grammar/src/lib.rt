//! The grammar of question text: its operators here, definitions in specs/ and theorems in proofs/.
#![tactic(auto)]

/// What joins two states: `&` or `|`.
#[derive(Clone, Copy)]
pub enum Joint {
    And,
    Or,
}

/// What begins a path of one state: `X` or `G`.
#[derive(Clone, Copy)]
pub enum Ahead {
    Next,
    Always,
}
