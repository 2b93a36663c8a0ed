//! The largest models: 64 states, 6 agents with 2 choices each, state 0 marked.
use model::state::State;

const UNMARKED: State = State {
    marks: 0,
    counts: [2; 6],
    outcomes: [0; 64],
};

/// Every outcome is drawn at random, by a fixed sequence.
pub(crate) fn random() -> [State; 64] {
    let mut states = [UNMARKED; 64];
    states[0].marks = 1;
    let mut seed = 7u32;
    for state in states.iter_mut() {
        for outcome in state.outcomes.iter_mut() {
            seed = seed.wrapping_mul(1664525).wrapping_add(1013904223);
            *outcome = ((seed >> 16) & 63) as u8;
        }
    }
    states
}

/// Every joint move leads one state down, and from 0 to 0, so that a fixpoint takes 64 rounds.
pub(crate) fn chain() -> [State; 64] {
    let mut states = [UNMARKED; 64];
    states[0].marks = 1;
    for (state, below) in states.iter_mut().skip(1).zip(0..63) {
        state.outcomes = [below; 64];
    }
    states
}
