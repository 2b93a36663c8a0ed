//! The kinds of models, and what a coalition can do in them.
use ability::{can, own_choice, own_choices};
use model::game::{Game, Marked};
use model::ring::Ring;
use model::state::State;
use model::table::Table;
use model::veil::Veil;
use refusal::Numbered;
use sets::coalition::Coalition;
use sets::state_set::StateSet;
use std::test::Fail;

#[test]
fn rings(rt: HostRuntime) -> Result<(), Fail> {
    for positions in [0, 65, 255] {
        let Err(none) = Ring::new(positions) else {
            return Err(Fail::new("such a ring is refused"));
        };
        assert_eq!(rt; none.number(), 38);
    }
    assert_eq!(rt; Ring::new(1)?.out(0, 1), Some(0));
    assert_eq!(rt; Ring::new(1)?.out(0, 2), Some(0));
    let big = Ring::new(64)?;
    assert_eq!(rt; big.states(), 64);
    assert_eq!(rt; big.out(63, 1), Some(0));
    assert_eq!(rt; big.out(0, 2), Some(63));
    assert_eq!(rt; big.out(5, 3), Some(5));
    assert_eq!(rt; big.out(5, 4), None);
    assert_eq!(rt; big.marks(64), None);
    assert_eq!(rt; big.choices(0, 2), None);
    Ok(())
}

/// One state with these counts for so many agents, which stays where it is.
pub(crate) fn lone(agents: u8, counts: [u8; 6]) -> Option<Table> {
    Table::from_states(
        agents,
        &[State {
            marks: 5,
            counts,
            outcomes: [0; 64],
        }],
    )
}

#[test]
fn tables(rt: HostRuntime) {
    let blank = Table::blank();
    assert!(rt; blank.states() == 1 && blank.agents() == 1);
    assert_eq!(rt; blank.out(0, 0), Some(0));
    assert_eq!(rt; blank.out(0, 1), None);
    assert_eq!(rt; blank.marks(0), Some(0));
    assert!(rt; lone(2, [8, 8, 0, 0, 0, 0]).is_some());
    assert!(rt; lone(1, [64, 0, 0, 0, 0, 0]).is_some());
    assert!(rt; lone(6, [2; 6]).is_some());
    assert!(rt; lone(2, [5, 13, 0, 0, 0, 0]).is_none());
    assert!(rt; lone(1, [65, 0, 0, 0, 0, 0]).is_none());
    assert!(rt; lone(2, [8, 0, 0, 0, 0, 0]).is_none());
    assert!(rt; lone(6, [64; 6]).is_none());
    assert!(rt; lone(0, [1; 6]).is_none());
    assert!(rt; lone(7, [1; 6]).is_none());
    assert!(rt;
        Table::from_states(
            1,
            &[State {
                marks: 0,
                counts: [1; 6],
                outcomes: [1; 64],
            }],
        )
        .is_none()
    );
}

#[test]
fn veils(rt: HostRuntime) -> Result<(), Fail> {
    let table = lone(1, [1; 6]).ok_or("no table")?;
    let veil = Veil::new(Veil::new(table, 7), 12);
    assert_eq!(rt; veil.marks(0), Some(4));
    assert_eq!(rt; veil.marks(1), None);
    assert_eq!(rt; veil.out(0, 0), Some(0));
    Ok(())
}

#[test]
fn abilities(rt: HostRuntime) -> Result<(), Fail> {
    let ring = Ring::new(6)?;
    let all = StateSet::below(6);
    assert!(rt; can(&ring, Coalition::from(0), 0, all));
    assert!(rt; !can(&ring, Coalition::from(4), 0, all));
    assert!(rt; !can(&ring, Coalition::from(3), 6, all));
    assert!(rt; can(&ring, Coalition::from(3), 0, StateSet::single(5)));
    assert!(rt; !can(&ring, Coalition::from(1), 0, StateSet::single(1)));
    assert!(rt; can(&ring, Coalition::from(1), 0, StateSet::from(3)));
    assert_eq!(rt; own_choices(&ring, Coalition::from(0), 0), Some(1));
    assert_eq!(rt; own_choices(&ring, Coalition::from(3), 0), Some(4));
    assert_eq!(rt; own_choices(&ring, Coalition::from(4), 0), None);
    assert_eq!(rt; own_choice(&ring, Coalition::from(2), 0, 2), Some(1));
    assert_eq!(rt; own_choice(&ring, Coalition::from(2), 0, 4), None);
    Ok(())
}
