//! Commands put on a list of bytes.
ghost use Rattle.std.specs.Prelude.{◌≡◌, ◌≤◌, length};
ghost use Rattle.list.specs.Lists.{room, Puts};
ghost use Rattle.model.specs.Model.{joint};
ghost use Rattle.legend.specs.Legends.{names_of};
ghost use Rattle.file.specs.File.{count_of, counts_at, name_bytes, out_bytes, state_bytes, upto};

use crate::kind::Kind;
use legend::Legend;
use list::List;
use model::game::{Game, Marked};
use model::pointed::Pointed;
use std::array;

/// Puts some bytes, one after another.
// kept: `report` has the same, since a call that another crate can reach may not ask for room
pub(crate) fn put(bytes: &mut List<u8>, more: &[u8])
    requires { length more.now ≤ room bytes.old }
    ensures { Puts bytes.old bytes.new more.now }
{
    bytes.extend(more).unwrap();
}

/// Puts the names of a legend, each as a command.
// kept: each of these asks for as much room as it fills, which is another for each
pub(crate) fn put_names(bytes: &mut List<u8>, legend: &Legend)
    requires { length (upto (name_bytes (names_of legend.now)) (length (names_of legend.now))) ≤ room bytes.old }
    ensures { Puts bytes.old bytes.new (upto (name_bytes (names_of legend.now)) (length (names_of legend.now))) }
{
    for (i, name) in legend.names().iter().enumerate() {
        put(bytes, &[Kind::Name.code(), i as u8]);
        put(bytes, name);
    }
}

/// How many choices an agent has at a state, and 0 past the agents.
fn count<G: Game>(at: &Pointed<G>, agent: u8) -> u8
    ensures { result ≡ count_of (G.Game.model at.now.game.now) at.now.state agent }
{
    at.choices(agent).unwrap_or(0)
}

/// The six counts of a state.
fn counts<G: Game>(at: &Pointed<G>) -> [u8; 6]
    ensures { result ≡ counts_at (G.Game.model at.now.game.now) at.now.state }
{
    array::from_fn(|agent| count(at, agent as u8))
}

/// Puts the outcomes of a state, each as a command.
fn put_outs<G: Game>(bytes: &mut List<u8>, at: &Pointed<G>)
    requires { length (upto (out_bytes (G.Game.model at.now.game.now) at.now.state) (joint (G.Game.model at.now.game.now) at.now.state)) ≤ room bytes.old }
    ensures { Puts bytes.old bytes.new (upto (out_bytes (G.Game.model at.now.game.now) at.now.state) (joint (G.Game.model at.now.game.now) at.now.state)) }
{
    // `out` itself says where the joint moves end: their number would have to be multiplied once more
    for j in 0..64 {
        let Some(t) = at.out(j) else { break };
        put(bytes, &[Kind::Out.code(), t]);
    }
}

/// Puts a state with its outcomes.
#[tactic(auto, using(list::proofs::Joins::puts_room))]
fn put_state<G: Game>(bytes: &mut List<u8>, at: &Pointed<G>)
    requires { length (state_bytes (G.Game.model at.now.game.now) at.now.state) ≤ room bytes.old }
    ensures { Puts bytes.old bytes.new (state_bytes (G.Game.model at.now.game.now) at.now.state) }
{
    put(bytes, &[Kind::State.code()]);
    put(bytes, &at.marks().to_be_bytes());
    put(bytes, &counts(at));
    put_outs(bytes, at);
}

/// Puts all states.
pub(crate) fn put_states<G: Game>(bytes: &mut List<u8>, g: &G)
    requires { length (upto (state_bytes (G.Game.model g.now)) (G.Game.model g.now).n) ≤ room bytes.old }
    ensures { Puts bytes.old bytes.new (upto (state_bytes (G.Game.model g.now)) (G.Game.model g.now).n) }
{
    for s in 0..g.states() {
        put_state(bytes, &Pointed::new(g, s).unwrap());
    }
}
