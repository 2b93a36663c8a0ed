//! Pointed models: a model and one of its states.
ghost use Rattle.std.specs.Prelude.{◌≡◌, ◌<◌, MatchOption};
ghost use Rattle.std.specs.Option.{SomeIff};
ghost use Rattle.model.specs.Model.{joint};

use crate::game::{Game, Marked};

/// A model and one of its states.
#[derive(Drop)]
pub struct Pointed<'a, G: Game> {
    game: &'a G,
    state: u8,
    ghost exists: { state < (G.Game.model game.now).n },
}

impl<'a, G: Game> Pointed<'a, G> {
    /// The model at this state, or none where the state doesn't exist.
    pub fn new(game: &'a G, state: u8) -> Option<Pointed<'a, G>>
        ensures { MatchOption result (state < (G.Game.model game.now).n → ⊥) (λ p. (p.game.now ≡ game.now) × (p.state ≡ state)) }
    {
        // kept: `then_some` makes the value before the test, where its ghost field doesn't hold
        if state < game.states() {
            Some(Pointed { game, state })
        } else {
            None
        }
    }

    /// How many agents there are.
    pub fn agents(&self) -> u8
        ensures { result ≡ (G.Game.model self.now.game.now).k }
    {
        self.game.agents()
    }

    /// The marks of the state: bit `i` for mark `i`.
    pub fn marks(&self) -> u16
        ensures { result ≡ (G.Game.model self.now.game.now).marks self.now.state }
    {
        self.game.marks(self.state).unwrap()
    }

    /// How many choices an agent has here, or none where the agent doesn't exist.
    pub fn choices(&self, agent: u8) -> Option<u8>
        ensures { SomeIff result (agent < (G.Game.model self.now.game.now).k) ((G.Game.model self.now.game.now).d self.now.state agent) }
    {
        self.game.choices(self.state, agent)
    }

    /// The state that follows a joint move, or none where the joint move doesn't exist.
    pub fn out(&self, j: u8) -> Option<u8>
        ensures { SomeIff result (j < joint (G.Game.model self.now.game.now) self.now.state) ((G.Game.model self.now.game.now).out self.now.state j) }
    {
        self.game.out(self.state, j)
    }

    /// How many joint moves there are here.
    pub fn joint_moves(&self) -> u8
        ensures { result ≡ joint (G.Game.model self.now.game.now) self.now.state }
    {
        // kept: with `map(..).product()` it stayed open that each agent has choices, that the product fits, and which number it is
        let mut joint = 1;
        for a in 0..self.agents() {
            joint *= self.choices(a).unwrap();
        }
        joint
    }
}
