//! Own choices: joint moves over a coalition's agents alone.
ghost use Rattle.std.specs.Prelude.{◌≡◌, ◌<◌, MatchOption};
ghost use Rattle.std.specs.Option.{SomeIff};
ghost use Rattle.sets.specs.Sets.{bit, who};
ghost use Rattle.model.specs.Model.{Exists, Numbering, joint, own_of, owns};
ghost use Rattle.ability.specs.Ability.{PartsOf};

use crate::parts::Parts;
use model::game::Game;
use model::pointed::Pointed;
use sets::coalition::Coalition;

/// The own choices of a coalition at a state, and which of them each joint move agrees with.
pub(crate) fn own_parts<G: Game>(at: &Pointed<G>, a: Coalition) -> Parts
    ensures { PartsOf (bit (who a)) ((G.Game.model at.now.game.now).d at.now.state) (G.Game.model at.now.game.now).k result }
{
    let mut parts = Parts {
        own: [0; 64],
        width: 1,
        count: 1,
    };
    for i in 0..at.agents() {
        parts.extend(at.choices(i).unwrap(), a.contains(i));
    }
    parts
}

/// The model at a state, or none where the state or the coalition doesn't exist.
pub(crate) fn pointed<'a, G: Game>(g: &'a G, a: Coalition, s: u8) -> Option<Pointed<'a, G>>
    ensures { MatchOption result ((s < (G.Game.model g.now).n) × Exists (G.Game.model g.now) (who a) → ⊥) (λ p. (p.game.now ≡ g.now) × (p.state ≡ s) × Exists (G.Game.model g.now) (who a)) }
{
    let at = Pointed::new(g, s)?;
    if !a.is_among(at.agents()) {
        return None;
    }
    Some(at)
}

/// How many own choices the coalition has at a state, or none where one of them doesn't exist.
// kept: calls take a model, a coalition and a state apart, since each may be one that the other two do not have
pub fn own_choices<G: Game>(g: &G, a: Coalition, s: u8) -> Option<u8>
    ensures { SomeIff result ((s < (G.Game.model g.now).n) × Exists (G.Game.model g.now) (who a)) (owns (G.Game.model g.now) (who a) s) }
{
    let at = pointed(g, a, s)?;
    let parts = own_parts(&at, a);
    Some(parts.count)
}

/// The coalition's own choice that a joint move agrees with, or none where one of the three doesn't exist; and the law of the numbering.
pub fn own_choice<G: Game>(g: &G, a: Coalition, s: u8, j: u8) -> Option<u8>
    ensures value { SomeIff result ((s < (G.Game.model g.now).n) × (j < joint (G.Game.model g.now) s) × Exists (G.Game.model g.now) (who a)) (own_of (G.Game.model g.now) (who a) s j) }
    ensures numbering { s < (G.Game.model g.now).n → Numbering (G.Game.model g.now) (who a) s }
{
    let at = pointed(g, a, s)?;
    at.out(j)?;
    let parts = own_parts(&at, a);
    Some(parts.own[j as usize])
}
