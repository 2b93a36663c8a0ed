//! Where a coalition can lead, whatever the others choose.
ghost use Rattle.std.specs.Prelude.{◌≡◌, ℕ, ◌<◌, T, ◌↔◌};
ghost use Rattle.sets.specs.Sets.{member, who};
ghost use Rattle.model.specs.Model.{Can, Numbering, joint};
ghost use Rattle.ability.specs.Ability.{Leads};

use crate::own::{own_parts, pointed};
use crate::parts::Parts;
use model::game::{Game, Marked};
use model::pointed::Pointed;
use sets::coalition::Coalition;
use sets::state_set::StateSet;

/// The own choices such that every joint move agreeing with one of them leads from a state into `x`.
fn leading<G: Game>(at: &Pointed<G>, x: StateSet, parts: &Parts) -> StateSet
    requires moves { parts.now.width ≡ joint (G.Game.model at.now.game.now) at.now.state }
    ensures { (c : ℕ) → T (member result c) ↔ Leads (G.Game.model at.now.game.now) at.now.state (member x) parts.now (joint (G.Game.model at.now.game.now) at.now.state) c }
{
    let mut free = StateSet::below(parts.count);
    // kept: with a `for` over the joint moves, `out` is tested beside the range at each turn, and a fixpoint took up to 1.8 times as long
    let mut j = 0;
    while let Some(t) = at.out(j) {
        if !x.contains(t) {
            free = free.difference(StateSet::single(parts.own[j as usize]));
            if free.is_empty() {
                return free;
            }
        }
        j += 1;
    }
    free
}

/// Whether the coalition and the state exist, and the coalition has an own choice there such that every joint move agreeing with it leads into `x`.
// kept: calls take a model, a coalition and a state apart, since each may be one that the other two do not have
pub fn can<G: Game>(g: &G, a: Coalition, s: u8, x: StateSet) -> bool
    ensures can { T result ↔ Can (G.Game.model g.now) (who a) s (λ t. T (member x t)) }
    ensures numbering { s < (G.Game.model g.now).n → Numbering (G.Game.model g.now) (who a) s }
{
    let Some(at) = pointed(g, a, s) else {
        return false;
    };
    let parts = own_parts(&at, a);
    !leading(&at, x, &parts).is_empty()
}

/// The states of `among` from which the coalition can lead into `x`.
pub fn able<G: Game>(g: &G, a: Coalition, among: StateSet, x: StateSet) -> StateSet
    ensures { (s : ℕ) → T (member result s) ↔ (T (member among s) × Can (G.Game.model g.now) (who a) s (λ t. T (member x t))) }
{
    let mut found = StateSet::empty();
    // kept: one call of a set for this loop and that of `with_mark` would take a test and ask that it may be called
    for s in 0..g.states() {
        if among.contains(s) && can(g, a, s, x) {
            found.insert(s);
        }
    }
    found
}
