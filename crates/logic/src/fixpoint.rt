//! What a coalition can keep up, and what it can come to.
ghost use Rattle.std.specs.Prelude.{ℕ, ◌<◌, T, ◌↔◌};
ghost use Rattle.sets.specs.Sets.{Set, member, who};
ghost use Rattle.logic.specs.Logic.{Stays, Closed};

use ability::able;
use model::game::{Game, Marked};
use sets::coalition::Coalition;
use sets::state_set::StateSet;

/// The states from which the coalition can stay inside `inner` for ever.
// kept: calls take a model and a coalition apart, since each may be one that the other does not have
pub fn always<G: Game>(g: &G, a: Coalition, inner: StateSet) -> StateSet
    ensures { (s : ℕ) → T (member result s) ↔ ((X : Set) × (T (X s) × Stays (G.Game.model g.now) (who a) (λ t. T (member inner t)) X)) }
{
    let mut x = inner;
    'rounds: loop {
        let next = able(g, a, x, x);
        if x.is_subset(next) {
            return x;
        }
        x = next;
    }
}

/// The states from which the coalition can come to `goal`, inside `inner` until then.
pub fn until<G: Game>(g: &G, a: Coalition, inner: StateSet, goal: StateSet) -> StateSet
    ensures { (s : ℕ) → T (member result s) ↔ ((s < (G.Game.model g.now).n) × ((X : Set) → Closed (G.Game.model g.now) (who a) (λ t. T (member inner t)) (λ t. T (member goal t)) X → T (X s))) }
{
    let mut x = goal;
    let mut rest = inner;
    'rounds: loop {
        let more = able(g, a, rest, x);
        if more.is_empty() {
            return x.intersection(StateSet::below(g.states()));
        }
        x = x.union(more);
        rest = rest.difference(more);
    }
}
