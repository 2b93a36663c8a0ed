//! Where one line holds, by the sets of the earlier ones.
ghost use Rattle.std.specs.Prelude.{◌≡◌, ℕ, ◌<◌, T, ◌↔◌, length};
ghost use Rattle.sets.specs.Sets.{bit, member};
ghost use Rattle.logic.specs.Logic.{Formula, Rule, formula_by};
ghost use Rattle.logic.specs.Questions.{line_of, set_at, Tells, TellAll};

use crate::fixpoint::{always, until};
use crate::line::Line;
use ability::able;
use model::game::{Game, Marked};
use sets::bits::is_set;
use sets::state_set::StateSet;

/// Whether the state exists and has the mark.
fn has_mark<G: Marked>(g: &G, s: u8, m: u8) -> bool
    ensures { T result ↔ ((s < (G.Marked.marked g.now).n) × T (bit ((G.Marked.marked g.now).marks s) m)) }
{
    // marks have 16 bits, so no state need be asked of another
    m < 16 && g.marks(s).is_some_and(|marks| is_set(u64::from(marks), m))
}

/// The states with a mark.
pub fn with_mark<G: Marked>(g: &G, m: u8) -> StateSet
    ensures { (s : ℕ) → T (member result s) ↔ ((s < (G.Marked.marked g.now).n) × T (bit ((G.Marked.marked g.now).marks s) m)) }
{
    let mut found = StateSet::empty();
    // kept: one call of a set for this loop and that of `able` would take a test and ask that it may be called
    for s in 0..g.states() {
        if has_mark(g, s, m) {
            found.insert(s);
        }
    }
    found
}

/// The set of an earlier line.
fn set_at(sets: &[StateSet], p: u16) -> StateSet
    requires { p < length sets.now }
    ensures { result ≡ set_at sets.now p }
{
    sets[usize::from(p)]
}

/// Where a line holds that breaks no rule, by the sets of all earlier ones.
pub(crate) fn line_set<G: Game>(g: &G, line: Line, sets: &[StateSet]) -> StateSet
    requires { Rule (G.Game.model g.now).k (length sets.now) (line_of line) }
    ensures { (at : ℕ → Formula) → TellAll (G.Game.model g.now) sets.now (length sets.now) at → Tells (G.Game.model g.now) result (formula_by at (line_of line)) }
{
    let all = StateSet::below(g.states());
    match line {
        Line::True => all,
        Line::Mark(m) => with_mark(g, m),
        Line::Not(a) => all.difference(set_at(sets, a)),
        Line::And(a, b) => set_at(sets, a).intersection(set_at(sets, b)),
        Line::Or(a, b) => set_at(sets, a).union(set_at(sets, b)),
        Line::Next(c, a) => able(g, c, all, set_at(sets, a)),
        Line::Always(c, a) => always(g, c, set_at(sets, a)),
        Line::Until(c, a, b) => until(g, c, set_at(sets, a), set_at(sets, b)),
    }
}
