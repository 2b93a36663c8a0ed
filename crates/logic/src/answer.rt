//! The answer to a question.
ghost use Rattle.std.specs.Prelude.{◌≡◌, length, MatchResult};
ghost use Rattle.logic.specs.Questions.{Accepted, Answered, Refused};

use crate::line::{Line, QuestionFault};
use crate::lines::line_set;
use crate::rule::judge;
use model::game::Game;
use sets::state_set::StateSet;

/// Puts a question to a model: fills the place of each line's number with the set of the states where that line holds, and answers the last one's.
pub fn evaluate<G: Game>(
    g: &G,
    lines: &[Line],
    sets: &mut [StateSet],
) -> Result<StateSet, QuestionFault>
    ensures { MatchResult result (λ x. Accepted (G.Game.model g.now).k lines.now (length sets.old) × Answered (G.Game.model g.now) lines.now sets.old sets.new x) (λ f. Refused (G.Game.model g.now).k lines.now (length sets.old) f × (sets.new ≡ sets.old)) }
{
    judge(g.agents(), lines, sets.len())?;
    let mut answer = StateSet::empty();
    // kept: `sets[i]` is written while the places before it are read, which no iterator lends
    for (i, line) in lines.iter().enumerate() {
        answer = line_set(g, *line, &sets[0..i]);
        sets[i] = answer;
    }
    Ok(answer)
}
