//! Reads a whole text into the lines of a question.
ghost use Rattle.std.specs.Prelude.{◌≡◌, [], length, MatchResult};
ghost use Rattle.list.specs.Lists.{items, Emptied};
ghost use Rattle.legend.specs.Legends.{names_of};
ghost use Rattle.logic.specs.Logic.{Formula};
ghost use Rattle.logic.specs.Lines.{flatten};
ghost use Rattle.logic.specs.Questions.{question};
ghost use Rattle.grammar.specs.Grammar.{vocabulary};
ghost use Rattle.grammar.specs.Texts.{Accepts, Rejects};
ghost use Rattle.text.specs.Faults.{rule_number};
ghost use Rattle.text.specs.Vocabularies.{terms_of};
ghost use Rattle.text.specs.Parsing.{Parsed, Refuses};

use crate::cursor::Cursor;
use crate::fault::{TextFault, TextRule};
use crate::parser::Parser;
use crate::parts::Mark;
use crate::terms::Terms;
use legend::Legend;
use list::List;
use logic::line::Line;
use refusal::Rule;

/// How long a text may be.
const MOST_BYTES: usize = 4096;

/// How deep a state may stand.
const DEEPEST: u8 = 32;

impl<'a, 'b> Parser<'a, 'b> {
    /// Reads a state and the end of the text after it.
    fn whole(&mut self) -> Result<(), TextFault>
        requires start { self.old.cursor.at ≡ 0 }
        requires empty { self.old.lines.count ≡ 0 }
        ensures { MatchResult result (λ _. (f : Formula) × Accepts (terms_of self.old.terms) self.old.cursor.text.now f × (question (items self.new.lines) ≡ flatten f [])) (λ f. Rejects (terms_of self.old.terms) self.old.cursor.text.now (rule_number f.rule) f.place) }
    {
        self.state(DEEPEST)?;
        self.cursor.due(Mark::End)
    }
}

/// Reads a text that speaks of the legend's names and of so many agents, and makes the list hold just the lines of the formula that it spells;
/// a refusal leaves the list empty.
pub fn parse(
    text: &[u8],
    legend: &Legend,
    agents: u8,
    lines: &mut List<Line>,
) -> Result<(), TextFault>
    ensures { MatchResult result (λ _. Parsed (vocabulary (names_of legend.now) agents) text.now lines.old lines.new) (λ f. Refuses (vocabulary (names_of legend.now) agents) text.now (length lines.old.places.now) f.rule f.place × Emptied lines.old lines.new) }
{
    lines.clear();
    if text.len() > MOST_BYTES {
        return Err(TextRule::Length.at(MOST_BYTES));
    }
    let terms = Terms {
        legend: *legend,
        agents,
    };
    let mut places = [Line::True; MOST_BYTES];
    let mut parser = Parser {
        cursor: Cursor { text, at: 0 },
        terms,
        lines: List::empty(&mut places),
    };
    parser.whole()?;
    lines
        .fill(parser.lines.items())
        .map_err(|_| TextRule::Places.at(0))
}
