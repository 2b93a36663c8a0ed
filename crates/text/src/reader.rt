//! Reads a state into lines, operands first.
ghost use Rattle.std.specs.Prelude.{◌≡◌, suc, ◌+◌, ◌^◌, ◌<◌, [], ◌∷◌, length, MatchResult};
ghost use Rattle.sets.specs.Sets.{who};
ghost use Rattle.list.specs.Lists.{room, Extends};
ghost use Rattle.grammar.specs.Tokens.{t_open, t_less};
ghost use Rattle.grammar.specs.Grammar.{group};
ghost use Rattle.text.specs.Vocabularies.{terms_of};
ghost use Rattle.text.specs.Readings.{Stated, Parted, Faulty};

use crate::fault::{TextFault, TextRule};
use crate::parser::Parser;
use crate::parts::{Mark, join_line, path_line};
use crate::token::{Token, undue};
use logic::line::Line;
use refusal::Rule;
use sets::coalition::Coalition;

impl<'a, 'b> Parser<'a, 'b> {
    /// Adds a line, for which there is a place, and answers its number.
    fn put(&mut self, line: Line) -> u16
        requires { length self.old.cursor.text.now < self.old.cursor.at + room self.old.lines }
        ensures cursor { self.new.cursor ≡ self.old.cursor }
        ensures terms { self.new.terms ≡ self.old.terms }
        ensures line { result ≡ self.old.lines.count }
        ensures added { Extends self.old.lines self.new.lines (line ∷ []) }
    {
        let at = self.lines.count();
        self.lines.add(line).unwrap();
        at as u16
    }

    /// Reads a state, which may stand so many levels deep, adds its lines, and answers the number of the last.
    // kept: the depth is handed down and not held, since it falls with each call and is as before after it
    #[cycle(reading)]
    pub(crate) fn state(&mut self, allow: u8) -> Result<u16, TextFault>
        ensures { MatchResult result (λ at. Stated allow self.old self.new at) (λ f. Faulty allow [] self.old f) }
    {
        if allow == 0 {
            return Err(TextRule::Depth.at(self.cursor.past_blanks()));
        }
        let line = self.line(allow - 1)?;
        Ok(self.put(line))
    }

    /// Reads a state whose parts may stand so many levels deep, adds their lines, and makes its own.
    #[cycle(reading)]
    fn line(&mut self, allow: u8) -> Result<Line, TextFault>
        ensures { MatchResult result (λ line. Parted (suc allow) [] self.old self.new line) (λ f. Faulty (suc allow) [] self.old f) }
    {
        let read = self.cursor.read()?;
        match read.token {
            Token::True => Ok(Line::True),
            Token::Name(word) => Ok(Line::Mark(self.terms.mark(word, read.place)?)),
            Token::Not => Ok(Line::Not(self.state(allow)?)),
            Token::Open => self.pair(allow),
            Token::Less => self.strategy(allow),
            _ => Err(undue(read.place)),
        }
    }

    /// Reads what follows `(` in a state: two states with `&` or `|` between them, and `)`.
    #[cycle(reading)]
    fn pair(&mut self, allow: u8) -> Result<Line, TextFault>
        ensures { MatchResult result (λ line. Parted (suc allow) (t_open ∷ []) self.old self.new line) (λ f. Faulty (suc allow) (t_open ∷ []) self.old f) }
    {
        let left = self.state(allow)?;
        let joint = self.cursor.connective()?;
        let right = self.state(allow)?;
        self.cursor.due(Mark::Close)?;
        Ok(join_line(joint, left, right))
    }

    /// Reads what follows `<`: agents, `>` and a path.
    #[cycle(reading)]
    fn strategy(&mut self, allow: u8) -> Result<Line, TextFault>
        ensures { MatchResult result (λ line. Parted (suc allow) (t_less ∷ []) self.old self.new line) (λ f. Faulty (suc allow) (t_less ∷ []) self.old f) }
    {
        let members = self.cursor.members(&self.terms)?;
        self.path(members, allow)
    }

    /// Reads a path of some agents: `X` state, `G` state, or `(` state `U` state `)`.
    #[cycle(reading)]
    fn path(&mut self, agents: Coalition, allow: u8) -> Result<Line, TextFault>
        requires { who agents < 2 ^ (terms_of self.old.terms).agents }
        ensures { MatchResult result (λ line. Parted (suc allow) (group (who agents) []) self.old self.new line) (λ f. Faulty (suc allow) (group (who agents) []) self.old f) }
    {
        match self.cursor.lead()? {
            Some(ahead) => Ok(path_line(ahead, agents, self.state(allow)?)),
            None => self.until(agents, allow),
        }
    }

    /// Reads what follows `(` in a path: two states with `U` between them, and `)`.
    #[cycle(reading)]
    fn until(&mut self, agents: Coalition, allow: u8) -> Result<Line, TextFault>
        requires { who agents < 2 ^ (terms_of self.old.terms).agents }
        ensures { MatchResult result (λ line. Parted (suc allow) (group (who agents) (t_open ∷ [])) self.old self.new line) (λ f. Faulty (suc allow) (group (who agents) (t_open ∷ [])) self.old f) }
    {
        let left = self.state(allow)?;
        self.cursor.due(Mark::Until)?;
        let right = self.state(allow)?;
        self.cursor.due(Mark::Close)?;
        Ok(Line::Until(agents, left, right))
    }
}
