//! The small parts of a text, and the lines that are made of them.
ghost use Rattle.std.specs.Prelude.{◌≡◌, ℕ, suc, ◌^◌, ◌<◌, [], ◌∷◌, ◌++◌, Option, Some, MatchOption, MatchResult};
ghost use Rattle.sets.specs.Sets.{who};
ghost use Rattle.logic.specs.Questions.{line_of};
ghost use Rattle.grammar.specs.Tokens.{t_less, t_greater};
ghost use Rattle.grammar.specs.Grammar.{members as members_of, print, joint_tok};
ghost use Rattle.grammar.specs.Parts.{Wrong};
ghost use Rattle.text.specs.Cursors.{Onward, Takes, Lacks};
ghost use Rattle.text.specs.Faults.{rule_number};
ghost use Rattle.text.specs.Shown.{shown, Passing};
ghost use Rattle.text.specs.Vocabularies.{terms_of};
ghost use Rattle.text.specs.Readings.{mark_tok, lead_tok, joint_line, ahead_line};

use crate::cursor::Cursor;
use crate::fault::TextFault;
use crate::terms::Terms;
use crate::token::{Token, undue};
use grammar::{Ahead, Joint};
use logic::line::Line;
use sets::coalition::Coalition;

/// A token that can be due alone.
// kept: with tokens in place of marks, `due` would ask for one that borrows no bytes, since a derived `==` compares those, and the grammar tells agents by their number
#[derive(Clone, Copy)]
pub(crate) enum Mark {
    Close,
    Greater,
    Until,
    End,
}

/// The line of two joined states.
pub(crate) fn join_line(joint: Joint, a: u16, b: u16) -> Line
    ensures { line_of result ≡ joint_line joint a b }
{
    match joint {
        Joint::And => Line::And(a, b),
        Joint::Or => Line::Or(a, b),
    }
}

/// The line of a path of one state.
pub(crate) fn path_line(ahead: Ahead, members: Coalition, a: u16) -> Line
    ensures { line_of result ≡ ahead_line ahead (who members) a }
{
    match ahead {
        Ahead::Next => Line::Next(members, a),
        Ahead::Always => Line::Always(members, a),
    }
}

/// How a token joins two states, if it joins any.
fn joint(token: Token) -> Option<Joint>
    ensures { MatchOption result ((j : Joint) → shown token.entry ≡ joint_tok j → ⊥) (λ j. shown token.entry ≡ joint_tok j) }
{
    match token {
        Token::And => Some(Joint::And),
        Token::Or => Some(Joint::Or),
        _ => None,
    }
}

/// How a token begins a path, if it begins one: with `X` or `G`, or, for which none stands, with `(`.
fn beginning(token: Token) -> Option<Option<Ahead>>
    ensures { MatchOption result ((l : Option Ahead) → shown token.entry ≡ lead_tok l → ⊥) (λ l. shown token.entry ≡ lead_tok l) }
{
    match token {
        Token::Next => Some(Some(Ahead::Next)),
        Token::Always => Some(Some(Ahead::Always)),
        Token::Open => Some(None),
        _ => None,
    }
}

impl<'a> Cursor<'a> {
    /// Reads a token, and answers what a test makes of it; a token of which it makes nothing is not due.
    fn wanted<T, F: Fn(Token<'a>) -> Option<T>>(&mut self, test: F) -> Result<T, TextFault>
        requires { F.IsAlwaysCallable test }
        ensures onward { Onward self.old self.new }
        ensures cases { MatchResult result (λ x. (t : Token) × F.post test t (Some x) × Takes self.old (shown t ∷ []) self.new) (λ f. Lacks self.old (Passing (F.post test)) f) }
    {
        let read = self.read()?;
        test(read.token).ok_or(undue(read.place))
    }

    /// Reads a token that is due.
    pub(crate) fn due(&mut self, mark: Mark) -> Result<(), TextFault>
        ensures onward { Onward self.old self.new }
        ensures cases { MatchResult result (λ _. Takes self.old (mark_tok mark ∷ []) self.new) (Lacks self.old (λ t. t ≡ mark_tok mark)) }
    {
        self.wanted(
            |token|
                ensures { MatchOption result (shown token.entry ≡ mark_tok mark → ⊥) (λ x. shown token.entry ≡ mark_tok mark) }
            {
                matches!(
                    (mark, token),
                    (Mark::Close, Token::Close)
                        | (Mark::Greater, Token::Greater)
                        | (Mark::Until, Token::Until)
                        | (Mark::End, Token::End)
                )
                .then_some(())
            },
        )
    }

    /// Reads what joins two states.
    pub(crate) fn connective(&mut self) -> Result<Joint, TextFault>
        ensures onward { Onward self.old self.new }
        ensures cases { MatchResult result (λ j. Takes self.old (joint_tok j ∷ []) self.new) (Lacks self.old (λ t. (j : Joint) × (t ≡ joint_tok j))) }
    {
        self.wanted(joint)
    }

    /// Reads what begins a path: `X` or `G`, before one state, or `(`, which none stands for, before two with `U` between them.
    pub(crate) fn lead(&mut self) -> Result<Option<Ahead>, TextFault>
        ensures onward { Onward self.old self.new }
        ensures cases { MatchResult result (λ l. Takes self.old (lead_tok l ∷ []) self.new) (Lacks self.old (λ t. (l : Option Ahead) × (t ≡ lead_tok l))) }
    {
        self.wanted(beginning)
    }

    /// Reads what follows `<`: agents or none, and `>`.
    pub(crate) fn members(&mut self, terms: &Terms) -> Result<Coalition, TextFault>
        ensures onward { Onward self.old self.new }
        ensures cases { MatchResult result (λ m. (who m < 2 ^ (terms_of terms.now).agents) × Takes self.old (members_of (who m) ++ (t_greater ∷ [])) self.new) (λ f. (d : ℕ) → Wrong (terms_of terms.now) (print (terms_of terms.now).word (suc d)) self.old.text.now (t_less ∷ []) self.old.at (rule_number f.rule) f.place) }
    {
        let read = self.read()?;
        match read.token {
            Token::Greater => Ok(Coalition::from(0)),
            Token::Agents(digits) => {
                let members = terms.members(digits, read.place)?;
                self.due(Mark::Greater)?;
                Ok(members)
            }
            _ => Err(undue(read.place)),
        }
    }
}
