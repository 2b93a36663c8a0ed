//! The next token of a text.
ghost use Rattle.std.specs.Prelude.{◌≡◌, MatchOption, MatchResult};
ghost use Rattle.grammar.specs.Tokens.{Tok, Sign, Word, TokAt, Strange};
ghost use Rattle.text.specs.declared.fault.TextRule.TheVariants as rule;
ghost use Rattle.text.specs.Cursors.{Onward};
ghost use Rattle.text.specs.Shown.{shown, Proper};

use crate::cursor::Cursor;
use crate::fault::TextFault;
use crate::terms::coalition;
use crate::token::{Read, Token, undue};

/// The token that is a single sign.
fn sign(b: u8) -> Option<Token<'static>>
    ensures { MatchOption result ((t : Tok) → Sign b t → ⊥) (λ t. Sign b (shown t) × Proper t) }
{
    match b {
        b'!' => Some(Token::Not),
        b'&' => Some(Token::And),
        b'|' => Some(Token::Or),
        b'(' => Some(Token::Open),
        b')' => Some(Token::Close),
        b'<' => Some(Token::Less),
        b'>' => Some(Token::Greater),
        b'X' => Some(Token::Next),
        b'G' => Some(Token::Always),
        b'U' => Some(Token::Until),
        _ => None,
    }
}

/// The token that a word is: the reserved one, or a name.
fn word(letters: &[u8]) -> Token
    ensures { Word letters.now (shown result) }
{
    if letters == b"true".as_slice() {
        Token::True
    } else {
        Token::Name(letters)
    }
}

impl<'a> Cursor<'a> {
    /// Reads the next token: after blanks, the longest name or digits, or a sign, or the end.
    pub(crate) fn read(&mut self) -> Result<Read<'a>, TextFault>
        ensures onward { Onward self.old self.new }
        ensures cases { MatchResult result (λ r. TokAt self.old.text.now self.old.at r.place self.new.at (shown r.token) × Proper r.token) (λ f. (f.rule ≡ rule.Token) × Strange self.old.text.now self.old.at f.place) }
    {
        let place = self.past_blanks();
        self.at = place;
        let text = self.text;
        let Some(&b) = text.get(place) else {
            return Ok(Read {
                token: Token::End,
                place,
            });
        };
        if b.is_ascii_lowercase() {
            self.at = self.past_word();
            let token = word(&text[place..self.at]);
            return Ok(Read { token, place });
        }
        if b.is_ascii_digit() {
            let next = self.past_digits();
            let digits = &text[place..next];
            if coalition(digits).is_some() {
                self.at = next;
                let token = Token::Agents(digits);
                return Ok(Read { token, place });
            }
        }
        let token = sign(b).ok_or(undue(place))?;
        self.at = place + 1;
        Ok(Read { token, place })
    }
}
