//! Runs of bytes of one class.
ghost use Rattle.legend.specs.Names.{LetterOrDigit};
ghost use Rattle.grammar.specs.Tokens.{Blank, Digit, Run};
ghost use Rattle.text.specs.Runs.{Passes};

use crate::cursor::Cursor;

impl<'a> Cursor<'a> {
    /// The end of the bytes from here on that are in a class.
    fn run<F: Fn(u8) -> bool>(self, is_in: F) -> usize
        requires { F.IsAlwaysCallable is_in }
        ensures { Passes (F.post is_in) self.entry.text.now self.entry.at result }
    {
        let rest = &self.text[self.at..];
        self.at + rest.iter().position(|b| !is_in(*b)).unwrap_or(rest.len())
    }

    /// The end of the blanks.
    pub(crate) fn past_blanks(self) -> usize
        ensures { Run Blank self.entry.text.now self.entry.at result }
    {
        self.run(|b| matches!(b, b' ' | b'\n'))
    }

    /// The end of the letters and digits.
    pub(crate) fn past_word(self) -> usize
        ensures { Run LetterOrDigit self.entry.text.now self.entry.at result }
    {
        self.run(|b| b.is_ascii_lowercase() || b.is_ascii_digit())
    }

    /// The end of the digits.
    pub(crate) fn past_digits(self) -> usize
        ensures { Run Digit self.entry.text.now self.entry.at result }
    {
        self.run(|b| b.is_ascii_digit())
    }
}
