//! Refusals: each reason to refuse has a number, and many have a place.
#![tactic(auto)]

ghost use Rattle.std.specs.Prelude.{◌≡◌, ℕ, ◌++◌, Some, codes, decimal};
ghost use Rattle.std.specs.Fmt.{◌++?◌};

use std::error::Error;
use std::fmt;

/// A reason to refuse, with the number by which users know it.
pub trait Numbered: Copy {
    ghost number_of: { Self → ℕ };

    /// The refusal's number.
    // kept: each enum reads its own by `as`, which no generic code can write
    fn number(self) -> u8
        ensures { result ≡ number_of self };
}

/// A rule that an input can break at a place.
pub trait Rule: Numbered {
    /// The fault that this rule is broken at a place.
    fn at(self, place: usize) -> Fault<Self>
        ensures { (result.rule ≡ self) × (result.place ≡ place) }
    {
        Fault { rule: self, place }
    }
}

/// The rule that an input breaks, and the place at which that is found.
#[derive(Clone, Copy, PartialEq, Eq, Debug)]
pub struct Fault<R> {
    pub rule: R,
    pub place: usize,
}

impl<R: Numbered> Numbered for Fault<R> {
    ghost number_of = { λ fault. R.number_of fault.rule };

    fn number(self) -> u8 {
        self.rule.number()
    }
}

impl<R: fmt::Display> fmt::Display for Fault<R> {
    ghost output = { λ fault. R.output fault.rule ++? Some (codes ", at byte " ++ decimal fault.place) };

    fn fmt<W: fmt::Write>(&self, f: &mut fmt::Formatter<W>) -> fmt::Result {
        write!(f, "{}, at byte {}", self.rule, self.place)
    }
}

impl<R: fmt::Debug + fmt::Display + Drop> Error for Fault<R> {}
