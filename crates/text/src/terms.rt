//! What a text may speak of: the names of a legend, and agents.
ghost use Rattle.std.specs.Prelude.{◌≡◌, ℕ, ◌^◌, ◌<◌, length, MatchOption, MatchResult, ◌≢◌, slice_index};
ghost use Rattle.sets.specs.Sets.{who};
ghost use Rattle.legend.specs.Names.{LetterOrDigit};
ghost use Rattle.grammar.specs.Tokens.{Rising, number};
ghost use Rattle.text.specs.declared.fault.TextRule.TheVariants as rule;
ghost use Rattle.text.specs.Vocabularies.{terms_of};

use crate::fault::{TextFault, TextRule};
use legend::Legend;
use refusal::Rule;
use sets::coalition::Coalition;

/// The names that stand for marks, and the number of agents.
#[derive(Clone, Copy)]
pub(crate) struct Terms {
    pub(crate) legend: Legend,
    pub(crate) agents: u8,
}

/// The coalition that rising digits from 0 to 5 name, or none for other digits.
// kept: read once more where the token is used, since a token holds the part of the text that it fills
pub(crate) fn coalition(digits: &[u8]) -> Option<Coalition>
    ensures { MatchOption result (Rising 48 digits.now → ⊥) (λ c. Rising 48 digits.now × (who c ≡ number digits.now)) }
{
    let mut bits = 0u8;
    let mut low = b'0';
    for &d in digits {
        if d < low || d > b'5' {
            return None;
        }
        bits += 1 << (d - b'0');
        low = d + 1;
    }
    Some(Coalition::from(bits))
}

impl Terms {
    /// The coalition that digits name, or a fault at their place where an agent does not exist.
    pub(crate) fn members(&self, digits: &[u8], place: usize) -> Result<Coalition, TextFault>
        requires { Rising 48 digits.now }
        ensures { MatchResult result (λ c. (who c ≡ number digits.now) × (who c < 2 ^ (terms_of self.now).agents)) (λ f. (f.rule ≡ rule.Agent) × (f.place ≡ place) × (number digits.now < 2 ^ (terms_of self.now).agents → ⊥)) }
    {
        coalition(digits)
            .filter(|members| members.is_among(self.agents))
            .ok_or(TextRule::Agent.at(place))
    }

    /// The mark that a word names, or a fault at its place.
    pub(crate) fn mark(&self, word: &[u8], place: usize) -> Result<u8, TextFault>
        requires { (i : ℕ) → i < length word.now → LetterOrDigit (slice_index word.now i) }
        ensures { MatchResult result (λ m. (m < (terms_of self.now).marks) × ((terms_of self.now).word m ≡ word.now)) (λ f. (f.rule ≡ rule.Name) × (f.place ≡ place) × ((i : ℕ) → i < (terms_of self.now).marks → (terms_of self.now).word i ≢ word.now)) }
    {
        self.legend.find(word).ok_or(TextRule::Name.at(place))
    }
}
