//! Where in its bytes the reading of a file is.
ghost use Rattle.std.specs.Prelude.{◌≡◌, ℕ, ◌+◌, ◌^◌, ◌<◌, ◌∷◌, ◌++◌, length, MatchResult};
ghost use Rattle.file.specs.Kinds.{code_of};
ghost use Rattle.file.specs.Reading.{Seen, Fails, due, size};
ghost use Rattle.reader.specs.Faults.{rule_number};

use crate::fault::{FileFault, FileRule};
use file::kind::Kind;
use refusal::Rule;

/// The bytes that are not read yet, and the place at which they begin.
#[derive(Drop)]
pub(crate) struct Cursor<'a> {
    pub(crate) rest: &'a [u8],
    pub(crate) place: usize,
    ghost fits: { place + length rest.now < 2 ^ 64 },
}

impl<'a> Cursor<'a> {
    /// The start of the input.
    pub(crate) fn new(input: &'a [u8]) -> Cursor<'a>
        ensures { (result.rest.now ≡ input.now) × (result.place ≡ 0) }
    {
        Cursor {
            rest: input,
            place: 0,
        }
    }

    /// The operands of the command of this kind that comes next, or a fault at its place, which leaves the cursor there.
    #[tactic(auto, using(crate::proofs::Failing::absent, crate::proofs::Failing::other, crate::proofs::Failing::short))]
    pub(crate) fn take<const N: usize>(&mut self, kind: Kind) -> Result<[u8; N], FileFault>
        requires { N ≡ size (code_of kind) }
        ensures { MatchResult result (λ operands. (self.old.rest.now ≡ code_of kind ∷ operands ++ self.new.rest.now) × (length operands ≡ N) × (self.new.place ≡ self.old.place + 1 + N)) (λ f. (f.place ≡ self.old.place) × ((s : Seen) → due s ≡ code_of kind → Fails s self.old.rest.now (rule_number f.rule)) × (self.new.rest.now ≡ self.old.rest.now) × (self.new.place ≡ self.old.place)) }
    {
        let short = FileRule::Short.at(self.place);
        let (code, after) = self.rest.split_first().ok_or(short)?;
        if *code != kind.code() {
            return Err(FileRule::Due.at(self.place));
        }
        let (operands, rest) = after.split_first_chunk().ok_or(short)?;
        self.rest = rest;
        self.place += 1 + N;
        Ok(*operands)
    }
}
