//! The names of the marks.
ghost use Rattle.std.specs.Prelude.{◌≡◌, ℕ, List, [], ◌∷◌, ◌++◌, length, MatchResult};
ghost use Rattle.legend.specs.Names.{Lawful};
ghost use Rattle.legend.specs.Legends.{names_of};
ghost use Rattle.file.specs.File.{Command, name};
ghost use Rattle.file.specs.Reading.{Seen, after, due};
ghost use Rattle.reader.specs.Faults.{Refuses};
ghost use Rattle.reader.specs.Sofar.{Reached, named, opening};

use crate::body::Body;
use crate::cursor::Cursor;
use crate::fault::{FileFault, FileRule};
use file::kind::Kind;
use legend::Legend;
use refusal::Rule;

/// Reads one NAME and adds it to the legend.
fn read_name(cursor: &mut Cursor, legend: &mut Legend) -> Result<(), FileFault>
    ensures { (input : List ℕ) (cs : List Command) (s : Seen) → Reached input cursor.old cs s → due s ≡ 2 → s.names ≡ names_of legend.old → Lawful (names_of legend.old) → MatchResult result (λ _. (bytes : List ℕ) × Reached input cursor.new (cs ++ name (length (names_of legend.old)) bytes ∷ []) (after s (name (length (names_of legend.old)) bytes)) × (names_of legend.new ≡ names_of legend.old ++ bytes ∷ []) × Lawful (names_of legend.new)) (Refuses input) }
{
    let place = cursor.place;
    let operands = cursor.take::<9>(Kind::Name)?;
    if operands[0] != legend.count() {
        return Err(FileRule::Name.at(place));
    }
    // kept: with a pattern `[number, bytes @ ..]` the function gets no proof, since a part of an array that a pattern binds is not covered
    let bytes = operands[1..].try_into().unwrap();
    legend.add(bytes).ok_or(FileRule::Name.at(place))?;
    Ok(())
}

impl<'a> Body<'a> {
    /// Reads a NAME for each mark.
    pub(crate) fn read_names(&mut self) -> Result<Legend, FileFault>
        ensures header { self.new.header ≡ self.old.header }
        ensures reads { (input : List ℕ) → Reached input self.old.cursor (opening self.old.header []) (named self.old.header []) → MatchResult result (λ l. Reached input self.new.cursor (opening self.old.header (names_of l)) (named self.old.header (names_of l)) × (length (names_of l) ≡ self.old.header.marks) × Lawful (names_of l)) (Refuses input) }
    {
        let mut legend = Legend::empty();
        for _ in 0..self.header.marks {
            read_name(&mut self.cursor, &mut legend)?;
        }
        Ok(legend)
    }
}
