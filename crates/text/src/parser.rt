//! What a question is read with.
ghost use Rattle.std.specs.Prelude.{◌+◌, ◌≤◌, length};
ghost use Rattle.list.specs.Lists.{room};
ghost use Rattle.text.specs.Sizes.{most_bytes};

use crate::cursor::Cursor;
use crate::terms::Terms;
use list::List;
use logic::line::Line;

/// A place in a text, what the text may speak of, and the lines that were read, with a place for a line for each byte that is left.
#[derive(Drop)]
pub(crate) struct Parser<'a, 'b> {
    pub(crate) cursor: Cursor<'a>,
    pub(crate) terms: Terms,
    pub(crate) lines: List<'b, Line>,
    ghost few: { length lines.places.now ≤ most_bytes },
    ghost spare: { length cursor.text.now ≤ cursor.at + room lines },
}
