//! A place in a text.
ghost use Rattle.std.specs.Prelude.{◌≤◌, length};

/// A place in a text, from which tokens are read.
// kept: a type beside the cursor of `reader`, whose clauses speak of the unread bytes alone
#[derive(Clone, Copy)]
pub(crate) struct Cursor<'a> {
    pub(crate) text: &'a [u8],
    pub(crate) at: usize,
    ghost within: { at ≤ length text.now },
}
