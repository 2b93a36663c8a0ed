//! One list over places handed in, for any kind of element.
#![tactic(auto)]

ghost use Rattle.std.specs.Prelude.{◌≤◌, length};

use thiserror::Error;

mod methods;

/// A list over borrowed places: its items are the first `count` of them.
// kept: the library has no heap, so the places are the caller's and the count stands beside them.
#[derive(Drop)]
pub struct List<'a, T> {
    places: &'a mut [T],
    count: usize,
    ghost within: { count ≤ length places.now },
}

/// The refusal of items for which there are too few places.
#[derive(Clone, Copy, PartialEq, Eq, Debug, Error)]
#[error("the list has too few places")]
pub struct Full;
