//! A row of the table: a number of places, a space, and a text in which `$` stands for a line end, `~` for a tab and `^` for a carriage return.
use std::alloc::{AllocError, Global};

#[derive(Drop)]
pub(crate) struct Row {
    pub(crate) places: usize,
    pub(crate) text: Vec<u8>,
}

impl Row {
    /// The row that a line of input spells: a digit is the low half of its byte, and a number too large wraps.
    pub(crate) fn read(heap: Global, line: &str) -> Result<Row, AllocError> {
        let (places, text) = line.split_once(' ').unwrap_or((line, ""));
        let places = places.bytes().fold(0usize, |places, byte| {
            places.wrapping_mul(10).wrapping_add(usize::from(byte & 15))
        });
        let text = text
            .bytes()
            .map(|byte| match byte {
                b'$' => b'\n',
                b'~' => b'\t',
                b'^' => b'\r',
                other => other,
            })
            .collect(heap)?;
        Ok(Row { places, text })
    }
}
