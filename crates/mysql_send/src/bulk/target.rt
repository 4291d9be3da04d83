//! What rows of requests are made for.

use std::borrow::CowSlice;

/// What rows are made for: the names of a statement's placeholders, how many placeholders it has,
/// and the number that the server gives it.
#[derive(Clone, Copy)]
pub(crate) struct Target<'a> {
    pub names: &'a [CowSlice<'a, u8>],
    pub places: usize,
    pub id: u32,
}
