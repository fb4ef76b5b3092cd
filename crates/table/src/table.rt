//! A reader over a table that passed the questions, or over none.

use crate::Token;

pub mod methods;

/// Reads a lent table by index. A table that was refused is read as if it were at its end.
// The table stays lent whole and is read by index, as a client sees it.
#[derive(Drop)]
pub struct Table<'a> {
    tokens: &'a [Token],
    at: usize,
    taken: u32,
}
