//! A token reader over a text that is lent: it holds the current token and lexes the next one when it is asked for.
//! This crate knows neither what the tokens say nor that blanks and comments are left out by others.

#![tactic(auto)]

use source::Source;
use token::Token;

pub mod laws;
pub mod reading;
mod source;

/// The tokens after the current one are read from its end on.
#[derive(Drop)]
pub struct Text<'a> {
    source: Source<'a>,
    current: Token,
    last: u32,
}
