//! The token reader over a table of tokens that is lent: the table is checked by the gate's first four questions, and
//! then read by index. This crate knows nothing of text.

#![tactic(auto)]

use token::Token;

mod questions;
pub mod table;
