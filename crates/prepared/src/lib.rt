//! The prepared reader: a script reader over a table of tokens and a table of part answers, both lent. A part ends where
//! a record says so. This crate knows no grammar and no text, and nothing of what is made of a part.

#![tactic(auto)]

mod answering;
pub mod prepared;
pub mod records;
mod taking;
