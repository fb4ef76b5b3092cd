//! The members of a class body, form by form, over any script reader. Each function's contract is the piece of dialogue
//! that it speaks. This crate knows the forms of ECMAScript and TypeScript and what they may not hold; where tokens come
//! from, where an expression, a type or a method's rest ends, and what is made of a record, it may not know.

#![tactic(auto)]

mod blocks;
mod decorating;
mod forms;
mod judging;
pub mod members;
mod methods;
pub mod naming;
mod noting;
pub mod properties;
mod reading;
mod taking;

pub use members::read_member;
