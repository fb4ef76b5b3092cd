//! The context guard: a change of the context's flags that lasts as long as a value of this crate is held, and is undone
//! on every way out. This crate knows which flags each change sets and clears, and not what is read under it.

#![tactic(auto)]

pub mod change;
pub mod guarding;
