//! Checks of a keyword list: each kept kind that a check does not allow is reported once, at its last occurrence, by
//! ascending start. The checks of class members stand here by name, each with its allowed set and its wording. This crate
//! does not know which member reaches which check.

#![tactic(auto)]

pub mod class_check;
pub mod class_checks;
pub mod stands;
pub mod verifying;
pub mod wording;
