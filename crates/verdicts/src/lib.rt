//! What may not stand before what: which modifier keywords are forbidden before a keyword, and
//! what is said of one that stands there all the same.
//!
//! It knows the kinds and sets of them, and neither where a keyword was written nor how a verdict
//! is worded.
#![tactic(auto)]

pub mod order;
pub mod tables;

pub use order::{OrderVerdict, order_stands, order_verdict};
pub use tables::{row, verdict};
