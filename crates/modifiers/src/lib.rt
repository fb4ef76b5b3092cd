//! The keywords that were read before a member: each kind once, at its last place, in the order
//! of those places.
//!
//! It knows kinds, their words and places, and neither which kinds may stand together nor who
//! reads them.
#![tactic(auto)]

pub mod iter;
pub mod modifier;
pub mod modifiers;

pub use iter::Iter;
pub use modifier::{Modifier, Placed};
pub use modifiers::Modifiers;
