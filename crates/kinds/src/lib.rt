//! The kinds that class members are written with: modifier keywords and context flags,
//! and the sets of them.
//!
//! It knows their numbers and their words, and neither what they mean nor where one may stand.
#![tactic(auto)]

pub mod context;
pub mod modifier_kind;
pub mod modifier_kinds;

pub use context::{Context, ContextFlag};
pub use modifier_kind::ModifierKind;
pub use modifier_kinds::ModifierKinds;
