//! Member records: what is kept of a member that was read. Types, and the decorators' list. It does not know how a
//! member is read.

#![tactic(auto)]

pub mod decorators;
pub mod record;

pub use decorators::Decorators;
pub use record::{Accessor, Form, MemberRecord, Method, Name, NameKind, Property};
