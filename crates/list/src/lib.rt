//! A list over memory that is lent: one text for reports, member records and whatever else a caller wants noted. It
//! allocates nothing, and what finds no place is counted. It knows nothing of its elements.

#![tactic(auto)]

pub mod list;
