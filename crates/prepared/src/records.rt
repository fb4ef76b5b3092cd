//! Records of parts, and the first of them that stands at a place.

ghost use Rattle.std.specs.Prelude.{◌≡◌};
ghost use Rattle.prepared.specs.Records.{asked_of, first_at};

use parts::{MethodFacts, Part, Span};

/// What a record tells of the part that it is of: facts, or the place of a refusal.
#[derive(Clone, Copy, Debug, PartialEq, Eq)]
pub enum Told {
    Plain {
        part: Part,
        result: Result<Span, Span>,
    },
    Method {
        result: Result<MethodFacts, Span>,
    },
}

/// A part that is answered beforehand.
#[derive(Clone, Copy, Debug, PartialEq, Eq)]
pub struct PartRecord {
    pub told: Told,
    /// The start of the token where the part begins.
    pub start: u32,
    /// How many tokens it takes.
    pub count: u32,
}

// What a reader of scripts is asked for: a plain part, or a method's rest.
#[derive(Clone, Copy, Debug, PartialEq, Eq)]
pub(crate) enum Asked {
    Plain(Part),
    Method,
}

impl Told {
    // What this is an answer to.
    fn asked(self) -> Asked
        ensures { result ≡ asked_of self }
    {
        match self {
            Told::Plain { part, .. } => Asked::Plain(part),
            Told::Method { .. } => Asked::Method,
        }
    }
}

// The first record of what is asked, at this start.
pub(crate) fn find(records: &[PartRecord], asked: Asked, start: u32) -> Option<PartRecord>
    ensures { result ≡ first_at asked start records.now }
{
    records
        .iter()
        .find(|r| r.told.asked() == asked && r.start == start)
        .copied()
}
