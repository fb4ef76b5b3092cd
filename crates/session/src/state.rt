//! What a session is, the calls on it, and what they tell.

ghost use Rattle.std.specs.Prelude.{◌≡◌};
ghost use Rattle.session.specs.Worlds.{fatal_of};

use dialogue::Fatal;
use kinds::context::Context;

#[derive(Clone, Copy, Debug, PartialEq, Eq)]
pub enum Language {
    TypeScript,
    JavaScript,
}

#[derive(Clone, Copy, Debug, PartialEq, Eq)]
pub enum State {
    Fresh,
    Open,
    Closed,
    /// After a fatal rule.
    Faulted(Fatal),
}

impl State {
    /// The fatal rule that it is after, if it is after one.
    pub fn fatal(self) -> Option<Fatal>
        ensures { result ≡ fatal_of self }
    {
        match self {
            State::Faulted(fatal) => Some(fatal),
            _ => None,
        }
    }
}

#[derive(Clone, Copy, Debug, PartialEq, Eq)]
pub enum Call {
    Open,
    Member,
    Close,
    Standing,
}

/// What comes of reading a member.
// `Result<Option<()>, Fatal>` has the same three ways, but none of their names; and a fault is not a refusal.
#[derive(Clone, Copy, Debug, PartialEq, Eq)]
pub enum Reading {
    /// Its record was kept.
    Member,
    /// `}` stands next.
    NoMore,
    /// A fatal rule ended it, and the session.
    Fault(Fatal),
}

/// How a session and its lists stand.
#[derive(Clone, Copy, Debug, PartialEq, Eq)]
pub struct Standing {
    pub state: State,
    pub members: usize,
    pub kept: usize,
    pub missed: u16,
}

/// Its state and its settings: the language and the context in which the class stands.
#[derive(Clone, Copy, Debug, PartialEq, Eq)]
pub struct Session {
    pub(crate) state: State,
    pub(crate) language: Language,
    pub(crate) context: Context,
}
