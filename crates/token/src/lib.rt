//! Tokens: their kinds by code, what is asked of a kind, and the token itself. This crate knows no reader and no
//! text: whether a token is well formed, and where tokens come from, is said above it.

#![tactic(auto)]

ghost use Rattle.std.specs.Prelude.{◌≡◌};
ghost use Rattle.token.specs.Spans.{span_of};

use parts::Span;

pub mod kind;

pub use kind::Kind;

/// A token. A table that is handed in may hold a kind or a name code that is none, which its reader refuses.
#[derive(Clone, Copy, Debug, PartialEq, Eq)]
pub struct Token {
    pub kind: Kind,
    pub start: u32,
    pub end: u32,
    /// A line break stands between the token before and this one.
    pub line_break: bool,
    /// 1 for `constructor`, 2 for `prototype`, else 0; a string counts by its contents, a private name without its `#`.
    pub name: u8,
}

impl Token {
    /// The end of an empty input.
    pub const EOF_AT_0: Token = Token {
        kind: Kind::EOF,
        start: 0,
        end: 0,
        line_break: false,
        name: 0,
    };
}

impl From<Token> for Span {
    ghost from_gives = { λ t p. p ≡ span_of t };

    fn from(t: Token) -> Span {
        Span {
            start: t.start,
            end: t.end,
        }
    }
}
