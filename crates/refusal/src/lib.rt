//! Why a table, a text or a call is refused: one enum for the whole gate, so that every refusal has its number.

#![tactic(auto)]

ghost use Rattle.std.specs.Prelude.{◌≡◌};
ghost use Rattle.refusal.specs.Numbers.{refusal_number};

#[derive(Clone, Copy, Debug, PartialEq, Eq)]
pub enum Refusal {
    /// A table of no token, or of more than 65,536.
    TokenCount = 1,
    /// A kind or a name code that is not known, or a name code on a token that can have none.
    TokenKind,
    /// The end of input is not last, or not only there.
    EofPlace,
    /// A token that ends before or at its start or beyond the next start, an end of input that is not empty, or a
    /// modifier keyword that is not as long as its word.
    TokenPlace,
    /// A text of more than 65,536 bytes.
    TextLength,
    /// A byte above 127.
    TextByte,
    /// `open` on a session that is not fresh.
    NotFresh,
    /// `open` where no `{` stands.
    NoOpenBrace,
    /// A call that wants an open session.
    NotOpen,
    /// No free place in the member list.
    NoMemberPlace,
    /// `close` where no `}` stands.
    NoCloseBrace,
}

impl Refusal {
    pub fn number(self) -> u8
        ensures { result ≡ refusal_number self }
    {
        self as u8
    }
}

/// A reader, and why what it was made over was refused, if it was. Over what was refused, a reader means the end of
/// input alone.
#[derive(Drop)]
pub struct Opened<R> {
    pub reader: R,
    pub refused: Option<Refusal>,
}
