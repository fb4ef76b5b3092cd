//! A text that passed the gate's questions 5 and 6, and its tokens by their places.

ghost use Rattle.std.specs.Prelude.{◌≡◌, ◌≤◌, length};

use lexeme::first;
use refusal::Refusal;
use token::{Kind, Token};

const MOST_BYTES: usize = 65_536;

/// Each of its places fits a token.
#[derive(Clone, Copy)]
pub(crate) struct Source<'a> {
    bytes: &'a [u8],
    ghost short: { length bytes.now ≤ 65536 },
}

impl<'a> TryFrom<&'a [u8]> for Source<'a> {
    ghost use Rattle.text.specs.Sources.{Opens};

    type Error = Refusal;

    ghost try_from_gives = { Opens };

    fn try_from(text: &'a [u8]) -> Result<Source<'a>, Refusal> {
        if text.len() > MOST_BYTES {
            return Err(Refusal::TextLength);
        }
        if !text.is_ascii() {
            return Err(Refusal::TextByte);
        }
        Ok(Source { bytes: text })
    }
}

impl Source<'_> {
    ghost use Rattle.std.specs.Prelude.{drop};
    ghost use Rattle.reader.specs.Tokens.{next};
    ghost use Rattle.text.specs.Lexed.{token_at};
    ghost use Rattle.text.specs.Means.{held_tokens};

    /// No text.
    pub(crate) const EMPTY: Source<'static> = Source { bytes: &[] };

    /// The token that begins at a place, Eof beyond the end.
    pub(crate) fn token_at(&self, place: u32) -> Token
        ensures { result ≡ token_at place (drop place self.now.bytes.now) }
    {
        let lexeme = first(self.bytes.get(place as usize..).unwrap_or_default());
        Token {
            kind: lexeme.kind,
            start: place,
            end: place + lexeme.size as u32,
            line_break: lexeme.line_break,
            name: lexeme.name,
        }
    }

    /// The token after another; Eof stays.
    pub(crate) fn after(&self, t: Token) -> Token
        ensures { held_tokens result self.now.bytes.now ≡ next (held_tokens t self.now.bytes.now) }
    {
        if t.kind == Kind::EOF {
            t
        } else {
            self.token_at(t.end)
        }
    }
}
