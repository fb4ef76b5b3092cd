//! The lexical format of a class body: what stands at the front of a text, with its kind and size. This crate knows
//! neither where in a script the text begins, nor what stood before it, nor who reads the tokens.

#![tactic(auto)]

ghost use Rattle.std.specs.Prelude.{◌≡◌, ◌≤◌, length};
ghost use Rattle.lexeme.specs.Format.{lexeme_of};

use bytes::{is_blank, is_quote, starts_name};
use sorts::{
    blanks, comment, digits, dots, plain, private_name, punctuator_kind, string_literal, word,
};
use token::Kind;

mod bytes;
mod sorts;
mod words;

/// A token before it has a place.
#[derive(Clone, Copy, Debug, PartialEq, Eq)]
pub struct Lexeme {
    pub kind: Kind,
    /// In bytes; 0 at the text's end alone.
    pub size: usize,
    /// Whether it holds CR or LF. Only a Skip does.
    pub line_break: bool,
    /// 1 for `constructor`, 2 for `prototype`, else 0, as in a token.
    pub name: u8,
}

/// The first lexeme of a text, Eof where the text is empty.
#[tactic(auto, unfolding(crate::specs::Format::lexeme_of))]
pub fn first(text: &[u8]) -> Lexeme
    ensures value { result ≡ lexeme_of text.now }
    ensures within { result.size ≤ length text.now }
{
    let Some((&b, rest)) = text.split_first() else {
        return plain(Kind::EOF, 0);
    };
    if is_blank(b) {
        blanks(text)
    } else if starts_name(b) {
        word(text)
    } else if b.is_ascii_digit() {
        digits(text)
    } else if is_quote(b) {
        string_literal(b, rest)
    } else if b == b'#' {
        private_name(rest)
    } else if b == b'/' {
        comment(rest)
    } else if b == b'.' {
        dots(rest)
    } else {
        plain(punctuator_kind(b), 1)
    }
}
