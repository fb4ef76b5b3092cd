//! The sorts of tokens, each by a function of its own that is handed the text from where the sort is certain.

ghost use Rattle.std.specs.Prelude.{◌≡◌, ◌≤◌, length};
ghost use Rattle.lexeme.specs.Format.{before_close, blanks as blanks_of, block_comment, comment as comment_of, digits as digits_of, dots as dots_of, line_comment, name_code, plain as plain_of, private_name, punctuator_kind, string_literal, word as word_at};

use crate::Lexeme;
use crate::bytes::{
    byte_at, holds_break, in_name, in_quotes, is_blank, on_line, run_size, starts_name,
};
use crate::words::word_kind;
use token::Kind;

#[tactic(auto, unfolding(crate::specs::Format::name_code))]
fn name_code(name: &[u8]) -> u8
    ensures { result ≡ name_code name.now }
{
    match name {
        b"constructor" => 1,
        b"prototype" => 2,
        _ => 0,
    }
}

/// A lexeme with no line break and no name code.
pub(crate) fn plain(kind: Kind, size: usize) -> Lexeme
    ensures { result ≡ plain_of kind.code size }
{
    Lexeme {
        kind,
        size,
        line_break: false,
        name: 0,
    }
}

pub(crate) fn blanks(text: &[u8]) -> Lexeme
    ensures { result ≡ blanks_of text.now }
{
    let n = run_size(text, is_blank);
    Lexeme {
        line_break: holds_break(n, text),
        ..plain(Kind::SKIP, n)
    }
}

pub(crate) fn word(text: &[u8]) -> Lexeme
    ensures { result ≡ word_at text.now }
{
    let n = run_size(text, in_name);
    let name = &text[..n];
    Lexeme {
        name: name_code(name),
        ..plain(word_kind(name), n)
    }
}

pub(crate) fn digits(text: &[u8]) -> Lexeme
    ensures { result ≡ digits_of text.now }
{
    plain(Kind::DECIMAL, run_size(text, |b| b.is_ascii_digit()))
}

/// After `#`.
pub(crate) fn private_name(rest: &[u8]) -> Lexeme
    ensures { result ≡ private_name rest.now }
{
    if !starts_name(byte_at(rest, 0)) {
        return plain(Kind::UNDETERMINED, 1);
    }
    let n = run_size(rest, in_name);
    Lexeme {
        name: name_code(&rest[..n]),
        ..plain(Kind::PRIVATE_IDENTIFIER, n + 1)
    }
}

/// After a quote.
pub(crate) fn string_literal(quote: u8, rest: &[u8]) -> Lexeme
    ensures { result ≡ string_literal quote rest.now }
{
    let n = run_size(rest, |b| in_quotes(quote, b));
    if byte_at(rest, n) != quote {
        return plain(Kind::UNDETERMINED, rest.len() + 1);
    }
    Lexeme {
        name: name_code(&rest[..n]),
        ..plain(Kind::STR, n + 2)
    }
}

/// After `//`.
fn line_comment(rest: &[u8]) -> Lexeme
    ensures { result ≡ line_comment rest.now }
{
    plain(Kind::SKIP, run_size(rest, on_line) + 2)
}

/// How many bytes stand before the first `*/`; all of them where there is none.
fn before_close(rest: &[u8]) -> usize
    ensures value { result ≡ before_close rest.now }
    ensures within { result ≤ length rest.now }
{
    rest.windows(2)
        .position(|w| w == b"*/".as_slice())
        .unwrap_or(rest.len())
}

/// After `/*`.
fn block_comment(rest: &[u8]) -> Lexeme
    ensures { result ≡ block_comment rest.now }
{
    let n = before_close(rest);
    if n == rest.len() {
        return plain(Kind::UNDETERMINED, n + 2);
    }
    Lexeme {
        line_break: holds_break(n, rest),
        ..plain(Kind::SKIP, n + 4)
    }
}

/// After `/`.
pub(crate) fn comment(rest: &[u8]) -> Lexeme
    ensures { result ≡ comment_of rest.now }
{
    match rest {
        [b'/', line @ ..] => line_comment(line),
        [b'*', body @ ..] => block_comment(body),
        _ => plain(Kind::UNDETERMINED, 1),
    }
}

/// After `.`.
pub(crate) fn dots(rest: &[u8]) -> Lexeme
    ensures { result ≡ dots_of rest.now }
{
    if rest.starts_with(b"..") {
        plain(Kind::DOT3, 3)
    } else {
        plain(Kind::UNDETERMINED, 1)
    }
}

/// The kind of a byte that is a token by itself.
pub(crate) fn punctuator_kind(b: u8) -> Kind
    ensures { result.code ≡ punctuator_kind b }
{
    match b {
        b'{' => Kind::LCURLY,
        b'}' => Kind::RCURLY,
        b'(' => Kind::LPAREN,
        b')' => Kind::RPAREN,
        b'[' => Kind::LBRACK,
        b']' => Kind::RBRACK,
        b'<' => Kind::LANGLE,
        b'>' => Kind::RANGLE,
        b';' => Kind::SEMICOLON,
        b',' => Kind::COMMA,
        b':' => Kind::COLON,
        b'?' => Kind::QUESTION,
        b'!' => Kind::BANG,
        b'=' => Kind::EQ,
        b'*' => Kind::STAR,
        b'@' => Kind::AT,
        _ => Kind::UNDETERMINED,
    }
}
