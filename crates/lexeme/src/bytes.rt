//! Bytes at the front of a text, and the classes of bytes that run together.

ghost use Rattle.std.specs.Prelude.{◌≡◌, ℕ, ◌≤◌, Bool, length, slice_index};
ghost use Rattle.std.specs.List.{prefix_len};
ghost use Rattle.lexeme.specs.Bytes.{Computes, in_name, in_quotes, is_blank, is_line_break, is_quote, on_line, starts_name};
ghost use Rattle.lexeme.specs.Format.{holds_break};

fn is_line_break(b: u8) -> bool
    ensures { result ≡ is_line_break b }
{
    b == b'\r' || b == b'\n'
}

pub(crate) fn is_blank(b: u8) -> bool
    ensures { result ≡ is_blank b }
{
    b == b' ' || b == b'\t' || is_line_break(b)
}

pub(crate) fn is_quote(b: u8) -> bool
    ensures { result ≡ is_quote b }
{
    b == b'\'' || b == b'"'
}

pub(crate) fn starts_name(b: u8) -> bool
    ensures { result ≡ starts_name b }
{
    b.is_ascii_alphabetic() || b == b'_' || b == b'$'
}

pub(crate) fn in_name(b: u8) -> bool
    ensures { result ≡ in_name b }
{
    starts_name(b) || b.is_ascii_digit()
}

/// All but CR and LF.
pub(crate) fn on_line(b: u8) -> bool
    ensures { result ≡ on_line b }
{
    !is_line_break(b)
}

/// What a string can hold between two of these quotes.
pub(crate) fn in_quotes(quote: u8, b: u8) -> bool
    ensures { result ≡ in_quotes quote b }
{
    !(b == quote || b == b'\\' || is_line_break(b))
}

/// The byte at `i`, or 0 past the end.
// 0 and not `None`: the format's own definitions read a text past its end so.
pub(crate) fn byte_at(text: &[u8], i: usize) -> u8
    ensures { result ≡ slice_index text.now i }
{
    text.get(i).copied().unwrap_or(0)
}

/// How many bytes at the front pass a test.
pub(crate) fn run_size<F: Fn(u8) -> bool>(text: &[u8], test: F) -> usize
    requires { F.IsAlwaysCallable test }
    ensures value { (p : ℕ → Bool) → Computes (F.post test) p → result ≡ prefix_len p text.now }
    ensures within { result ≤ length text.now }
{
    text.iter().take_while(|b| test(**b)).count()
}

/// Whether CR or LF stands among the first `n` bytes.
pub(crate) fn holds_break(n: usize, text: &[u8]) -> bool
    ensures { result ≡ holds_break n text.now }
{
    run_size(text, on_line) < n
}
