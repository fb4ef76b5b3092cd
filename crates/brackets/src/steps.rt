//! Single tokens.

ghost use Rattle.std.specs.Prelude.{◌≡◌, Bool};
ghost use Rattle.reader.specs.Tokens.{head};
ghost use Rattle.brackets.specs.Depth.{closes as closes_at};
ghost use Rattle.brackets.specs.Format.{semicolon_of};
ghost use Rattle.brackets.specs.Readings.{Reads, from_to, name as name_of, one, token as token_of};

use parts::Span;
use reader::TokenReader;
use token::{Kind, Token};

/// From the start of one token to the end of another.
pub fn from_to(first: Token, last: Token) -> Span
    ensures { result ≡ from_to first last }
{
    Span {
        start: first.start,
        end: last.end,
    }
}

/// From a start to the end of the last token taken.
pub fn since<R: TokenReader>(r: &R, start: u32) -> Span
    ensures { result ≡ record { start = start; end = R.TokenReader.last r.now } }
{
    Span {
        start,
        end: r.last_end(),
    }
}

pub fn closes(kind: Kind) -> bool
    ensures { result ≡ closes_at kind.code }
{
    matches!(kind, Kind::RPAREN | Kind::RBRACK | Kind::RCURLY)
}

// Takes the current token, if its kind fits.
fn take_if<R: TokenReader, F: FnOnce(Kind) -> bool>(r: &mut R, fits: F) -> Result<Token, Span>
    requires { F.IsAlwaysCallable fits }
    ensures { (b : Bool) × F.post fits (head (R.TokenReader.tokens r.old)).kind b × Reads R.TokenReader (one (λ _. b)) r.old result r.new }
{
    let t = r.current();
    if !fits(t.kind) {
        return Err(Span::from(t));
    }
    r.advance();
    Ok(t)
}

/// Takes a token of this kind.
pub fn expect<R: TokenReader>(r: &mut R, kind: Kind) -> Result<Token, Span>
    ensures { Reads R.TokenReader (token_of kind.code) r.old result r.new }
{
    take_if(r, |k| k == kind)
}

/// Takes a plain name or a keyword.
pub fn name<R: TokenReader>(r: &mut R) -> Result<Token, Span>
    ensures { Reads R.TokenReader name_of r.old result r.new }
{
    take_if(r, |k| k.is_identifier_name())
}

/// Takes a closing bracket of any kind.
pub fn closer<R: TokenReader>(r: &mut R) -> Result<Token, Span>
    ensures { Reads R.TokenReader (one closes_at) r.old result r.new }
{
    take_if(r, closes)
}

/// Takes a semicolon, unless one can be inserted.
pub fn semicolon<R: TokenReader>(r: &mut R) -> Result<(), Span>
    ensures { Reads R.TokenReader semicolon_of r.old result r.new }
{
    let t = r.current();
    if t.kind == Kind::SEMICOLON {
        r.advance();
        return Ok(());
    }
    if t.kind == Kind::RCURLY || t.kind == Kind::EOF || t.line_break {
        return Ok(());
    }
    Err(Span::from(t))
}
