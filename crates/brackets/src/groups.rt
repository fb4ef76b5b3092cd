//! Parts whose end is told by depth.

ghost use Rattle.std.specs.Prelude.{◌≡◌, ℕ, Bool};
ghost use Rattle.token.specs.declared.Token.{Token};
ghost use Rattle.brackets.specs.Depth.{deeper as deeper_at, folded, inside, opens as opens_at, up_to};
ghost use Rattle.brackets.specs.Format.{ends_expression, ends_later, expression_of, group_of};
ghost use Rattle.brackets.specs.Readings.{Reads, Skips};
ghost use Rattle.brackets.specs.Walks.{EndsAtEof, EndsWhere, StepsBy};

use crate::steps::{closer, closes, expect, from_to, since};
use parts::Span;
use reader::TokenReader;
use token::{Kind, Token};

fn opens(kind: Kind) -> bool
    ensures { result ≡ opens_at kind.code }
{
    matches!(kind, Kind::LPAREN | Kind::LBRACK | Kind::LCURLY)
}

// The depth after a token of this kind.
fn deeper(depth: u32, kind: Kind) -> u32
    ensures { result ≡ deeper_at depth kind.code }
{
    if opens(kind) {
        depth.saturating_add(1)
    } else if closes(kind) {
        depth.saturating_sub(1)
    } else {
        depth
    }
}

/// Takes the tokens before the first at which `ends` holds, and folds them. Each is told with its depth, the first with
/// `depth`.
pub fn fold_until<R: TokenReader, S, E: Fn(u32, Token) -> bool, F: Fn(S, u32, Token) -> S>(
    r: &mut R,
    depth: u32,
    start: S,
    ends: E,
    with: F,
) -> S
    requires ends { E.IsAlwaysCallable ends }
    requires with { F.IsAlwaysCallable with }
    requires at_eof { EndsAtEof (E.post ends) }

    ensures value { (stops : ℕ → Token → Bool) (step : ℕ → Token → S → S) → EndsWhere stops (E.post ends) → StepsBy step (F.post with) → result ≡ folded step depth start (up_to stops depth (R.TokenReader.tokens r.old)) }
    ensures after { (stops : ℕ → Token → Bool) → EndsWhere stops (E.post ends) → Skips R.TokenReader (up_to stops depth) r.old r.new }
{
    let mut depth = depth;
    let mut told = start;
    loop {
        let t = r.current();
        if ends(depth, t) {
            return told;
        }
        told = with(told, depth, t);
        depth = deeper(depth, t.kind);
        r.advance();
    }
}

// The same with nothing told.
fn skip_until<R: TokenReader, E: Fn(u32, Token) -> bool>(r: &mut R, depth: u32, ends: E)
    requires ends { E.IsAlwaysCallable ends }
    requires at_eof { EndsAtEof (E.post ends) }
    ensures { (stops : ℕ → Token → Bool) → EndsWhere stops (E.post ends) → Skips R.TokenReader (up_to stops depth) r.old r.new }
{
    fold_until(r, depth, (), ends, |(), _, _| ());
}

// Takes the tokens before the closer of the brackets around the current one, or before the end of input.
fn skip_inside<R: TokenReader>(r: &mut R)
    ensures { Skips R.TokenReader inside r.old r.new }
{
    skip_until(
        r,
        0,
        |depth, t| t.kind == Kind::EOF || depth == 0 && closes(t.kind),
    );
}

/// From a bracket of this kind to its closer.
pub fn group<R: TokenReader>(r: &mut R, kind: Kind) -> Result<Span, Span>
    ensures { Reads R.TokenReader (group_of kind.code) r.old result r.new }
{
    let opener = expect(r, kind)?;
    skip_inside(r);
    let closer = closer(r)?;
    Ok(from_to(opener, closer))
}

fn ends_expression(depth: u32, kind: Kind) -> bool
    ensures { result ≡ ends_expression depth kind.code }
{
    kind == Kind::EOF
        || depth == 0 && (kind == Kind::SEMICOLON || kind == Kind::COMMA || closes(kind))
}

// Takes the tokens of an expression after its first, which left this depth.
fn skip_expression<R: TokenReader>(r: &mut R, depth: u32)
    ensures { Skips R.TokenReader (up_to ends_later depth) r.old r.new }
{
    skip_until(
        r,
        depth,
        |depth, t| ends_expression(depth, t.kind) || depth == 0 && t.line_break,
    );
}

pub fn expression<R: TokenReader>(r: &mut R) -> Result<Span, Span>
    ensures { Reads R.TokenReader expression_of r.old result r.new }
{
    let first = r.current();
    if ends_expression(0, first.kind) {
        return Err(Span::from(first));
    }
    r.advance();
    skip_expression(r, deeper(0, first.kind));
    Ok(since(r, first.start))
}
