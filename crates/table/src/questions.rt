//! The gate's questions 1 to 4, each asked of the whole table before the next one.

ghost use Rattle.std.specs.Prelude.{◌≡◌};
ghost use Rattle.reader.specs.Sound.{all_known, all_placed, before, known, sized};
ghost use Rattle.reader.specs.Tokens.{ended};
ghost use Rattle.refusal.specs.Questions.{first_no, refused_by};
ghost use Rattle.table.specs.Tables.{table_questions};

use kinds::modifier_kind::ModifierKind;
use refusal::Refusal;
use token::{Kind, Token};

const MOST_TOKENS: usize = 65_536;

fn is_known(t: Token) -> bool
    ensures { result ≡ known t }
{
    let named = t.name == 0
        || t.kind.is_identifier_name()
        || t.kind == Kind::STR
        || t.kind == Kind::PRIVATE_IDENTIFIER;
    t.kind.code <= Kind::AT.code && t.name <= 2 && named
}

fn are_known(ts: &[Token]) -> bool
    ensures { result ≡ all_known ts.now }
{
    ts.iter().all(|t| is_known(*t))
}

// The end of input stands last, and only there.
fn is_ended(ts: &[Token]) -> bool
    ensures { result ≡ ended ts.now }
{
    ts.iter()
        .position(|t| t.kind == Kind::EOF)
        .is_some_and(|i| i + 1 == ts.len())
}

fn is_sized(t: Token) -> bool
    ensures { result ≡ sized t }
{
    if t.kind == Kind::EOF {
        return t.start == t.end;
    }
    if t.end <= t.start {
        return false;
    }
    match t.kind.modifier_kind() {
        Some(m) => t.end - t.start == m.len(),
        None => true,
    }
}

// The token does not reach beyond the start of the next one, if there is one.
fn is_before(t: Token, after: &[Token]) -> bool
    ensures { result ≡ before t after.now }
{
    match after {
        [next, ..] => t.kind == Kind::EOF || t.end <= next.start,
        [] => true,
    }
}

// In one pass, so that a table is left at its first token that is not placed.
fn are_placed(ts: &[Token]) -> bool
    ensures { result ≡ all_placed ts.now }
{
    let mut rest = ts;
    while let [t, after @ ..] = rest {
        if !is_sized(*t) || !is_before(*t, after) {
            return false;
        }
        rest = after;
    }
    true
}

// The lowest question that fails, if any does.
pub(crate) fn check(ts: &[Token]) -> Result<(), Refusal>
    ensures { refused_by result ≡ first_no (table_questions ts.now) }
{
    if ts.is_empty() || ts.len() > MOST_TOKENS {
        return Err(Refusal::TokenCount);
    }
    if !are_known(ts) {
        return Err(Refusal::TokenKind);
    }
    if !is_ended(ts) {
        return Err(Refusal::EofPlace);
    }
    if !are_placed(ts) {
        return Err(Refusal::TokenPlace);
    }
    Ok(())
}
