//! Parts that are put together of tokens, groups and lists.

ghost use Rattle.std.specs.Prelude.{◌≡◌, Result};
ghost use Rattle.std.specs.Fn.{FnOnceReturnsAtMut};
ghost use Rattle.parts.specs.declared.Span.{Span};
ghost use Rattle.token.specs.Kinds.{k_colon, k_langle};
ghost use Rattle.brackets.specs.Format.{annotation_of, body_of, decorator_of, index_of, method_facts, method_of, starts_index, type_of, type_parameters_of};
ghost use Rattle.brackets.specs.Readings.{Reading, Reads, optional};

use crate::groups::group;
use crate::parameters::{ParameterList, parameter_list};
use crate::steps::{expect, from_to, name, semicolon, since};
use parts::{MethodFacts, ReturnType, Span};
use reader::{Ahead, TokenReader};
use token::Kind;

/// `@` and a name.
pub fn decorator<R: TokenReader>(r: &mut R) -> Result<Span, Span>
    ensures { Reads R.TokenReader decorator_of r.old result r.new }
{
    let sign = expect(r, Kind::AT)?;
    let word = name(r)?;
    Ok(from_to(sign, word))
}

// `:` and a name.
fn type_of<R: TokenReader>(r: &mut R) -> Result<ReturnType, Span>
    ensures { Reads R.TokenReader type_of r.old result r.new }
{
    let colon = expect(r, Kind::COLON)?;
    let word = name(r)?;
    Ok(ReturnType {
        annotation: from_to(colon, word),
        type_span: Span::from(word),
    })
}

pub fn annotation<R: TokenReader>(r: &mut R) -> Result<Span, Span>
    ensures { Reads R.TokenReader annotation_of r.old result r.new }
{
    let found = type_of(r)?;
    Ok(found.annotation)
}

// `<`, a name and `>`.
fn angled<R: TokenReader>(r: &mut R) -> Result<Span, Span>
    ensures { Reads R.TokenReader type_parameters_of r.old result r.new }
{
    let left = expect(r, Kind::LANGLE)?;
    let _word = name(r)?;
    let right = expect(r, Kind::RANGLE)?;
    Ok(from_to(left, right))
}

// A part, if a token of this kind stands there.
fn optional<R: TokenReader, T, F: FnOnce(&mut R) -> Result<T, Span>>(
    r: &mut R,
    kind: Kind,
    take: F,
) -> Result<Option<T>, Span>
    requires { F.IsAlwaysCallable take }
    ensures { (f : Reading T) → ((x : Result T Span) (after : R) → FnOnceReturnsAtMut F.FnOnce take r.old x after → Reads R.TokenReader f r.old x after) → Reads R.TokenReader (optional kind.code f) r.old result r.new }
{
    if r.current().kind != kind {
        return Ok(None);
    }
    let found = take(r)?;
    Ok(Some(found))
}

fn type_parameters<R: TokenReader>(r: &mut R) -> Result<Option<Span>, Span>
    ensures { Reads R.TokenReader (optional k_langle type_parameters_of) r.old result r.new }
{
    optional(r, Kind::LANGLE, angled)
}

fn return_type<R: TokenReader>(r: &mut R) -> Result<Option<ReturnType>, Span>
    ensures { Reads R.TokenReader (optional k_colon type_of) r.old result r.new }
{
    optional(r, Kind::COLON, type_of)
}

// Where the body starts, or a semicolon in its place.
fn body<R: TokenReader>(r: &mut R) -> Result<Option<u32>, Span>
    ensures { Reads R.TokenReader body_of r.old result r.new }
{
    if r.current().kind == Kind::LCURLY {
        let block = group(r, Kind::LCURLY)?;
        return Ok(Some(block.start));
    }
    semicolon(r)?;
    Ok(None)
}

fn method_facts(
    type_parameters: Option<Span>,
    list: ParameterList,
    return_type: Option<ReturnType>,
    body_start: Option<u32>,
    span: Span,
) -> MethodFacts
    ensures { result ≡ method_facts type_parameters list return_type body_start span }
{
    let found = list.parameters;
    let first = found.first_item;
    MethodFacts {
        span,
        type_parameters,
        parameters: list.span,
        count: found.count,
        first_item: first.map(|item| item.span),
        first_optional: first.is_some_and(|item| item.optional),
        first_initializer: first.is_some_and(|item| item.initializer),
        rest: found.rest,
        this_param: found.this_param,
        return_type,
        body_start,
    }
}

/// All that stands after a method's name.
pub fn method<R: TokenReader>(r: &mut R) -> Result<MethodFacts, Span>
    ensures { Reads R.TokenReader method_of r.old result r.new }
{
    let start = r.current().start;
    let type_parameters = type_parameters(r)?;
    let list = parameter_list(r)?;
    let return_type = return_type(r)?;
    let body_start = body(r)?;
    let span = since(r, start);
    Ok(method_facts(type_parameters, list, return_type, body_start, span))
}

/// `[` to its closer, a type and a semicolon.
pub fn index<R: TokenReader>(r: &mut R) -> Result<Span, Span>
    ensures { Reads R.TokenReader index_of r.old result r.new }
{
    let start = r.current().start;
    let _keys = group(r, Kind::LBRACK)?;
    let _values = type_of(r)?;
    semicolon(r)?;
    Ok(since(r, start))
}

pub fn starts_index<R: TokenReader>(r: &R) -> bool
    ensures { result ≡ starts_index (R.TokenReader.tokens r.now) }
{
    let second = r.peek(Ahead::One);
    let third = r.peek(Ahead::Two);
    r.current().kind == Kind::LBRACK
        && second.kind.is_identifier_name()
        && third.kind == Kind::COLON
}
