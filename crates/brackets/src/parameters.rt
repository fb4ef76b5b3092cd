//! Parameter lists.

ghost use Rattle.std.specs.Prelude.{◌≡◌};
ghost use Rattle.brackets.specs.Depth.{inside};
ghost use Rattle.brackets.specs.Format.{parameter_list_of};
ghost use Rattle.brackets.specs.Inner.{ends_stretch, extended_by, started_by, stretch_of, told, with_one};
ghost use Rattle.brackets.specs.Parameters.{parameters_in};
ghost use Rattle.brackets.specs.Readings.{Reads, Skips};

use crate::groups::fold_until;
use crate::steps::{closer, closes, expect, from_to};
use parts::Span;
use reader::TokenReader;
use token::{Kind, Token};

/// What is told of an item: its span, and whether `?` and `=` stand among its own tokens.
#[derive(Clone, Copy, Debug, PartialEq, Eq)]
pub struct Item {
    pub span: Span,
    pub optional: bool,
    pub initializer: bool,
}

/// What is told of the parameters in a list.
#[derive(Clone, Copy, Debug, Default, PartialEq, Eq)]
pub struct Parameters {
    pub this_param: Option<Span>,
    pub rest: Option<Span>,
    pub first_item: Option<Item>,
    pub count: u32,
}

/// A list with its brackets.
#[derive(Clone, Copy, Debug, PartialEq, Eq)]
pub struct ParameterList {
    pub span: Span,
    pub parameters: Parameters,
}

/// The tokens between two commas of a list, as far as they are read: the kind of the first, and what is told of them as
/// an item.
#[derive(Clone, Copy, Debug, PartialEq, Eq)]
pub struct Stretch {
    pub kind: Kind,
    pub item: Item,
}

fn extended(s: Option<Stretch>, depth: u32, t: Token) -> Option<Stretch>
    ensures { result ≡ extended_by depth t s }
{
    let Stretch { kind, item } = s.unwrap_or(Stretch {
        kind: t.kind,
        item: Item {
            span: Span::from(t),
            optional: false,
            initializer: false,
        },
    });
    let own = depth == 0;
    let item = Item {
        span: Span {
            end: t.end,
            ..item.span
        },
        optional: item.optional || own && t.kind == Kind::QUESTION,
        initializer: item.initializer || own && t.kind == Kind::EQ,
    };
    Some(Stretch { kind, item })
}

fn ends_stretch(depth: u32, t: Token) -> bool
    ensures { result ≡ ends_stretch depth t }
{
    t.kind == Kind::EOF || depth == 0 && (closes(t.kind) || t.kind == Kind::COMMA)
}

// Takes the tokens before one of the list's own commas, its closer or the end of input.
fn take_stretch<R: TokenReader>(r: &mut R) -> Option<Stretch>
    ensures value { result ≡ told (stretch_of (R.TokenReader.tokens r.old)) }
    ensures after { Skips R.TokenReader stretch_of r.old r.new }
{
    fold_until(r, 0, None, ends_stretch, extended)
}

fn with_one(p: Parameters, s: Option<Stretch>) -> Parameters
    ensures { result ≡ with_one p s }
{
    let Some(s) = s else {
        return p;
    };
    let count = p.count.saturating_add(1);
    if s.kind == Kind::DOT3 && p.rest.is_none() {
        return Parameters {
            rest: Some(s.item.span),
            count,
            ..p
        };
    }
    Parameters {
        first_item: p.first_item.or(Some(s.item)),
        count,
        ..p
    }
}

fn started(s: Option<Stretch>) -> Parameters
    ensures { result ≡ started_by s }
{
    let none = Parameters::default();
    match s {
        Some(this) if this.kind == Kind::THIS => Parameters {
            this_param: Some(this.item.span),
            ..none
        },
        _ => with_one(none, s),
    }
}

// Takes what stands in the brackets of a list.
fn take_parameters<R: TokenReader>(r: &mut R) -> Parameters
    ensures value { result ≡ parameters_in (inside (R.TokenReader.tokens r.old)) }
    ensures after { Skips R.TokenReader inside r.old r.new }
{
    let s = take_stretch(r);
    let mut found = started(s);
    while r.current().kind == Kind::COMMA {
        r.advance();
        let s = take_stretch(r);
        found = with_one(found, s);
    }
    found
}

/// From `(` to its closer.
pub fn parameter_list<R: TokenReader>(r: &mut R) -> Result<ParameterList, Span>
    ensures { Reads R.TokenReader parameter_list_of r.old result r.new }
{
    let opener = expect(r, Kind::LPAREN)?;
    let parameters = take_parameters(r);
    let closer = closer(r)?;
    Ok(ParameterList {
        span: from_to(opener, closer),
        parameters,
    })
}
