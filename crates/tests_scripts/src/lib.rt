//! Tests of the script readers and of the context guard.

#![tactic(auto)]

use blanks::token;
use brackets::Brackets;
use guard::change::Change;
use guard::guarding::seen_under;
use kinds::context::Context;
use parts::{MethodFacts, Part, Span};
use prepared::prepared::Prepared;
use prepared::records::{PartRecord, Told};
use reader::TokenReader;
use script::ScriptReader;
use table::table::Table;
use text::Text;
use token::{Kind, Token};
use trivia::Trivia;

type Place = (u32, u32);

fn span(place: Place) -> Span {
    Span {
        start: place.0,
        end: place.1,
    }
}

fn spans(wanted: Result<Place, Place>) -> Result<Span, Span> {
    wanted.map(span).map_err(span)
}

// Takes a part, and gives what is told of it and the start of the token after it.
fn taken<S: ScriptReader>(script: &mut S, part: Part) -> (Result<Span, Span>, u32) {
    let answer = script.take_part(part, Context::none());
    (answer, script.current().start)
}

// A part at the front of a text, through brackets and trivia.
fn gives(text: &[u8], part: Part, wanted: Result<Place, Place>, then: u32) -> bool {
    let mut script = Brackets::new(Trivia::new(Text::new(text).reader));
    taken(&mut script, part) == (spans(wanted), then)
}

fn method(text: &[u8]) -> Option<MethodFacts> {
    let mut script = Brackets::new(Trivia::new(Text::new(text).reader));
    script.take_method(Context::none()).ok()
}

// A method's rest is refused here, and the tokens before that are taken.
fn refused(text: &[u8], at: Place) -> bool {
    let mut script = Brackets::new(Trivia::new(Text::new(text).reader));
    let told = script.take_method(Context::none());
    told.err() == Some(span(at)) && script.current().start == at.0
}

// The parameters of a method's rest: how many, the first item, the rest and `this`.
fn parameters(
    text: &[u8],
    count: u32,
    item: Option<Place>,
    rest: Option<Place>,
    this: Option<Place>,
) -> bool {
    match method(text) {
        Some(m) => m.count == count
            && m.first_item == item.map(span)
            && m.rest == rest.map(span)
            && m.this_param == this.map(span),
        None => false,
    }
}

// Whether the first item is optional, and whether it has an initializer.
fn marks(text: &[u8], optional: bool, initializer: bool) -> bool {
    match method(text) {
        Some(m) => m.first_optional == optional && m.first_initializer == initializer,
        None => false,
    }
}

fn starts_index(text: &[u8]) -> bool {
    let script = Brackets::new(Trivia::new(Text::new(text).reader));
    script.starts_index(Context::none())
}

fn plain(part: Part, wanted: Result<Place, Place>, start: u32, count: u32) -> PartRecord {
    PartRecord {
        told: Told::Plain {
            part,
            result: spans(wanted),
        },
        start,
        count,
    }
}

// What a reader over these tokens and records gives for an expression.
fn prepared<'a>(
    tokens: &'a [Token],
    records: &'a [PartRecord],
    wanted: Result<Place, Place>,
    then: u32,
) -> bool {
    let mut script = Prepared::new(tokens, records).reader;
    taken(&mut script, Part::Expression) == (spans(wanted), then)
}

// A method's facts, the start of the token after it, and the last end.
fn method_of<S: ScriptReader>(script: &mut S) -> Option<(MethodFacts, u32, u32)> {
    let m = script.take_method(Context::none()).ok()?;
    Some((m, script.current().start, script.last_end()))
}

fn bracket_method(tokens: &[Token]) -> Option<(MethodFacts, u32, u32)> {
    let mut script = Brackets::new(Table::new(tokens).reader);
    method_of(&mut script)
}

fn prepared_method<'a>(
    tokens: &'a [Token],
    records: &'a [PartRecord],
) -> Option<(MethodFacts, u32, u32)> {
    let mut script = Prepared::new(tokens, records).reader;
    method_of(&mut script)
}

#[cfg(test)]
mod tests {
    use super::*;
    use std::test::Fail;

    #[test]
    fn expressions(rt: HostRuntime) {
        assert!(rt; gives(b"a; b", Part::Expression, Ok((0, 1)), 1));
        assert!(rt; gives(b";", Part::Expression, Err((0, 1)), 0));
        assert!(rt; gives(b"", Part::Expression, Err((0, 0)), 0));
        assert!(rt; gives(b"a(b, c) d\ne", Part::Expression, Ok((0, 9)), 10));
        assert!(rt; gives(b"\na b", Part::Expression, Ok((1, 4)), 4));
        assert!(rt; gives(b"(a\n]b, c", Part::Expression, Ok((0, 5)), 5));
        assert!(rt; gives(b"(a", Part::Expression, Ok((0, 2)), 2));
    }

    #[test]
    fn other_parts(rt: HostRuntime) {
        assert!(rt; gives(b": T = 1", Part::TypeAnnotation, Ok((0, 3)), 4));
        assert!(rt; gives(b": = 1", Part::TypeAnnotation, Err((2, 3)), 2));
        assert!(rt; gives(b"@a b", Part::Decorator, Ok((0, 2)), 3));
        assert!(rt; gives(b"@(", Part::Decorator, Err((1, 2)), 1));
        assert!(rt; gives(b"{ a { } ) x", Part::Block, Ok((0, 9)), 10));
        assert!(rt; gives(b"{ a", Part::Block, Err((3, 3)), 3));
        assert!(rt; gives(b"[k: T]: T\n}", Part::IndexRest, Ok((0, 9)), 10));
        assert!(rt; gives(b"[k: T]: T x", Part::IndexRest, Err((10, 11)), 10));
        assert!(rt;
            starts_index(b"[k: T]") && !starts_index(b"[k]: T") && !starts_index(b"['k': T]")
        );
    }

    #[test]
    fn parameter_lists(rt: HostRuntime) {
        assert!(rt; parameters(b"() {}", 0, None, None, None));
        assert!(rt; parameters(b"(a, [b, c], d);", 3, Some((1, 2)), None, None));
        assert!(rt; parameters(b"(this: T, a);", 1, Some((10, 11)), None, Some((1, 8))));
        assert!(rt; parameters(b"(, this);", 1, Some((3, 7)), None, None));
        assert!(rt; parameters(b"(a, this);", 2, Some((1, 2)), None, None));
        assert!(rt; parameters(b"(...a, ...b);", 2, Some((7, 11)), Some((1, 5)), None));
        assert!(rt; parameters(b"(, , );", 0, None, None, None));
        assert!(rt; parameters(b"(a] {}", 1, Some((1, 2)), None, None));
    }

    #[test]
    fn marks_of_the_first_item(rt: HostRuntime) {
        assert!(rt; marks(b"(a?);", true, false));
        assert!(rt; marks(b"(a = b ? c);", true, true));
        assert!(rt; marks(b"({a = 1}, b?);", false, false));
        assert!(rt; marks(b"(...r = 1, a);", false, false));
    }

    #[test]
    fn method_rests(rt: HostRuntime) -> Result<(), Fail> {
        let m = method(b"<T>(a): R { x }").ok_or("refused")?;
        assert!(rt;
            m.span == span((0, 15))
                && m.type_parameters == Some(span((0, 3)))
                && m.parameters == span((3, 6))
        );
        let r = m.return_type.ok_or("no return type")?;
        assert!(rt;
            r.annotation == span((6, 9)) && r.type_span == span((8, 9)) && m.body_start == Some(10)
        );
        let late = method(b"()\n{}").ok_or("refused")?;
        assert!(rt; late.body_start == Some(3) && late.span == span((0, 5)));
        let none = method(b"()\nx").ok_or("refused")?;
        assert!(rt; none.body_start.is_none() && none.span == span((0, 2)));
        let brace = method(b"() }").ok_or("refused")?;
        let end = method(b"()").ok_or("refused")?;
        assert!(rt; brace.body_start.is_none() && end.body_start.is_none());
        assert!(rt;
            refused(b"() x", (3, 4)) && refused(b"<T, U>()", (2, 3)) && refused(b"<>()", (1, 2))
        );
        assert!(rt;
            refused(b"(a", (2, 2)) && refused(b"a()", (0, 1)) && refused(b"(): {}", (4, 5))
        );
        Ok(())
    }

    #[test]
    fn prepared_answers(rt: HostRuntime) {
        let ts = [
            token(Kind::IDENT, 4, 5),
            token(Kind::SEMICOLON, 5, 6),
            token(Kind::EOF, 9, 9),
        ];
        assert!(rt;
            prepared(
                &ts,
                &[plain(Part::Expression, Ok((90, 95)), 4, 1)],
                Ok((90, 95)),
                5
            )
        );
        assert!(rt;
            prepared(
                &ts,
                &[plain(Part::Expression, Err((90, 95)), 4, 2)],
                Err((90, 95)),
                9,
            )
        );
        assert!(rt; prepared(&ts, &[], Err((4, 5)), 4));
        assert!(rt;
            prepared(
                &ts,
                &[
                    plain(Part::Block, Ok((90, 95)), 4, 1),
                    plain(Part::Expression, Ok((90, 95)), 5, 1),
                ],
                Err((4, 5)),
                4,
            )
        );
        assert!(rt;
            prepared(
                &ts,
                &[plain(Part::Expression, Ok((90, 95)), 4, 3)],
                Err((4, 5)),
                4
            )
        );
        assert!(rt;
            prepared(
                &ts,
                &[plain(Part::Expression, Ok((90, 95)), 4, 0)],
                Err((4, 5)),
                4
            )
        );
        assert!(rt;
            prepared(
                &ts,
                &[plain(Part::Expression, Err((90, 95)), 4, 0)],
                Err((90, 95)),
                4,
            )
        );
        assert!(rt;
            prepared(
                &ts,
                &[
                    plain(Part::Expression, Ok((90, 95)), 4, 9),
                    plain(Part::Expression, Ok((90, 95)), 4, 1),
                ],
                Err((4, 5)),
                4,
            )
        );
    }

    #[test]
    fn both_readers_agree(rt: HostRuntime) -> Result<(), Fail> {
        let ts = [
            token(Kind::LPAREN, 3, 4),
            token(Kind::THIS, 4, 8),
            token(Kind::COMMA, 8, 9),
            token(Kind::IDENT, 10, 11),
            token(Kind::RPAREN, 11, 12),
            token(Kind::SEMICOLON, 12, 13),
            token(Kind::RCURLY, 13, 14),
            token(Kind::EOF, 14, 14),
        ];
        let (a, a_then, a_last) = bracket_method(&ts).ok_or("refused")?;
        let records = [PartRecord {
            told: Told::Method { result: Ok(a) },
            start: 3,
            count: 6,
        }];
        let (b, b_then, b_last) = prepared_method(&ts, &records).ok_or("refused")?;
        assert!(rt; b.span == a.span && b.parameters == a.parameters);
        assert!(rt;
            b.count == 1
                && a.count == 1
                && a.this_param == Some(span((4, 8)))
                && b.this_param == Some(span((4, 8)))
        );
        assert!(rt; a_then == 13 && b_then == 13 && a_last == 13 && b_last == 13);
        Ok(())
    }

    #[test]
    fn a_guard_left_early(rt: HostRuntime) -> Result<(), Fail> {
        let mut context = Context::none();
        assert!(rt;
            seen_under(&mut context, Change::Ambient, Err(7), Change::Initializer).is_err()
        );
        assert_eq!(rt; context.bits(), 0);
        let seen = seen_under(&mut context, Change::Ambient, Ok(()), Change::Initializer);
        assert_eq!(rt; context.bits(), 0);
        assert_eq!(rt; seen.ok().ok_or("left early")?.bits(), 321);
        Ok(())
    }
}
