//! The small pieces of every member.
// `take`, `skip_semicolons` and `take_part` serve before a `Reading` is made.

ghost use Rattle.std.specs.Prelude.{◌≡◌, ◌&&◌, Ok};
ghost use Rattle.class.specs.Taking.{can_insert, inserted_d, is_kind, method_d, optional_d, part_d, question_d, semicolon_d, semicolon_or_d, told_part, type_d, value_d};
ghost use Rattle.dialogue.specs.Dialogues.{semicolons, stop};
ghost use Rattle.class.specs.Reading.{Reads, ReadsIn};
ghost use Rattle.dialogue.specs.Spoken.{Spoke};
ghost use Rattle.guard.specs.Changes.{changed_bits};
ghost use Rattle.reader.specs.Scenes.{Scene, past, past_one, scene};
ghost use Rattle.token.specs.Kinds.{k_colon};

use crate::noting::stop;
use crate::reading::Reading;
use dialogue::Fatal;
use guard::change::Change;
use guard::guarding::within;
use kinds::context::Context;
use list::list::List;
use parts::{MethodFacts, Part, Span};
use reader::TokenReader;
use reports::Report;
use script::ScriptReader;
use token::{Kind, Token};

/// Whether a token is of a kind.
pub(crate) fn is(t: Token, kind: Kind) -> bool
    ensures { result ≡ is_kind kind.code t.kind.code }
{
    t.kind == kind
}

// The bracket reader says the same for itself: it stands in for a parser, which the members know nothing of.
/// Whether a semicolon can be inserted before a token.
fn can_insert(t: Token) -> bool
    ensures { result ≡ can_insert t }
{
    is(t, Kind::RCURLY) || is(t, Kind::EOF) || t.line_break
}

/// Whether a type annotation starts at a token.
fn is_annotated(is_ts: bool, t: Token) -> bool
    ensures { result ≡ (is_ts && is_kind k_colon t.kind.code) }
{
    is_ts && is(t, Kind::COLON)
}

/// Takes the current token.
pub(crate) fn take<S: ScriptReader>(script: &mut S)
    ensures { scene S.TokenReader script.new ≡ past_one (scene S.TokenReader script.old) }
{
    script.advance();
}

/// Takes the semicolons that stand first.
pub(crate) fn skip_semicolons<S: ScriptReader>(script: &mut S)
    ensures { scene S.TokenReader script.new ≡ past (semicolons (S.TokenReader.tokens script.old)) (scene S.TokenReader script.old) }
{
    while is(script.current(), Kind::SEMICOLON) {
        take(script);
    }
}

/// Reports where something was refused.
fn settle<T>(answer: Result<T, Span>, reports: &mut List<'_, Report>) -> Result<T, Fatal>
    ensures { (s : Scene) → Spoke (told_part answer) s s reports.old reports.new result }
{
    // Not `map_err`: with it, the goal `returns` has the list afterwards as `reports-1.given`, of which no fact speaks.
    match answer {
        Ok(told) => Ok(told),
        Err(place) => stop(Fatal::Unexpected, place, reports),
    }
}

/// Takes a part, or reports where it was refused.
pub(crate) fn take_part<S: ScriptReader>(
    script: &mut S,
    part: Part,
    context: Context,
    reports: &mut List<'_, Report>,
) -> Result<Span, Fatal>
    ensures { Spoke (part_d part context.bits) (scene S.TokenReader script.old) (scene S.TokenReader script.new) reports.old reports.new result }
{
    settle(script.take_part(part, context), reports)
}

impl<S: ScriptReader> Reading<'_, '_, S> {
    /// Takes a token of a kind, if it stands there.
    pub(crate) fn optional(&mut self, kind: Kind) -> Option<Span>
        ensures { Reads S.TokenReader (optional_d kind.code) self.old self.new (Ok result) }
    {
        let t = self.script.current();
        if is(t, kind) {
            take(self.script);
            return Some(Span::from(t));
        }
        None
    }

    /// Takes `?`, in TypeScript.
    pub(crate) fn take_question(&mut self) -> Option<Span>
        ensures { Reads S.TokenReader (question_d self.old.is_ts) self.old self.new (Ok result) }
    {
        if self.is_ts {
            return self.optional(Kind::QUESTION);
        }
        None
    }

    /// Takes a semicolon, or finds that it can be inserted; else a fatal rule is reported at a place.
    fn take_semicolon_or(&mut self, fatal: Fatal, place: Span) -> Result<(), Fatal>
        ensures { Reads S.TokenReader (semicolon_or_d (λ _. stop fatal place)) self.old self.new result }
    {
        let t = self.script.current();
        if is(t, Kind::SEMICOLON) {
            take(self.script);
            return Ok(());
        }
        if can_insert(t) {
            return Ok(());
        }
        stop(fatal, place, self.reports)
    }

    /// Takes the semicolon of a property; where there is none, another token is expected.
    pub(crate) fn take_semicolon(&mut self) -> Result<(), Fatal>
        ensures { Reads S.TokenReader semicolon_d self.old self.new result }
    {
        let place = Span::from(self.script.current());
        self.take_semicolon_or(Fatal::ExpectToken, place)
    }

    /// The same of an accessor property, which wants it where the last token ended.
    pub(crate) fn take_inserted(&mut self) -> Result<(), Fatal>
        ensures { Reads S.TokenReader inserted_d self.old self.new result }
    {
        let end = self.script.last_end();
        let place = Span { start: end, end };
        self.take_semicolon_or(Fatal::AutoSemicolonInsertion, place)
    }

    /// Takes the rest of a method, or reports where it was refused.
    pub(crate) fn take_method(&mut self, context: Context) -> Result<MethodFacts, Fatal>
        ensures { Reads S.TokenReader (method_d context.bits) self.old self.new result }
    {
        settle(self.script.take_method(context), self.reports)
    }

    /// Takes a type annotation, in TypeScript.
    pub(crate) fn take_type(&mut self, context: Context) -> Result<Option<Span>, Fatal>
        ensures { Reads S.TokenReader (type_d self.old.is_ts context.bits) self.old self.new result }
    {
        if !is_annotated(self.is_ts, self.script.current()) {
            return Ok(None);
        }
        let span = take_part(self.script, Part::TypeAnnotation, context, self.reports)?;
        Ok(Some(span))
    }

    /// Takes a part under a change of the context.
    pub(crate) fn take_under(
        &mut self,
        part: Part,
        context: &mut Context,
        change: Change,
    ) -> Result<Span, Fatal>
        ensures { ReadsIn S.TokenReader (part_d part (changed_bits change context.old.bits)) self.old self.new context.old context.new result }
    {
        let guard = within(context, change);
        take_part(self.script, part, guard.current(), self.reports)
    }

    /// Takes an initializer.
    pub(crate) fn take_value(&mut self, context: &mut Context) -> Result<Option<Span>, Fatal>
        ensures { ReadsIn S.TokenReader (value_d context.old.bits) self.old self.new context.old context.new result }
    {
        if !is(self.script.current(), Kind::EQ) {
            return Ok(None);
        }
        take(self.script);
        let span = self.take_under(Part::Expression, context, Change::Initializer)?;
        Ok(Some(span))
    }
}
