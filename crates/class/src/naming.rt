//! The names of members.

ghost use Rattle.std.specs.Prelude.{◌≡◌, Ok};
ghost use Rattle.class.specs.Naming.{closed_d, computed_d, name_d, named, private_d, private_name_d, property_name_d, special_of};
ghost use Rattle.class.specs.Reading.{Reads, ReadsIn};
ghost use Rattle.dialogue.specs.Spoken.{Spoke};
ghost use Rattle.modifiers.specs.Lists.{entries};
ghost use Rattle.reader.specs.Scenes.{Scene};

use crate::noting::{note_if, stop};
use crate::reading::Reading;
use crate::taking::{is, take};
use checks::class_check::ClassCheck;
use checks::class_checks::run_check;
use dialogue::Fatal;
use guard::change::Change;
use kinds::context::Context;
use list::list::List;
use modifiers::Modifiers;
use parts::{Part, Span};
use reader::TokenReader;
use records::{Name, NameKind};
use reports::Report;
use rules::Rule;
use script::ScriptReader;
use token::{Kind, Token};

/// A PropName that a class treats in a way of its own.
#[derive(Clone, Copy, Debug, PartialEq, Eq)]
pub enum SpecialName {
    Constructor,
    Prototype,
}

/// A name, and which special one an identifier or a string is.
#[derive(Clone, Copy, Debug, PartialEq, Eq)]
pub struct ReadName {
    pub name: Name,
    pub special: Option<SpecialName>,
}

/// The special name that a token carries, by its name code.
pub(crate) fn special_name(t: Token) -> Option<SpecialName>
    ensures { result ≡ special_of t.name }
{
    match t.name {
        1 => Some(SpecialName::Constructor),
        2 => Some(SpecialName::Prototype),
        _ => None,
    }
}

/// A name of a kind at a place.
pub(crate) fn name_at(kind: NameKind, span: Span, special: Option<SpecialName>) -> ReadName
    ensures { result ≡ named kind span special }
{
    ReadName {
        name: Name { kind, span },
        special,
    }
}

// Notes what a private name earns, and answers it.
fn note_private(t: Token, reports: &mut List<'_, Report>) -> ReadName
    ensures { (s : Scene) → Spoke (private_name_d t) s s reports.old reports.new (Ok result) }
{
    let place = Span::from(t);
    let constructor = special_name(t) == Some(SpecialName::Constructor);
    note_if(constructor, Rule::PrivateNameConstructor, place, reports);
    name_at(NameKind::Private, place, None)
}

// The same, and checks the keywords before it.
fn check_private(
    is_ts: bool,
    modifiers: Modifiers,
    t: Token,
    reports: &mut List<'_, Report>,
) -> ReadName
    ensures { (s : Scene) → Spoke (private_d is_ts (entries modifiers) t) s s reports.old reports.new (Ok result) }
{
    if is_ts {
        run_check(ClassCheck::PrivateName, modifiers, reports);
        return note_private(t, reports);
    }
    note_private(t, reports)
}

impl<S: ScriptReader> Reading<'_, '_, S> {
    // Takes `]` after the expression of a computed name.
    fn close_name(&mut self, span: Span) -> Result<ReadName, Fatal>
        ensures { Reads S.TokenReader (closed_d span) self.old self.new result }
    {
        let t = self.script.current();
        if is(t, Kind::RBRACK) {
            take(self.script);
            return Ok(name_at(NameKind::Computed, span, None));
        }
        stop(Fatal::ExpectToken, Span::from(t), self.reports)
    }

    // Reads a computed name after `[`.
    fn read_computed(&mut self, context: &mut Context) -> Result<ReadName, Fatal>
        ensures { ReadsIn S.TokenReader (computed_d context.old.bits) self.old self.new context.old context.new result }
    {
        let span = self.take_under(Part::Expression, context, Change::ComputedName)?;
        self.close_name(span)
    }

    // Reads a name that is not private.
    fn read_property_name(&mut self, context: &mut Context) -> Result<ReadName, Fatal>
        ensures { ReadsIn S.TokenReader (property_name_d context.old.bits) self.old self.new context.old context.new result }
    {
        let t = self.script.current();
        if is(t, Kind::STR) {
            take(self.script);
            return Ok(name_at(NameKind::String, Span::from(t), special_name(t)));
        }
        if t.kind.is_number() {
            take(self.script);
            return Ok(name_at(NameKind::Number, Span::from(t), None));
        }
        if is(t, Kind::LBRACK) {
            take(self.script);
            return self.read_computed(context);
        }
        if t.kind.is_identifier_name() {
            take(self.script);
            return Ok(name_at(NameKind::Identifier, Span::from(t), special_name(t)));
        }
        stop(Fatal::Unexpected, Span::from(t), self.reports)
    }

    /// Reads the name of a member.
    pub(crate) fn read_name(
        &mut self,
        context: &mut Context,
        modifiers: Modifiers,
    ) -> Result<ReadName, Fatal>
        ensures { ReadsIn S.TokenReader (name_d self.old.is_ts context.old.bits (entries modifiers)) self.old self.new context.old context.new result }
    {
        run_check(ClassCheck::ConstInOut, modifiers, self.reports);
        let t = self.script.current();
        if is(t, Kind::PRIVATE_IDENTIFIER) {
            take(self.script);
            return Ok(check_private(self.is_ts, modifiers, t, self.reports));
        }
        self.read_property_name(context)
    }
}
