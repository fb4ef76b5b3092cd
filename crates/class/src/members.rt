//! A member as a whole.

ghost use Rattle.std.specs.Prelude.{◌≡◌, Some, Ok};
ghost use Rattle.class.specs.Members.{decorated_d, decorators_if, holds_decorators, is_bodiless, member_d, member_end_d, told_in};
ghost use Rattle.class.specs.Reading.{ReadsIn};
ghost use Rattle.dialogue.specs.Spoken.{Spoke};
ghost use Rattle.modifiers.specs.Lists.{entries};
ghost use Rattle.reader.specs.Scenes.{scene};
ghost use Rattle.records.specs.Decorators.{spans_of};
ghost use Rattle.records.specs.Told.{told_by};

use crate::decorating::{Before, note_decorators, take_decorators};
use crate::reading::Reading;
use crate::taking::{is, skip_semicolons};
use dialogue::Fatal;
use keywords::{ListSettings, parse_modifiers};
use kinds::context::Context;
use list::list::List;
use parts::Span;
use reader::TokenReader;
use records::{Decorators, Form, MemberRecord};
use reports::Report;
use rules::Rule;
use script::ScriptReader;
use token::Kind;

const SETTINGS: ListSettings = ListSettings {
    const_allowed: true,
    static_block_ends: true,
};

fn is_bodiless(form: Form) -> bool
    ensures { result ≡ is_bodiless form }
{
    match form {
        Form::Method(m) | Form::Getter(m) | Form::Setter(m) | Form::Constructor(m) => {
            m.facts.body_start.is_none()
        }
        _ => false,
    }
}

fn holds_decorators(form: Form) -> bool
    ensures { result ≡ holds_decorators form }
{
    !matches!(form, Form::IndexSignature { .. } | Form::StaticBlock(_))
}

fn decorators_if(holds: bool, decorators: Decorators) -> Decorators
    ensures { spans_of result ≡ decorators_if holds (spans_of decorators) }
{
    if holds {
        decorators
    } else {
        Decorators::none()
    }
}

fn end_member<S: ScriptReader>(
    script: &mut S,
    start: u32,
    before: Before,
    form: Form,
    reports: &mut List<'_, Report>,
) -> MemberRecord
    ensures { Spoke (member_end_d start (entries before.modifiers) (spans_of before.decorators) form) (scene S.TokenReader script.old) (scene S.TokenReader script.new) reports.old reports.new (Ok (Some (told_by result))) }
{
    let noted = decorators_if(is_bodiless(form), before.decorators);
    note_decorators(Rule::DecoratorOnOverload, noted, reports);
    let end = script.last_end();
    MemberRecord {
        span: Span { start, end },
        modifiers: before.modifiers,
        decorators: decorators_if(holds_decorators(form), before.decorators),
        form,
    }
}

impl<S: ScriptReader> Reading<'_, '_, S> {
    fn read_decorated(
        &mut self,
        context: &mut Context,
        start: u32,
        decorators: Decorators,
    ) -> Result<Option<MemberRecord>, Fatal>
        ensures { ReadsIn S.TokenReader (decorated_d self.old.is_ts context.old.bits start (spans_of decorators)) self.old self.new context.old context.new (told_in result) }
    {
        let before = Before {
            decorators,
            modifiers: parse_modifiers(self.script, SETTINGS, self.reports),
        };
        let form = self.read_form(context, before)?;
        Ok(Some(end_member(self.script, start, before, form, self.reports)))
    }
}

/// Reads a member, or none before `}`.
// `is_ts` is a flag: a member only asks whether the script is TypeScript, and the session has the language's name.
pub fn read_member<S: ScriptReader>(
    script: &mut S,
    is_ts: bool,
    context: &mut Context,
    reports: &mut List<'_, Report>,
) -> Result<Option<MemberRecord>, Fatal>
    ensures spoke { Spoke (member_d is_ts context.old.bits) (scene S.TokenReader script.old) (scene S.TokenReader script.new) reports.old reports.new (told_in result) }
    ensures context { context.new ≡ context.old }
{
    skip_semicolons(script);
    let t = script.current();
    if is(t, Kind::RCURLY) {
        return Ok(None);
    }
    let decorators = take_decorators(script, *context, reports)?;
    let mut reading = Reading {
        script,
        is_ts,
        reports,
    };
    reading.read_decorated(context, t.start, decorators)
}
