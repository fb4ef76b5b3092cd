//! Getters, setters, constructors and other methods.

ghost use Rattle.std.specs.Prelude.{◌≡◌, Ok};
ghost use Rattle.class.specs.Forms.{accessor_d, accessor_form, constructor_d, element_checks_d, method_form_d};
ghost use Rattle.class.specs.Reading.{Reads, ReadsIn};
ghost use Rattle.dialogue.specs.Spoken.{Spoke};
ghost use Rattle.modifiers.specs.Lists.{entries};
ghost use Rattle.reader.specs.Scenes.{Scene};
ghost use Rattle.records.specs.Decorators.{spans_of};

use crate::decorating::{Before, note_decorators};
use crate::judging::{AccessorKind, judge, method_of, note_accessor, note_constructor, note_plain};
use crate::naming::ReadName;
use crate::reading::Reading;
use checks::class_check::ClassCheck;
use checks::class_checks::run_check;
use dialogue::Fatal;
use kinds::context::Context;
use list::list::List;
use modifiers::Modifiers;
use reader::TokenReader;
use records::{Form, Method};
use reports::Report;
use rules::Rule;
use script::ScriptReader;

/// Checks what no member has.
pub(crate) fn check_element(is_ts: bool, modifiers: Modifiers, reports: &mut List<'_, Report>)
    ensures { (s : Scene) → Spoke (element_checks_d is_ts (entries modifiers)) s s reports.old reports.new (Ok tt) }
{
    run_check(ClassCheck::Element, modifiers, reports);
    if is_ts {
        return;
    }
    run_check(ClassCheck::JavaScript, modifiers, reports);
}

fn accessor_form(kind: AccessorKind, m: Method) -> Form
    ensures { result ≡ accessor_form kind m }
{
    match kind {
        AccessorKind::Getter => Form::Getter(m),
        AccessorKind::Setter => Form::Setter(m),
    }
}

impl<S: ScriptReader> Reading<'_, '_, S> {
    /// Reads a getter or a setter after its keyword.
    pub(crate) fn read_accessor(
        &mut self,
        context: &mut Context,
        modifiers: Modifiers,
        kind: AccessorKind,
    ) -> Result<Form, Fatal>
        ensures { ReadsIn S.TokenReader (accessor_d self.old.is_ts context.old.bits (entries modifiers) kind) self.old self.new context.old context.new result }
    {
        check_element(self.is_ts, modifiers, self.reports);
        let here = *context;
        let name = self.read_name(context, modifiers)?;
        let facts = self.take_method(here)?;
        let m = method_of(name, modifiers, false, false, facts);
        note_accessor(self.is_ts, kind, judge(m, name, here), self.reports);
        run_check(ClassCheck::Accessor, modifiers, self.reports);
        Ok(accessor_form(kind, m))
    }

    /// Reads a constructor after its name.
    pub(crate) fn read_constructor(
        &mut self,
        context: Context,
        before: Before,
        name: ReadName,
    ) -> Result<Form, Fatal>
        ensures { Reads S.TokenReader (constructor_d self.old.is_ts context.bits (entries before.modifiers) (spans_of before.decorators) name) self.old self.new result }
    {
        note_decorators(
            Rule::DecoratorsNotValidHere,
            before.decorators,
            self.reports,
        );
        check_element(self.is_ts, before.modifiers, self.reports);
        run_check(ClassCheck::ConstInOut, before.modifiers, self.reports);
        run_check(ClassCheck::Constructor, before.modifiers, self.reports);
        let facts = self.take_method(context)?;
        let m = method_of(name, before.modifiers, false, false, facts);
        note_constructor(judge(m, name, context), self.reports);
        Ok(Form::Constructor(m))
    }

    /// Reads any other method after its name.
    pub(crate) fn read_method(
        &mut self,
        context: Context,
        modifiers: Modifiers,
        optional: bool,
        generator: bool,
        name: ReadName,
    ) -> Result<Form, Fatal>
        ensures { Reads S.TokenReader (method_form_d context.bits (entries modifiers) optional generator name) self.old self.new result }
    {
        run_check(ClassCheck::Method, modifiers, self.reports);
        let facts = self.take_method(context)?;
        let m = method_of(name, modifiers, optional, generator, facts);
        note_plain(judge(m, name, context), self.reports);
        Ok(Form::Method(m))
    }
}
