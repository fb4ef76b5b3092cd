//! Which form of a member stands there.

ghost use Rattle.std.specs.Prelude.{◌≡◌};
ghost use Rattle.class.specs.Members.{constructor_name, form_d, index_or_named_d, is_accessor, is_block, is_constructor, named_form_d, starts_name};
ghost use Rattle.class.specs.Reading.{ReadsIn};
ghost use Rattle.modifiers.specs.Lists.{entries};
ghost use Rattle.records.specs.Decorators.{spans_of};

use crate::decorating::Before;
use crate::judging::AccessorKind;
use crate::methods::check_element;
use crate::naming::{ReadName, SpecialName, name_at, special_name};
use crate::noting::stop;
use crate::reading::Reading;
use crate::taking::{is, take};
use dialogue::Fatal;
use guard::change::Change;
use guard::guarding::within;
use kinds::ModifierKind;
use kinds::context::Context;
use modifiers::Modifiers;
use parts::Span;
use reader::{Ahead, TokenReader};
use records::{Form, NameKind};
use script::ScriptReader;
use token::{Kind, Token};

fn starts_name(t: Token) -> bool
    ensures { result ≡ starts_name t }
{
    t.kind.is_identifier_or_keyword() || is(t, Kind::STAR) || is(t, Kind::LBRACK)
}

fn is_constructor(modifiers: Modifiers, t: Token, next: Token) -> bool
    ensures { result ≡ is_constructor (entries modifiers) t next }
{
    if modifiers.contains(ModifierKind::Static) {
        return false;
    }
    is(t, Kind::CONSTRUCTOR)
        || is(t, Kind::STR)
            && special_name(t) == Some(SpecialName::Constructor)
            && is(next, Kind::LPAREN)
}

fn constructor_name(t: Token) -> ReadName
    ensures { result ≡ constructor_name t }
{
    let kind = if is(t, Kind::STR) {
        NameKind::String
    } else {
        NameKind::Identifier
    };
    name_at(kind, Span::from(t), special_name(t))
}

fn is_accessor(kind: Kind, t: Token, next: Token) -> bool
    ensures { result ≡ is_accessor kind.code t next }
{
    is(t, kind) && next.kind.can_follow_get_or_set_keyword()
}

fn is_block(t: Token, next: Token) -> bool
    ensures { result ≡ is_block t next }
{
    is(t, Kind::STATIC) && is(next, Kind::LCURLY)
}

impl<S: ScriptReader> Reading<'_, '_, S> {
    fn read_named_form(
        &mut self,
        context: &mut Context,
        modifiers: Modifiers,
    ) -> Result<Form, Fatal>
        ensures { ReadsIn S.TokenReader (named_form_d self.old.is_ts context.old.bits (entries modifiers)) self.old self.new context.old context.new result }
    {
        let t = self.script.current();
        if !starts_name(t) {
            return stop(Fatal::Unexpected, Span::from(t), self.reports);
        }
        if modifiers.contains(ModifierKind::Declare) {
            let guard = within(context, Change::Ambient);
            return self.read_property_or_method(&mut *guard.context, modifiers);
        }
        self.read_property_or_method(context, modifiers)
    }

    fn read_index_or_named(&mut self, context: &mut Context, before: Before) -> Result<Form, Fatal>
        ensures { ReadsIn S.TokenReader (index_or_named_d self.old.is_ts context.old.bits (entries before.modifiers) (spans_of before.decorators)) self.old self.new context.old context.new result }
    {
        let here = *context;
        if self.script.starts_index(here) {
            return self.read_index(here, before);
        }
        check_element(self.is_ts, before.modifiers, self.reports);
        self.read_named_form(context, before.modifiers)
    }

    /// Reads a member after its decorators and keywords.
    pub(crate) fn read_form(&mut self, context: &mut Context, before: Before) -> Result<Form, Fatal>
        ensures { ReadsIn S.TokenReader (form_d self.old.is_ts context.old.bits (entries before.modifiers) (spans_of before.decorators)) self.old self.new context.old context.new result }
    {
        let t = self.script.current();
        let next = self.script.peek(Ahead::One);
        if is_block(t, next) {
            return self.read_block(context, before);
        }
        if is_accessor(Kind::GET, t, next) {
            take(self.script);
            return self.read_accessor(context, before.modifiers, AccessorKind::Getter);
        }
        if is_accessor(Kind::SET, t, next) {
            take(self.script);
            return self.read_accessor(context, before.modifiers, AccessorKind::Setter);
        }
        if is_constructor(before.modifiers, t, next) {
            take(self.script);
            return self.read_constructor(*context, before, constructor_name(t));
        }
        self.read_index_or_named(context, before)
    }
}
