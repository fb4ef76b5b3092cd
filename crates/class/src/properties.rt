//! Properties, accessor properties, and what is either one or a method.

ghost use Rattle.std.specs.Prelude.{◌≡◌, Ok};
ghost use Rattle.class.specs.Properties.{accessor_name_reports, accessor_named_d, accessor_of, accessor_property_end_d, accessor_property_reports, definite_d, definite_reports, entry_place, field_name_reports, initializer_reports, is_banned, is_method, is_narrow, joined, property_d, property_end_d, property_of, property_or_method_d, property_reports, typed_d};
ghost use Rattle.class.specs.Reading.{Reads, ReadsIn};
ghost use Rattle.dialogue.specs.Spoken.{Spoke};
ghost use Rattle.kinds.specs.declared.modifier_kind.ModifierKind.TheVariants.{Abstract};
ghost use Rattle.list.specs.Lists.{Noted};
ghost use Rattle.modifiers.specs.Entries.{entry_of};
ghost use Rattle.modifiers.specs.Lists.{entries};
ghost use Rattle.reader.specs.Scenes.{Scene};

use crate::naming::{ReadName, SpecialName};
use crate::noting::{note, note_at, note_if};
use crate::reading::Reading;
use crate::taking::is;
use checks::class_check::ClassCheck;
use checks::class_checks::run_check;
use dialogue::Fatal;
use kinds::ModifierKind;
use kinds::context::{Context, ContextFlag};
use list::list::List;
use modifiers::Modifiers;
use parts::Span;
use reader::TokenReader;
use records::{Accessor, Form, NameKind, Property};
use reports::Report;
use rules::Rule;
use script::ScriptReader;
use token::{Kind, Token};

/// A name, and the places of `?` and `!` after it.
#[derive(Clone, Copy, Debug, PartialEq, Eq)]
pub struct MarkedName {
    pub name: ReadName,
    pub question: Option<Span>,
    pub bang: Option<Span>,
}

/// A type annotation and an initializer.
#[derive(Clone, Copy, Debug, PartialEq, Eq)]
pub struct Typed {
    pub type_annotation: Option<Span>,
    pub value: Option<Span>,
}

// One by one, since it serves properties and accessor properties, which are two records.
fn note_definite(
    bang: Option<Span>,
    value: Option<Span>,
    annotation: Option<Span>,
    narrow: bool,
    reports: &mut List<'_, Report>,
)
    ensures { Noted reports.old reports.new (definite_reports bang value annotation narrow) }
{
    let Some(place) = bang else {
        return;
    };
    if value.is_some() {
        note(Rule::DefiniteWithInitializer, place, reports);
    } else if annotation.is_some() {
        note_if(narrow, Rule::DefiniteNotPermitted, place, reports);
    } else {
        note(Rule::DefiniteWithoutType, place, reports);
    }
}

fn is_narrow(ambient: bool, is_static: bool, is_abstract: bool) -> bool
    ensures { result ≡ is_narrow ambient is_static is_abstract }
{
    ambient || is_static || is_abstract
}

fn accessor_of(marked: MarkedName, modifiers: Modifiers, typed: Typed) -> Accessor
    ensures { result ≡ accessor_of marked.name (entries modifiers) marked.bang typed }
{
    Accessor {
        name: marked.name.name,
        accessibility: modifiers.accessibility(),
        is_static: modifiers.contains(ModifierKind::Static),
        is_abstract: modifiers.contains(ModifierKind::Abstract),
        is_override: modifiers.contains(ModifierKind::Override),
        definite: marked.bang.is_some(),
        type_annotation: typed.type_annotation,
        value: typed.value,
    }
}

fn note_accessor_property(
    ambient: bool,
    bang: Option<Span>,
    a: Accessor,
    reports: &mut List<'_, Report>,
)
    ensures { Noted reports.old reports.new (accessor_property_reports ambient bang a) }
{
    let narrow = is_narrow(ambient, a.is_static, a.is_abstract);
    note_definite(bang, a.value, a.type_annotation, narrow, reports);
}

fn end_accessor_property(
    context: Context,
    modifiers: Modifiers,
    marked: MarkedName,
    typed: Typed,
    reports: &mut List<'_, Report>,
) -> Form
    ensures { (s : Scene) → Spoke (accessor_property_end_d context.bits (entries modifiers) marked.name marked.bang typed) s s reports.old reports.new (Ok result) }
{
    run_check(ClassCheck::AccessorProperty, modifiers, reports);
    let a = accessor_of(marked, modifiers, typed);
    let ambient = context.contains(ContextFlag::Ambient);
    let declared = modifiers.contains(ModifierKind::Declare);
    let bang = if declared { None } else { marked.bang };
    note_accessor_property(ambient, bang, a, reports);
    Form::Accessor(a)
}

fn property_of(marked: MarkedName, modifiers: Modifiers, typed: Typed) -> Property
    ensures { result ≡ property_of marked.name (entries modifiers) marked.question marked.bang typed }
{
    Property {
        name: marked.name.name,
        accessibility: modifiers.accessibility(),
        is_static: modifiers.contains(ModifierKind::Static),
        is_abstract: modifiers.contains(ModifierKind::Abstract),
        is_override: modifiers.contains(ModifierKind::Override),
        declare: modifiers.contains(ModifierKind::Declare),
        readonly: modifiers.contains(ModifierKind::Readonly),
        optional: marked.question.is_some(),
        definite: marked.bang.is_some(),
        type_annotation: typed.type_annotation,
        value: typed.value,
    }
}

// Where the last `abstract` stands.
fn abstract_place(modifiers: Modifiers) -> Option<Span>
    ensures { result ≡ entry_place (entry_of Abstract (entries modifiers)) }
{
    let word = modifiers.get(ModifierKind::Abstract)?;
    word.place()
}

// What the definition of these reports names goes in one by one.
fn note_field_name(
    ambient: bool,
    special: Option<SpecialName>,
    keyword: Option<Span>,
    p: Property,
    reports: &mut List<'_, Report>,
)
    ensures { Noted reports.old reports.new (field_name_reports ambient special keyword p) }
{
    let constructor = special == Some(SpecialName::Constructor);
    note_if(constructor, Rule::FieldConstructor, p.name.span, reports);
    let prototype = special == Some(SpecialName::Prototype);
    let shadows = p.is_static && prototype && !ambient;
    note_if(shadows, Rule::StaticPrototype, p.name.span, reports);
    if p.name.kind == NameKind::Private {
        note_at(Rule::AbstractPrivateName, keyword, reports);
    }
}

fn is_banned(ambient: bool, p: Property) -> bool
    ensures { result ≡ is_banned ambient p }
{
    let constant = p.readonly && p.type_annotation.is_none();
    ambient && !constant
}

fn note_initializer(ambient: bool, p: Property, reports: &mut List<'_, Report>)
    ensures { Noted reports.old reports.new (initializer_reports ambient p) }
{
    let given = p.value.is_some();
    note_if(
        p.is_abstract && given,
        Rule::AbstractInitializer,
        p.name.span,
        reports,
    );
    if is_banned(ambient, p) {
        note_at(Rule::AmbientInitializer, p.value, reports);
    }
}

fn note_property(
    ambient: bool,
    special: Option<SpecialName>,
    keyword: Option<Span>,
    bang: Option<Span>,
    p: Property,
    reports: &mut List<'_, Report>,
)
    ensures { Noted reports.old reports.new (property_reports ambient special keyword bang p) }
{
    note_field_name(ambient, special, keyword, p, reports);
    note_initializer(ambient, p, reports);
    let narrow = is_narrow(ambient, p.is_static, p.is_abstract);
    note_definite(bang, p.value, p.type_annotation, narrow, reports);
}

fn end_property(
    context: Context,
    modifiers: Modifiers,
    marked: MarkedName,
    typed: Typed,
    reports: &mut List<'_, Report>,
) -> Form
    ensures { (s : Scene) → Spoke (property_end_d context.bits (entries modifiers) marked.name marked.question marked.bang typed) s s reports.old reports.new (Ok result) }
{
    run_check(ClassCheck::Property, modifiers, reports);
    let p = property_of(marked, modifiers, typed);
    let ambient = context.contains(ContextFlag::Ambient);
    let keyword = abstract_place(modifiers);
    note_property(
        ambient,
        marked.name.special,
        keyword,
        marked.bang,
        p,
        reports,
    );
    Form::Property(p)
}

fn join(from: Option<Span>, to: Option<Span>) -> Option<Span>
    ensures { result ≡ joined from to }
{
    Some(Span {
        start: from?.start,
        end: to?.end,
    })
}

fn note_accessor_name(question: Option<Span>, name: ReadName, reports: &mut List<'_, Report>)
    ensures { Noted reports.old reports.new (accessor_name_reports question name) }
{
    note_at(Rule::OptionalAccessor, question, reports);
    let string = name.name.kind == NameKind::String;
    let constructor = name.special == Some(SpecialName::Constructor);
    note_if(
        string && constructor,
        Rule::AccessorConstructor,
        name.name.span,
        reports,
    );
}

fn is_method(generator: bool, t: Token) -> bool
    ensures { result ≡ is_method generator t }
{
    generator || is(t, Kind::LPAREN) || is(t, Kind::LANGLE)
}

impl<S: ScriptReader> Reading<'_, '_, S> {
    fn read_typed(&mut self, context: &mut Context) -> Result<Typed, Fatal>
        ensures { ReadsIn S.TokenReader (typed_d self.old.is_ts context.old.bits) self.old self.new context.old context.new result }
    {
        let type_annotation = self.take_type(*context)?;
        let value = self.take_value(context)?;
        Ok(Typed {
            type_annotation,
            value,
        })
    }

    fn read_accessor_property(
        &mut self,
        context: &mut Context,
        modifiers: Modifiers,
        marked: MarkedName,
    ) -> Result<Form, Fatal>
        ensures { ReadsIn S.TokenReader (accessor_named_d self.old.is_ts context.old.bits (entries modifiers) marked.name marked.question marked.bang) self.old self.new context.old context.new result }
    {
        note_accessor_name(marked.question, marked.name, self.reports);
        let here = *context;
        let typed = self.read_typed(context)?;
        self.take_inserted()?;
        Ok(end_accessor_property(here, modifiers, marked, typed, self.reports))
    }

    // The same steps with other pieces, and no plainer as one: a function for both would take two dialogues' worth of
    // parameters.
    fn read_property(
        &mut self,
        context: &mut Context,
        modifiers: Modifiers,
        marked: MarkedName,
    ) -> Result<Form, Fatal>
        ensures { ReadsIn S.TokenReader (property_d self.old.is_ts context.old.bits (entries modifiers) marked.name marked.question marked.bang) self.old self.new context.old context.new result }
    {
        let here = *context;
        let typed = self.read_typed(context)?;
        self.take_semicolon()?;
        Ok(end_property(here, modifiers, marked, typed, self.reports))
    }

    fn read_definite(
        &mut self,
        context: &mut Context,
        modifiers: Modifiers,
        name: ReadName,
        question: Option<Span>,
    ) -> Result<Form, Fatal>
        ensures { ReadsIn S.TokenReader (definite_d self.old.is_ts context.old.bits (entries modifiers) name question) self.old self.new context.old context.new result }
    {
        let bang = self.optional(Kind::BANG);
        let both = join(question, bang);
        note_at(Rule::OptionalDefinite, both, self.reports);
        let marked = MarkedName {
            name,
            question,
            bang,
        };
        if modifiers.contains(ModifierKind::Accessor) {
            return self.read_accessor_property(context, modifiers, marked);
        }
        self.read_property(context, modifiers, marked)
    }

    /// Reads a property or a method.
    pub(crate) fn read_property_or_method(
        &mut self,
        context: &mut Context,
        modifiers: Modifiers,
    ) -> Result<Form, Fatal>
        ensures { ReadsIn S.TokenReader (property_or_method_d self.old.is_ts context.old.bits (entries modifiers)) self.old self.new context.old context.new result }
    {
        let star = self.optional(Kind::STAR);
        let generator = star.is_some();
        let name = self.read_name(context, modifiers)?;
        let question = self.take_question();
        if is_method(generator, self.script.current()) {
            return self.read_method(*context, modifiers, question.is_some(), generator, name);
        }
        self.read_definite(context, modifiers, name, question)
    }
}
