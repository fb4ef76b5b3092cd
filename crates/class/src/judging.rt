//! What is reported of methods, getters, setters and constructors.

ghost use Rattle.std.specs.Prelude.{◌≡◌, Some, None};
ghost use Rattle.class.specs.Methods.{abstract_reports, accessor_reports, annotation_reports, body_reports, constructor_name_reports, constructor_reports, getter_reports, item_reports, judge, method_of, method_reports, parameter_reports, plain_reports, prop_name_reports, rest_reports, setter_reports};
ghost use Rattle.list.specs.Lists.{Noted};
ghost use Rattle.modifiers.specs.Lists.{entries};
ghost use Rattle.rules.specs.Rules.{rule_number};

use crate::naming::{ReadName, SpecialName};
use crate::noting::{note, note_at, note_if};
use kinds::ModifierKind;
use kinds::context::{Context, ContextFlag};
use list::list::List;
use modifiers::Modifiers;
use parts::{MethodFacts, Span};
use records::{Method, NameKind};
use reports::Report;
use rules::Rule;

/// The two accessors.
#[derive(Clone, Copy, Debug, PartialEq, Eq)]
pub enum AccessorKind {
    Getter,
    Setter,
}

/// A method, and what is asked beside it: whether the context is ambient, and which special name it has.
#[derive(Clone, Copy, Debug, PartialEq, Eq)]
pub struct Judged {
    pub method: Method,
    pub ambient: bool,
    pub special: Option<SpecialName>,
}

// What the definition of a record names goes in one by one.
/// A method of a name, with the keywords that were kept before it.
pub(crate) fn method_of(
    name: ReadName,
    modifiers: Modifiers,
    optional: bool,
    generator: bool,
    facts: MethodFacts,
) -> Method
    ensures { result ≡ method_of name (entries modifiers) optional generator facts }
{
    Method {
        name: name.name,
        accessibility: modifiers.accessibility(),
        is_static: modifiers.contains(ModifierKind::Static),
        is_abstract: modifiers.contains(ModifierKind::Abstract),
        is_override: modifiers.contains(ModifierKind::Override),
        optional,
        is_async: modifiers.contains(ModifierKind::Async),
        generator,
        facts,
    }
}

/// A method of a name in a context.
pub(crate) fn judge(method: Method, name: ReadName, context: Context) -> Judged
    ensures { result ≡ judge method name context.bits }
{
    Judged {
        method,
        ambient: context.contains(ContextFlag::Ambient),
        special: name.special,
    }
}

fn note_constructor_name(accessor: Option<AccessorKind>, m: Method, reports: &mut List<'_, Report>)
    ensures { Noted reports.old reports.new (constructor_name_reports accessor m) }
{
    let place = m.name.span;
    note_if(
        accessor.is_some(),
        Rule::ConstructorAccessor,
        place,
        reports,
    );
    note_if(m.is_async, Rule::ConstructorAsync, place, reports);
    note_if(m.generator, Rule::ConstructorGenerator, place, reports);
    note_if(m.is_abstract, Rule::ConstructorAbstract, place, reports);
    if accessor.is_none() {
        note_at(
            Rule::ConstructorTypeParameters,
            m.facts.type_parameters,
            reports,
        );
    }
}

fn note_prop_name(accessor: Option<AccessorKind>, judged: Judged, reports: &mut List<'_, Report>)
    ensures { Noted reports.old reports.new (prop_name_reports accessor judged.ambient judged.special judged.method) }
{
    let m = judged.method;
    match judged.special {
        Some(SpecialName::Constructor) if !m.is_static => {
            note_constructor_name(accessor, m, reports);
        }
        Some(SpecialName::Prototype) if m.is_static => {
            note_if(!judged.ambient, Rule::StaticPrototype, m.name.span, reports);
        }
        _ => {}
    }
}

fn note_body(ambient: bool, body_start: Option<u32>, reports: &mut List<'_, Report>)
    ensures { Noted reports.old reports.new (body_reports ambient body_start) }
{
    if let Some(start) = body_start {
        let place = Span { start, end: start };
        note_if(ambient, Rule::AmbientImplementation, place, reports);
    }
}

/// Notes what every method earns.
fn note_method(accessor: Option<AccessorKind>, judged: Judged, reports: &mut List<'_, Report>)
    ensures { Noted reports.old reports.new (method_reports accessor judged.ambient judged.special judged.method) }
{
    let m = judged.method;
    let private = m.name.kind == NameKind::Private;
    note_if(
        m.is_abstract && private,
        Rule::AbstractPrivateName,
        m.name.span,
        reports,
    );
    note_prop_name(accessor, judged, reports);
    note_body(judged.ambient, m.facts.body_start, reports);
}

fn note_getter(facts: MethodFacts, reports: &mut List<'_, Report>)
    ensures { Noted reports.old reports.new (getter_reports facts.type_parameters facts) }
{
    match facts.type_parameters {
        Some(place) => note(Rule::AccessorTypeParameters, place, reports),
        None => note_if(
            facts.count != 0,
            Rule::GetterParameters,
            facts.parameters,
            reports,
        ),
    }
}

fn note_item(facts: MethodFacts, reports: &mut List<'_, Report>)
    ensures { Noted reports.old reports.new (item_reports facts.first_item facts) }
{
    let Some(place) = facts.first_item else {
        return;
    };
    if facts.first_optional {
        note(Rule::SetterOptionalParameter, place, reports);
    } else {
        note_if(
            facts.first_initializer,
            Rule::SetterInitializer,
            facts.parameters,
            reports,
        );
    }
}

fn note_annotation(facts: MethodFacts, reports: &mut List<'_, Report>)
    ensures { Noted reports.old reports.new (annotation_reports facts.return_type facts) }
{
    match facts.return_type {
        Some(told) => note(Rule::SetterReturnType, told.annotation, reports),
        None => note_item(facts, reports),
    }
}

fn note_rest(is_ts: bool, facts: MethodFacts, reports: &mut List<'_, Report>)
    ensures { Noted reports.old reports.new (rest_reports is_ts facts.rest facts) }
{
    match facts.rest {
        Some(place) => note(Rule::SetterRest, place, reports),
        None if is_ts => note_annotation(facts, reports),
        None => {}
    }
}

fn note_setter(is_ts: bool, facts: MethodFacts, reports: &mut List<'_, Report>)
    ensures { Noted reports.old reports.new (setter_reports is_ts facts.type_parameters facts) }
{
    match facts.type_parameters {
        Some(place) => note(Rule::AccessorTypeParameters, place, reports),
        None if facts.count == 1 => note_rest(is_ts, facts, reports),
        None => note(Rule::SetterParameterCount, facts.parameters, reports),
    }
}

fn note_abstract(rule: Rule, m: Method, reports: &mut List<'_, Report>)
    ensures { Noted reports.old reports.new (abstract_reports (rule_number rule) m) }
{
    note_if(
        m.is_abstract && m.facts.body_start.is_some(),
        rule,
        m.name.span,
        reports,
    );
}

fn note_parameters(
    is_ts: bool,
    kind: AccessorKind,
    facts: MethodFacts,
    reports: &mut List<'_, Report>,
)
    ensures { Noted reports.old reports.new (parameter_reports is_ts kind facts) }
{
    match kind {
        AccessorKind::Getter => note_getter(facts, reports),
        AccessorKind::Setter => note_setter(is_ts, facts, reports),
    }
}

/// Notes what a getter or a setter earns.
pub(crate) fn note_accessor(
    is_ts: bool,
    kind: AccessorKind,
    judged: Judged,
    reports: &mut List<'_, Report>,
)
    ensures { Noted reports.old reports.new (accessor_reports is_ts kind judged.ambient judged.special judged.method) }
{
    note_method(Some(kind), judged, reports);
    note_parameters(is_ts, kind, judged.method.facts, reports);
    note_abstract(Rule::AbstractAccessorImplementation, judged.method, reports);
}

/// Notes what a constructor earns.
pub(crate) fn note_constructor(judged: Judged, reports: &mut List<'_, Report>)
    ensures { Noted reports.old reports.new (constructor_reports judged.ambient judged.special judged.method) }
{
    note_method(None, judged, reports);
    let facts = judged.method.facts;
    note_at(Rule::ConstructorThis, facts.this_param, reports);
    let type_span = facts.return_type.map(|told| told.type_span);
    note_at(Rule::ConstructorReturnType, type_span, reports);
}

/// Notes what any other method earns.
pub(crate) fn note_plain(judged: Judged, reports: &mut List<'_, Report>)
    ensures { Noted reports.old reports.new (plain_reports judged.ambient judged.special judged.method) }
{
    note_method(None, judged, reports);
    note_abstract(Rule::AbstractMethodImplementation, judged.method, reports);
}
