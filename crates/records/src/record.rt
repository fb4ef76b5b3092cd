use crate::decorators::Decorators;
use kinds::ModifierKind;
use modifiers::Modifiers;
use parts::{MethodFacts, Span};

#[derive(Clone, Copy, Debug, PartialEq, Eq)]
pub enum NameKind {
    Identifier,
    String,
    Number,
    Private,
    Computed,
}

/// A member's name. The span of a computed one is its expression's, without the brackets.
#[derive(Clone, Copy, Debug, PartialEq, Eq)]
pub struct Name {
    pub kind: NameKind,
    pub span: Span,
}

/// What methods, getters, setters and constructors have.
// The first five fields are also those of properties and accessors; they stay flat, since programs read them one by one.
#[derive(Clone, Copy, Debug, PartialEq, Eq)]
pub struct Method {
    pub name: Name,
    pub accessibility: Option<ModifierKind>,
    pub is_static: bool,
    pub is_abstract: bool,
    pub is_override: bool,
    pub optional: bool,
    pub is_async: bool,
    pub generator: bool,
    pub facts: MethodFacts,
}

#[derive(Clone, Copy, Debug, PartialEq, Eq)]
pub struct Property {
    pub name: Name,
    pub accessibility: Option<ModifierKind>,
    pub is_static: bool,
    pub is_abstract: bool,
    pub is_override: bool,
    pub declare: bool,
    pub readonly: bool,
    pub optional: bool,
    pub definite: bool,
    pub type_annotation: Option<Span>,
    pub value: Option<Span>,
}

#[derive(Clone, Copy, Debug, PartialEq, Eq)]
pub struct Accessor {
    pub name: Name,
    pub accessibility: Option<ModifierKind>,
    pub is_static: bool,
    pub is_abstract: bool,
    pub is_override: bool,
    pub definite: bool,
    pub type_annotation: Option<Span>,
    pub value: Option<Span>,
}

/// What belongs to the form of a member.
#[derive(Clone, Copy, Debug, PartialEq, Eq)]
pub enum Form {
    Method(Method),
    Getter(Method),
    Setter(Method),
    Constructor(Method),
    Property(Property),
    Accessor(Accessor),
    IndexSignature {
        is_static: bool,
        readonly: bool,
        rest: Span,
    },
    StaticBlock(Span),
}

/// A member that was read. Static blocks and index signatures hold no decorators.
#[derive(Clone, Copy)]
pub struct MemberRecord {
    pub span: Span,
    pub modifiers: Modifiers,
    pub decorators: Decorators,
    pub form: Form,
}
