//! The parts of a class member that a script reader takes as a whole, and what it tells of one. Types alone: where a
//! part ends is the reader's to say, and what is made of it the member's.

#![tactic(auto)]

/// A stretch of the script in bytes, its end not included.
#[derive(Clone, Copy, Debug, PartialEq, Eq)]
pub struct Span {
    pub start: u32,
    pub end: u32,
}

/// A part of which nothing is told but its span. The rest of a method, of which more is told, is asked for by itself.
#[derive(Clone, Copy, Debug, PartialEq, Eq)]
pub enum Part {
    Decorator,
    Expression,
    TypeAnnotation,
    Block,
    IndexRest,
}

/// A return annotation, and the type in it.
#[derive(Clone, Copy, Debug, PartialEq, Eq)]
pub struct ReturnType {
    pub annotation: Span,
    pub type_span: Span,
}

/// What is told of the rest of a method: all that stands after its name.
#[derive(Clone, Copy, Debug, PartialEq, Eq)]
pub struct MethodFacts {
    pub span: Span,
    pub type_parameters: Option<Span>,
    pub parameters: Span,
    /// Items and rest together.
    pub count: u32,
    pub first_item: Option<Span>,
    pub first_optional: bool,
    pub first_initializer: bool,
    pub rest: Option<Span>,
    pub this_param: Option<Span>,
    pub return_type: Option<ReturnType>,
    pub body_start: Option<u32>,
}
