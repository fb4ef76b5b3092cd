//! Token kinds by their codes, 0 (end of input) to 168, and what is asked of a kind.

ghost use Rattle.std.specs.Prelude.{◌≡◌};
ghost use Rattle.token.specs.Kinds.{is_identifier_name, is_number, is_literal_property_name, is_identifier_or_keyword, modifier_of, is_modifier_kind, can_follow_modifier, can_follow_get_or_set};

use kinds::modifier_kind::ModifierKind;

/// The kind of a token by its code. It is no enum, since a table that is handed in may hold codes of no kind: what is
/// asked of a kind is answered for each of the 256.
#[derive(Clone, Copy, Debug, PartialEq, Eq)]
pub struct Kind {
    pub code: u8,
}

impl Kind {
    pub const EOF: Kind = Kind { code: 0 };

    pub const UNDETERMINED: Kind = Kind { code: 1 };

    pub const SKIP: Kind = Kind { code: 2 };

    pub const IDENT: Kind = Kind { code: 4 };

    pub const AWAIT: Kind = Kind { code: 5 };

    pub const BREAK: Kind = Kind { code: 6 };

    pub const CASE: Kind = Kind { code: 7 };

    pub const CATCH: Kind = Kind { code: 8 };

    pub const CLASS: Kind = Kind { code: 9 };

    pub const CONST: Kind = Kind { code: 10 };

    pub const CONTINUE: Kind = Kind { code: 11 };

    pub const DEBUGGER: Kind = Kind { code: 12 };

    pub const DEFAULT: Kind = Kind { code: 13 };

    pub const DELETE: Kind = Kind { code: 14 };

    pub const DO: Kind = Kind { code: 15 };

    pub const ELSE: Kind = Kind { code: 16 };

    pub const ENUM: Kind = Kind { code: 17 };

    pub const EXPORT: Kind = Kind { code: 18 };

    pub const EXTENDS: Kind = Kind { code: 19 };

    pub const FINALLY: Kind = Kind { code: 20 };

    pub const FOR: Kind = Kind { code: 21 };

    pub const FUNCTION: Kind = Kind { code: 22 };

    pub const IF: Kind = Kind { code: 23 };

    pub const IMPORT: Kind = Kind { code: 24 };

    pub const IN: Kind = Kind { code: 25 };

    pub const INSTANCEOF: Kind = Kind { code: 26 };

    pub const NEW: Kind = Kind { code: 27 };

    pub const RETURN: Kind = Kind { code: 28 };

    pub const SUPER: Kind = Kind { code: 29 };

    pub const SWITCH: Kind = Kind { code: 30 };

    pub const THIS: Kind = Kind { code: 31 };

    pub const THROW: Kind = Kind { code: 32 };

    pub const TRY: Kind = Kind { code: 33 };

    pub const TYPEOF: Kind = Kind { code: 34 };

    pub const VAR: Kind = Kind { code: 35 };

    pub const VOID: Kind = Kind { code: 36 };

    pub const WHILE: Kind = Kind { code: 37 };

    pub const WITH: Kind = Kind { code: 38 };

    pub const ASYNC: Kind = Kind { code: 39 };

    pub const FROM: Kind = Kind { code: 40 };

    pub const GET: Kind = Kind { code: 41 };

    pub const META: Kind = Kind { code: 42 };

    pub const OF: Kind = Kind { code: 43 };

    pub const SET: Kind = Kind { code: 44 };

    pub const TARGET: Kind = Kind { code: 45 };

    pub const ACCESSOR: Kind = Kind { code: 46 };

    pub const SOURCE: Kind = Kind { code: 47 };

    pub const DEFER: Kind = Kind { code: 48 };

    pub const ABSTRACT: Kind = Kind { code: 49 };

    pub const AS: Kind = Kind { code: 50 };

    pub const ASSERTS: Kind = Kind { code: 51 };

    pub const ASSERT: Kind = Kind { code: 52 };

    pub const ANY: Kind = Kind { code: 53 };

    pub const BOOLEAN: Kind = Kind { code: 54 };

    pub const CONSTRUCTOR: Kind = Kind { code: 55 };

    pub const DECLARE: Kind = Kind { code: 56 };

    pub const INFER: Kind = Kind { code: 57 };

    pub const INTRINSIC: Kind = Kind { code: 58 };

    pub const IS: Kind = Kind { code: 59 };

    pub const KEYOF: Kind = Kind { code: 60 };

    pub const MODULE: Kind = Kind { code: 61 };

    pub const NAMESPACE: Kind = Kind { code: 62 };

    pub const NEVER: Kind = Kind { code: 63 };

    pub const OUT: Kind = Kind { code: 64 };

    pub const READONLY: Kind = Kind { code: 65 };

    pub const REQUIRE: Kind = Kind { code: 66 };

    pub const NUMBER: Kind = Kind { code: 67 };

    pub const OBJECT: Kind = Kind { code: 68 };

    pub const SATISFIES: Kind = Kind { code: 69 };

    pub const STRING: Kind = Kind { code: 70 };

    pub const SYMBOL: Kind = Kind { code: 71 };

    pub const TYPE: Kind = Kind { code: 72 };

    pub const UNDEFINED: Kind = Kind { code: 73 };

    pub const UNIQUE: Kind = Kind { code: 74 };

    pub const USING: Kind = Kind { code: 75 };

    pub const UNKNOWN: Kind = Kind { code: 76 };

    pub const GLOBAL: Kind = Kind { code: 77 };

    pub const BIGINT: Kind = Kind { code: 78 };

    pub const OVERRIDE: Kind = Kind { code: 79 };

    pub const IMPLEMENTS: Kind = Kind { code: 80 };

    pub const INTERFACE: Kind = Kind { code: 81 };

    pub const LET: Kind = Kind { code: 82 };

    pub const PACKAGE: Kind = Kind { code: 83 };

    pub const PRIVATE: Kind = Kind { code: 84 };

    pub const PROTECTED: Kind = Kind { code: 85 };

    pub const PUBLIC: Kind = Kind { code: 86 };

    pub const STATIC: Kind = Kind { code: 87 };

    pub const YIELD: Kind = Kind { code: 88 };

    pub const TRUE: Kind = Kind { code: 89 };

    pub const FALSE: Kind = Kind { code: 90 };

    pub const NULL: Kind = Kind { code: 91 };

    pub const BANG: Kind = Kind { code: 96 };

    pub const COLON: Kind = Kind { code: 99 };

    pub const COMMA: Kind = Kind { code: 100 };

    pub const DOT3: Kind = Kind { code: 102 };

    pub const EQ: Kind = Kind { code: 103 };

    pub const LANGLE: Kind = Kind { code: 107 };

    pub const LBRACK: Kind = Kind { code: 108 };

    pub const LCURLY: Kind = Kind { code: 109 };

    pub const LPAREN: Kind = Kind { code: 110 };

    pub const QUESTION: Kind = Kind { code: 126 };

    pub const RANGLE: Kind = Kind { code: 130 };

    pub const RBRACK: Kind = Kind { code: 131 };

    pub const RCURLY: Kind = Kind { code: 132 };

    pub const RPAREN: Kind = Kind { code: 133 };

    pub const SEMICOLON: Kind = Kind { code: 134 };

    pub const STAR: Kind = Kind { code: 143 };

    pub const DECIMAL: Kind = Kind { code: 149 };

    pub const HEX_BIG_INT: Kind = Kind { code: 159 };

    pub const STR: Kind = Kind { code: 160 };

    pub const PRIVATE_IDENTIFIER: Kind = Kind { code: 166 };

    pub const AT: Kind = Kind { code: 168 };

    /// A plain name or a keyword.
    pub fn is_identifier_name(self) -> bool
        ensures { result ≡ is_identifier_name self.code }
    {
        self.code >= Kind::IDENT.code && self.code <= Kind::NULL.code
    }

    /// A numeric literal: its eleven notations have consecutive codes.
    pub fn is_number(self) -> bool
        ensures { result ≡ is_number self.code }
    {
        self.code >= Kind::DECIMAL.code && self.code <= Kind::HEX_BIG_INT.code
    }

    pub fn is_literal_property_name(self) -> bool
        ensures { result ≡ is_literal_property_name self.code }
    {
        self.is_identifier_name() || self == Kind::STR || self.is_number()
    }

    pub fn is_identifier_or_keyword(self) -> bool
        ensures { result ≡ is_identifier_or_keyword self.code }
    {
        self.is_literal_property_name() || self == Kind::PRIVATE_IDENTIFIER
    }

    /// The modifier that a keyword is, or none for any other kind.
    pub fn modifier_kind(self) -> Option<ModifierKind>
        ensures { result ≡ modifier_of self.code }
    {
        match self {
            Kind::ABSTRACT => Some(ModifierKind::Abstract),
            Kind::ACCESSOR => Some(ModifierKind::Accessor),
            Kind::ASYNC => Some(ModifierKind::Async),
            Kind::CONST => Some(ModifierKind::Const),
            Kind::DECLARE => Some(ModifierKind::Declare),
            Kind::DEFAULT => Some(ModifierKind::Default),
            Kind::EXPORT => Some(ModifierKind::Export),
            Kind::IN => Some(ModifierKind::In),
            Kind::OUT => Some(ModifierKind::Out),
            Kind::OVERRIDE => Some(ModifierKind::Override),
            Kind::PRIVATE => Some(ModifierKind::Private),
            Kind::PROTECTED => Some(ModifierKind::Protected),
            Kind::PUBLIC => Some(ModifierKind::Public),
            Kind::READONLY => Some(ModifierKind::Readonly),
            Kind::STATIC => Some(ModifierKind::Static),
            _ => None,
        }
    }

    pub fn is_modifier_kind(self) -> bool
        ensures { result ≡ is_modifier_kind self.code }
    {
        self.modifier_kind().is_some()
    }

    /// Whether a token of this kind can stand after a modifier keyword.
    pub fn can_follow_modifier(self) -> bool
        ensures { result ≡ can_follow_modifier self.code }
    {
        matches!(self, Kind::LBRACK | Kind::LCURLY | Kind::STAR | Kind::DOT3)
            || self.is_identifier_or_keyword()
    }

    /// Whether a token of this kind can stand after `get` or `set`.
    pub fn can_follow_get_or_set_keyword(self) -> bool
        ensures { result ≡ can_follow_get_or_set self.code }
    {
        self == Kind::LBRACK || self == Kind::PRIVATE_IDENTIFIER || self.is_literal_property_name()
    }
}
