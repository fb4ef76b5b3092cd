//! The rules of the gate by name, so that code says what it reports. This crate knows neither when a rule is broken nor
//! what a report is.

#![tactic(auto)]

ghost use Rattle.std.specs.Prelude.{◌≡◌};
ghost use Rattle.rules.specs.Rules.{rule_number};

/// A rule: 1 to 5 of the order of keywords, 6 to 17 of the checks of keywords, 18 to 48 of the rest of a member, and 49
/// to 52 the fatal ones.
#[derive(Clone, Copy, Debug, PartialEq, Eq)]
pub enum Rule {
    /// A second accessibility keyword.
    AccessibilityAlreadySeen = 1,
    /// A keyword a second time.
    AlreadySeen,
    /// A keyword beside one that excludes it.
    WithOtherModifier,
    /// `declare` after `override`.
    InAmbientContext,
    /// A keyword after one that it has to precede.
    MustPrecede,
    /// A keyword that no class member has.
    OnClassElement,
    /// A keyword of TypeScript, in JavaScript.
    InTypeScriptOnly,
    /// A keyword on a static block.
    OnStaticBlock,
    /// A keyword on an index signature.
    OnIndexSignature,
    /// `const` on a class member.
    ConstClassMember,
    /// `in` or `out` outside type parameters.
    OnTypeParameterOnly,
    /// An accessibility keyword or the like on a private name.
    OnPrivateName,
    /// A keyword on an accessor property.
    OnAccessorProperty,
    /// `accessor` elsewhere than on a property.
    AccessorOnPropertyOnly,
    /// A keyword that the form does not have.
    CannotBeUsedHere,
    /// `declare` on a constructor.
    DeclareConstructor,
    /// `readonly` elsewhere than on a property or an index signature.
    OnPropertyOrIndexOnly,
    /// A decorator on a method without body.
    DecoratorOnOverload,
    /// A decorator where none may stand.
    DecoratorsNotValidHere,
    /// The private name `#constructor`.
    PrivateNameConstructor,
    /// `!` on a property with an initializer.
    DefiniteWithInitializer,
    /// `!` on a property without type annotation.
    DefiniteWithoutType,
    /// `!` on a property that is ambient, static or abstract.
    DefiniteNotPermitted,
    /// `?` and `!` both.
    OptionalDefinite,
    /// `?` on an accessor property.
    OptionalAccessor,
    /// An accessor property of the string name `constructor`.
    AccessorConstructor,
    /// A field named `constructor`.
    FieldConstructor,
    /// A static member named `prototype`.
    StaticPrototype,
    /// An abstract member with a private name.
    AbstractPrivateName,
    /// An abstract property with an initializer.
    AbstractInitializer,
    /// An initializer in ambient code.
    AmbientInitializer,
    /// Type parameters on a getter or a setter.
    AccessorTypeParameters,
    /// Parameters on a getter.
    GetterParameters,
    /// A setter with another number of parameters than one.
    SetterParameterCount,
    /// A rest parameter on a setter.
    SetterRest,
    /// A return type on a setter.
    SetterReturnType,
    /// An optional parameter on a setter.
    SetterOptionalParameter,
    /// An initializer on a setter's parameter.
    SetterInitializer,
    /// A getter or a setter named `constructor`.
    ConstructorAccessor,
    /// A constructor that is async.
    ConstructorAsync,
    /// A constructor that is a generator.
    ConstructorGenerator,
    /// A constructor that is abstract.
    ConstructorAbstract,
    /// Type parameters on a constructor.
    ConstructorTypeParameters,
    /// A body in ambient code.
    AmbientImplementation,
    /// An abstract getter or setter with a body.
    AbstractAccessorImplementation,
    /// An abstract method with a body.
    AbstractMethodImplementation,
    /// A `this` parameter on a constructor.
    ConstructorThis,
    /// A return type on a constructor.
    ConstructorReturnType,
    /// A certain token should stand here.
    ExpectToken,
    /// A semicolon is missing and cannot be inserted.
    AutoSemicolonInsertion,
    /// No such token can stand here.
    Unexpected,
    /// A seventeenth decorator.
    TooManyDecorators,
}

impl Rule {
    /// The rule's number in a report.
    pub fn number(self) -> u8
        ensures { result ≡ rule_number self }
    {
        self as u8
    }
}
