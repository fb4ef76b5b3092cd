//! The checks of class members by name.

#[derive(Clone, Copy, Debug, PartialEq, Eq)]
pub enum ClassCheck {
    /// Every member but static blocks and index signatures.
    Element,
    /// The same, in JavaScript.
    JavaScript,
    StaticBlock,
    IndexSignature,
    /// Names, and constructors.
    ConstInOut,
    /// Private names, in TypeScript.
    PrivateName,
    AccessorProperty,
    /// Getters and setters.
    Accessor,
    Constructor,
    Method,
    Property,
}
