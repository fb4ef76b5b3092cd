ghost use Rattle.kinds.specs.Modifiers.{modifier_number, word_of};
ghost use Rattle.std.specs.Prelude.{◌≡◌, length};
ghost use Rattle.std.proofs.Common.{rules};

use small_set::SmallKind;

/// A keyword that can stand before a class member or a parameter.
#[derive(Clone, Copy, Debug, PartialEq, Eq)]
pub enum ModifierKind {
    Declare = 0,
    Private,
    Protected,
    Public,
    Static,
    Readonly,
    Abstract,
    Override,
    Async,
    Const,
    In,
    Out,
    Default,
    Accessor,
    Export,
}

// In the order of their numbers.
const KINDS: [ModifierKind; 15] = [
    ModifierKind::Declare,
    ModifierKind::Private,
    ModifierKind::Protected,
    ModifierKind::Public,
    ModifierKind::Static,
    ModifierKind::Readonly,
    ModifierKind::Abstract,
    ModifierKind::Override,
    ModifierKind::Async,
    ModifierKind::Const,
    ModifierKind::In,
    ModifierKind::Out,
    ModifierKind::Default,
    ModifierKind::Accessor,
    ModifierKind::Export,
];

impl SmallKind for ModifierKind {
    ghost numbered = { modifier_number };

    ghost size = { 15 };

    const COUNT: u8 = 15;

    ghost few = { Prim.search rules };

    ghost below = { Prim.search rules };

    ghost apart = { Prim.search rules };

    fn how_many() -> u8 {
        Self::COUNT
    }

    fn number(self) -> u8 {
        self as u8
    }

    fn from_number(n: u8) -> Option<ModifierKind> {
        KINDS.get(n as usize).copied()
    }
}

impl ModifierKind {
    /// The word that the keyword is written as.
    pub fn as_str(self) -> &'static str
        ensures { result.now ≡ word_of self }
    {
        match self {
            ModifierKind::Declare => "declare",
            ModifierKind::Private => "private",
            ModifierKind::Protected => "protected",
            ModifierKind::Public => "public",
            ModifierKind::Static => "static",
            ModifierKind::Readonly => "readonly",
            ModifierKind::Abstract => "abstract",
            ModifierKind::Override => "override",
            ModifierKind::Async => "async",
            ModifierKind::Const => "const",
            ModifierKind::In => "in",
            ModifierKind::Out => "out",
            ModifierKind::Default => "default",
            ModifierKind::Accessor => "accessor",
            ModifierKind::Export => "export",
        }
    }

    /// How many bytes the word has.
    pub fn len(self) -> u32
        ensures { result ≡ length (word_of self) }
    {
        self.as_str().len() as u32
    }
}
