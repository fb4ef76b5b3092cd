ghost use Rattle.modifiers.specs.Entries.{end_of, fits, place_of};
ghost use Rattle.std.specs.Prelude.{◌≡◌, if◌then◌else◌, Some, None};

use kinds::ModifierKind;
use parts::Span;

/// A keyword and where it begins.
#[derive(Clone, Copy, Debug, PartialEq, Eq)]
pub struct Modifier {
    pub start: u32,
    pub kind: ModifierKind,
}

/// A keyword with both its ends.
#[derive(Clone, Copy, Debug, PartialEq, Eq)]
pub struct Placed {
    pub kind: ModifierKind,
    pub place: Span,
}

impl Modifier {
    /// Where the keyword ends, unless that is past 32 bits.
    pub fn end(self) -> Option<u32>
        ensures { result ≡ (if fits self then Some (end_of self) else None) }
    {
        self.start.checked_add(self.kind.len())
    }

    /// Where the keyword stands, unless it ends past 32 bits.
    pub fn place(self) -> Option<Span>
        ensures { result ≡ (if fits self then Some (place_of self) else None) }
    {
        Some(Span {
            start: self.start,
            end: self.end()?,
        })
    }
}
