//! The wording of a check: an interface by its meaning.

ghost use Rattle.std.specs.Prelude.{◌≡◌, ℕ, Option};
ghost use Rattle.checks.specs.Sayings.{Saying, said_of};
ghost use Rattle.kinds.specs.declared.modifier_kind.ModifierKind.{ModifierKind};
ghost use Rattle.reports.specs.Reports.{bits_of};

use kinds::{ModifierKind, ModifierKinds};
use parts::Span;
use reports::Report;

/// What a check says of a modifier, given the allowed set where the check is strict: one report, with the modifier's own
/// place and kind. It is total, also for kinds that its check never disallows.
pub trait Wording {
    ghost says: { Self → ModifierKind → Option ℕ → Saying };

    fn word(&self, kind: ModifierKind, place: Span, allowed: Option<ModifierKinds>) -> Report
        ensures { result ≡ said_of (says self.now kind (bits_of allowed)) kind place };
}
