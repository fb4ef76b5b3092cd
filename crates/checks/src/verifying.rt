//! Running a check, whatever its wording is.

ghost use Rattle.std.specs.Prelude.{◌≡◌, List as Listed};
ghost use Rattle.checks.specs.Laws.{CheckedOnce};
ghost use Rattle.checks.specs.Sayings.{disallowed_reports, given, report_unless, said_of};
ghost use Rattle.keywords.specs.Run.{lasts};
ghost use Rattle.kinds.specs.Modifiers.{modifier_number};
ghost use Rattle.list.specs.Lists.{Noted};
ghost use Rattle.modifiers.specs.Lists.{entries};
ghost use Rattle.modifiers.specs.declared.modifier.Modifier.{Modifier};
ghost use Rattle.small_set.specs.Members.{member};

use crate::wording::Wording;
use kinds::ModifierKinds;
use list::list::List;
use modifiers::{Modifiers, Placed};
use reports::Report;

// A flag beside the set and no `Option` of it: every check asks the set, and only a strict one tells it.
/// The kinds that are allowed, whether just these are (so that the wording is told them), and what is said of others.
#[derive(Drop)]
pub struct Check<W> {
    pub allowed: ModifierKinds,
    pub strict: bool,
    pub wording: W,
}

// Reports one keyword, if it is outside the allowed set.
fn verify_one<W: Wording>(m: Placed, check: &Check<W>, reports: &mut List<'_, Report>)
    ensures { Noted reports.old reports.new (report_unless (member check.now.allowed.bits (modifier_number m.kind)) (said_of (W.Wording.says check.now.wording m.kind (given check.now.strict check.now.allowed.bits)) m.kind m.place)) }
{
    if check.allowed.contains(m.kind) {
        return;
    }
    let allowed = check.strict.then_some(check.allowed);
    reports.push(check.wording.word(m.kind, m.place, allowed));
}

/// Reports each kept kind outside the allowed set.
pub fn verify_modifiers<W: Wording>(
    modifiers: Modifiers,
    check: &Check<W>,
    reports: &mut List<'_, Report>,
)
    ensures noted { Noted reports.old reports.new (disallowed_reports check.now.allowed.bits check.now.strict (W.Wording.says check.now.wording) (entries modifiers)) }
    ensures once { (kept : Listed Modifier) → entries modifiers ≡ lasts kept → CheckedOnce check.now.allowed.bits check.now.strict (W.Wording.says check.now.wording) kept (disallowed_reports check.now.allowed.bits check.now.strict (W.Wording.says check.now.wording) (entries modifiers)) }
{
    // By the index, since the must-fail edit that turns the order needs it: over `iter()` that fell for its form alone.
    for i in 0..modifiers.len() {
        let Some(m) = modifiers.placed_at(i) else {
            return;
        };
        verify_one(m, check, reports);
    }
}
