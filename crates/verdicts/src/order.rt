ghost use Rattle.kinds.specs.Modifiers.{modifier_number};
ghost use Rattle.small_set.specs.Members.{member};
ghost use Rattle.verdicts.specs.Orders.{OrderStands, order_of, silent};
ghost use Rattle.verdicts.specs.Verdicts.{accessibilities, any_of, rule_of, verdict_of};
ghost use Rattle.std.specs.Prelude.{◌≡◌, ◌&&◌, ◌==◌, ◌↔◌, IsTrue, Some, true};

use crate::tables::{row, verdict};
use kinds::{ModifierKind, ModifierKinds};
use rules::Rule;

const ACCESSIBILITIES: [ModifierKind; 3] = [
    ModifierKind::Private,
    ModifierKind::Protected,
    ModifierKind::Public,
];

const STANDS: u8 = 0;

/// What is said of a keyword by the kept ones before it: the rule, and the kept kind where the
/// rule names one.
#[derive(Clone, Copy, Debug, PartialEq, Eq)]
pub struct OrderVerdict {
    pub rule: Rule,
    pub other: Option<ModifierKind>,
}

/// What is said of `later` after the kept kinds. A second accessibility and a repetition go before
/// the rest, of which the kept kind with the lowest number is named.
pub fn order_verdict(kept: ModifierKinds, later: ModifierKind) -> Option<OrderVerdict>
    ensures { result ≡ order_of (λ k. member kept.bits (modifier_number k)) later }
{
    let lowest = kept.intersection(row(later)).next(0)?;
    if two_accessibilities(kept, later) {
        return Some(without_other(Rule::AccessibilityAlreadySeen));
    }
    // Only the kind itself can give that verdict.
    if gives(Rule::AlreadySeen, kept, later, later) {
        return Some(without_other(Rule::AlreadySeen));
    }
    verdict(later, lowest).map(|rule| OrderVerdict {
        rule,
        other: Some(lowest),
    })
}

fn without_other(rule: Rule) -> OrderVerdict
    ensures { result ≡ silent rule }
{
    OrderVerdict { rule, other: None }
}

// Only an accessibility can give that verdict, so no other kind is asked.
fn two_accessibilities(kept: ModifierKinds, later: ModifierKind) -> bool
    ensures { result ≡ any_of (λ k. member kept.bits (modifier_number k) && verdict_of later k == 1) accessibilities }
{
    ACCESSIBILITIES
        .iter()
        .any(|k| gives(Rule::AccessibilityAlreadySeen, kept, later, *k))
}

// Whether `earlier` is kept and gives the verdict `rule`.
fn gives(rule: Rule, kept: ModifierKinds, later: ModifierKind, earlier: ModifierKind) -> bool
    ensures { IsTrue result ↔ ((member kept.bits (modifier_number earlier) ≡ true) × (rule_of later earlier ≡ Some rule)) }
{
    kept.contains(earlier) && verdict(later, earlier) == Some(rule)
}

// A law stands on a call, and this number is all that an edit can make wrong there.
/// What the definition of an order verdict comes to, said without it.
pub fn order_stands() -> u8
    ensures stands { result ≡ 0 }
    ensures law { OrderStands }
{
    STANDS
}
