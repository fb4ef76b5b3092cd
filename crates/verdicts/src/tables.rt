ghost use Rattle.std.specs.Prelude.{◌≡◌, ◌^◌, ◌<◌};
ghost use Rattle.kinds.specs.Modifiers.{modifier_number};
ghost use Rattle.small_set.specs.Members.{member};
ghost use Rattle.verdicts.specs.Verdicts.{forbidden_before, forbids, kind_at, packed, rule_at, rule_of, rule_or_0, verdict_of};

use kinds::{ModifierKind, ModifierKinds};
use rules::Rule;
use small_set::SmallKind;

const KINDS: usize = 15;

// One row for each later kind, one bit for each kind that is forbidden earlier; plain bits, so that one computation
// ties all of them to the lists of kinds.
#[rattlefmt::skip]
const ROWS: [u16; KINDS] = [
    0b0000_0000_1000_0001, // declare
    0b0010_0001_1111_1110, // private
    0b0010_0001_1111_1110, // protected
    0b0010_0001_1111_1110, // public
    0b0010_0001_1111_0000, // static
    0b0000_0000_0010_0000, // readonly
    0b0010_0001_1101_0010, // abstract
    0b0010_0001_1010_0001, // override
    0b0000_0001_0100_0000, // async
    0b0000_0010_0000_0000, // const
    0b0000_0100_0000_0000, // in
    0b0000_1000_0000_0000, // out
    0b0001_0000_0000_0000, // default
    0b0010_0000_0000_0000, // accessor
    0b0100_0001_0100_0001, // export
];

// One row for each later kind, one verdict for each earlier kind; plain numbers for the same reason.
#[rattlefmt::skip]
const VERDICTS: [u8; 225] = [
    2, 0, 0, 0, 0, 0, 0, 4, 0, 0, 0, 0, 0, 0, 0, // declare
    0, 1, 1, 1, 5, 5, 3, 5, 5, 0, 0, 0, 0, 5, 0, // private
    0, 1, 1, 1, 5, 5, 5, 5, 5, 0, 0, 0, 0, 5, 0, // protected
    0, 1, 1, 1, 5, 5, 5, 5, 5, 0, 0, 0, 0, 5, 0, // public
    0, 0, 0, 0, 2, 5, 3, 5, 5, 0, 0, 0, 0, 5, 0, // static
    0, 0, 0, 0, 0, 2, 0, 0, 0, 0, 0, 0, 0, 0, 0, // readonly
    0, 3, 0, 0, 3, 0, 2, 5, 3, 0, 0, 0, 0, 5, 0, // abstract
    3, 0, 0, 0, 0, 5, 0, 2, 5, 0, 0, 0, 0, 5, 0, // override
    0, 0, 0, 0, 0, 0, 3, 0, 2, 0, 0, 0, 0, 0, 0, // async
    0, 0, 0, 0, 0, 0, 0, 0, 0, 2, 0, 0, 0, 0, 0, // const
    0, 0, 0, 0, 0, 0, 0, 0, 0, 0, 2, 0, 0, 0, 0, // in
    0, 0, 0, 0, 0, 0, 0, 0, 0, 0, 0, 2, 0, 0, 0, // out
    0, 0, 0, 0, 0, 0, 0, 0, 0, 0, 0, 0, 2, 0, 0, // default
    0, 0, 0, 0, 0, 0, 0, 0, 0, 0, 0, 0, 0, 2, 0, // accessor
    5, 0, 0, 0, 0, 0, 5, 0, 5, 0, 0, 0, 0, 0, 2, // export
];

// The bits of the row of the kind with a number.
fn bits_at(later: usize) -> u16
    requires { later < 15 }
    ensures { result ≡ packed (forbidden_before (kind_at later)) }
{
    ROWS[later]
}

/// The kinds that are forbidden before `later`.
pub fn row(later: ModifierKind) -> ModifierKinds
    ensures { (k : ModifierKind) → member result.bits (modifier_number k) ≡ forbids later k }
{
    ModifierKinds::from_bits(bits_at(later.number() as usize)).unwrap()
}

// The verdict of the kinds with two numbers.
fn verdict_at(later: usize, earlier: usize) -> u8
    requires { (later < 15) × (earlier < 15) }
    ensures { result ≡ verdict_of (kind_at later) (kind_at earlier) }
{
    VERDICTS[later * KINDS + earlier]
}

/// What is said of `later` where `earlier` stands before it, if anything.
pub fn verdict(later: ModifierKind, earlier: ModifierKind) -> Option<Rule>
    ensures rule { result ≡ rule_of later earlier }
    ensures number { rule_or_0 result ≡ verdict_of later earlier }
{
    rule_at(verdict_at(later.number() as usize, earlier.number() as usize))
}

// The rule that a number of the table stands for: the table is constant and holds a byte for each pair.
fn rule_at(n: u8) -> Option<Rule>
    ensures { result ≡ rule_at n }
{
    match n {
        1 => Some(Rule::AccessibilityAlreadySeen),
        2 => Some(Rule::AlreadySeen),
        3 => Some(Rule::WithOtherModifier),
        4 => Some(Rule::InAmbientContext),
        5 => Some(Rule::MustPrecede),
        _ => None,
    }
}
