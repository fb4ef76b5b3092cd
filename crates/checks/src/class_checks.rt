//! The checks of class members, each with its wording.

ghost use Rattle.std.specs.Prelude.{◌≡◌, ◌^◌, ◌<◌};
ghost use Rattle.checks.specs.ClassChecks.{allowed_in, check_reports, says_in, strict_in};
ghost use Rattle.checks.specs.declared.class_check.ClassCheck.TheVariants.{Accessor, AccessorProperty, ConstInOut, Constructor, Element, IndexSignature, JavaScript, Method, PrivateName, Property, StaticBlock};
ghost use Rattle.list.specs.Lists.{Noted};
ghost use Rattle.modifiers.specs.Lists.{entries};
ghost use Rattle.verdicts.specs.Verdicts.{packed};

use crate::class_check::ClassCheck;
use crate::verifying::{Check, verify_modifiers};
use crate::wording::Wording;
use kinds::{ModifierKind, ModifierKinds};
use list::list::List;
use modifiers::Modifiers;
use parts::Span;
use reports::Report;
use rules::Rule;

// What the method check tells as allowed, as bits too.
const ON_METHODS: u16 = 0b0000_0001_1101_1110;

impl ClassCheck {
    // The allowed kinds, one bit for each, from `declare` at the right to `export`: reports tell a set by its bits.
    fn bits(self) -> u16
        ensures { result ≡ packed (allowed_in self) }
    {
        match self {
            ClassCheck::Element => 0b0010_1111_1111_1111,
            ClassCheck::JavaScript => 0b0111_0001_0001_0000,
            ClassCheck::StaticBlock => 0b0000_0000_0000_0000,
            ClassCheck::IndexSignature => 0b0000_0000_0011_0000,
            ClassCheck::ConstInOut => 0b0111_0001_1111_1111,
            ClassCheck::PrivateName => 0b0111_1111_1111_0001,
            ClassCheck::AccessorProperty => 0b0010_0000_1101_1110,
            ClassCheck::Accessor => 0b0101_1110_1101_1110,
            ClassCheck::Constructor => 0b0101_1111_1101_1110,
            ClassCheck::Method => 0b0101_1111_1101_1110,
            ClassCheck::Property => 0b0111_1110_1111_1111,
        }
    }

    // Whether just these are allowed, so that the wording is told them.
    fn is_strict(self) -> bool
        ensures { result ≡ strict_in self }
    {
        matches!(
            self,
            ClassCheck::IndexSignature | ClassCheck::AccessorProperty
        )
    }
}

// A set of kinds by its bits.
fn set(bits: u16) -> ModifierKinds
    requires { bits < 2 ^ 15 }
    ensures { result.bits ≡ bits }
{
    ModifierKinds::from_bits(bits).unwrap()
}

// A wording is an interface with one implementation for each check, so that `verify_modifiers` is proved over every wording.
#[derive(Drop)]
struct OnElements;

impl Wording for OnElements {
    ghost says = { λ _. says_in Element };

    fn word(&self, kind: ModifierKind, place: Span, allowed: Option<ModifierKinds>) -> Report {
        Report::of_keyword(Rule::OnClassElement.number(), kind, place, None, allowed)
    }
}

#[derive(Drop)]
struct InJavaScript;

impl Wording for InJavaScript {
    ghost says = { λ _. says_in JavaScript };

    fn word(&self, kind: ModifierKind, place: Span, _allowed: Option<ModifierKinds>) -> Report {
        Report::of_keyword(Rule::InTypeScriptOnly.number(), kind, place, None, None)
    }
}

#[derive(Drop)]
struct OnStaticBlocks;

impl Wording for OnStaticBlocks {
    ghost says = { λ _. says_in StaticBlock };

    fn word(&self, kind: ModifierKind, place: Span, allowed: Option<ModifierKinds>) -> Report {
        Report::of_keyword(Rule::OnStaticBlock.number(), kind, place, None, allowed)
    }
}

#[derive(Drop)]
struct OnIndexSignatures;

impl Wording for OnIndexSignatures {
    ghost says = { λ _. says_in IndexSignature };

    fn word(&self, kind: ModifierKind, place: Span, allowed: Option<ModifierKinds>) -> Report {
        Report::of_keyword(Rule::OnIndexSignature.number(), kind, place, None, allowed)
    }
}

#[derive(Drop)]
struct ConstInOrOut;

impl Wording for ConstInOrOut {
    ghost says = { λ _. says_in ConstInOut };

    fn word(&self, kind: ModifierKind, place: Span, _allowed: Option<ModifierKinds>) -> Report {
        let rule = match kind {
            ModifierKind::Const => Rule::ConstClassMember,
            _ => Rule::OnTypeParameterOnly,
        };
        Report::of_keyword(rule.number(), kind, place, None, None)
    }
}

#[derive(Drop)]
struct OnPrivateNames;

impl Wording for OnPrivateNames {
    ghost says = { λ _. says_in PrivateName };

    fn word(&self, kind: ModifierKind, place: Span, allowed: Option<ModifierKinds>) -> Report {
        Report::of_keyword(Rule::OnPrivateName.number(), kind, place, None, allowed)
    }
}

#[derive(Drop)]
struct OnAccessorProperties;

impl Wording for OnAccessorProperties {
    ghost says = { λ _. says_in AccessorProperty };

    fn word(&self, kind: ModifierKind, place: Span, allowed: Option<ModifierKinds>) -> Report {
        Report::of_keyword(
            Rule::OnAccessorProperty.number(),
            kind,
            place,
            None,
            allowed,
        )
    }
}

#[derive(Drop)]
struct OnAccessors;

impl Wording for OnAccessors {
    ghost says = { λ _. says_in Accessor };

    fn word(&self, kind: ModifierKind, place: Span, allowed: Option<ModifierKinds>) -> Report {
        let rule = match kind {
            ModifierKind::Accessor => Rule::AccessorOnPropertyOnly,
            ModifierKind::Readonly => Rule::OnPropertyOrIndexOnly,
            _ => Rule::CannotBeUsedHere,
        };
        Report::of_keyword(rule.number(), kind, place, None, allowed)
    }
}

#[derive(Drop)]
struct OnConstructors;

impl Wording for OnConstructors {
    ghost says = { λ _. says_in Constructor };

    fn word(&self, kind: ModifierKind, place: Span, _allowed: Option<ModifierKinds>) -> Report {
        let rule = match kind {
            ModifierKind::Declare => Rule::DeclareConstructor,
            ModifierKind::Readonly => Rule::OnPropertyOrIndexOnly,
            _ => Rule::AccessorOnPropertyOnly,
        };
        Report::of_keyword(rule.number(), kind, place, None, None)
    }
}

#[derive(Drop)]
struct OnMethods;

impl Wording for OnMethods {
    ghost says = { λ _. says_in Method };

    fn word(&self, kind: ModifierKind, place: Span, _allowed: Option<ModifierKinds>) -> Report {
        let rule = match kind {
            ModifierKind::Declare => Rule::OnClassElement,
            ModifierKind::Readonly => Rule::OnPropertyOrIndexOnly,
            _ => Rule::AccessorOnPropertyOnly,
        };
        Report::of_keyword(rule.number(), kind, place, None, Some(set(ON_METHODS)))
    }
}

#[derive(Drop)]
struct OnProperties;

impl Wording for OnProperties {
    ghost says = { λ _. says_in Property };

    fn word(&self, kind: ModifierKind, place: Span, allowed: Option<ModifierKinds>) -> Report {
        Report::of_keyword(Rule::CannotBeUsedHere.number(), kind, place, None, allowed)
    }
}

fn run<W: Wording + Drop>(
    check: ClassCheck,
    wording: W,
    modifiers: Modifiers,
    reports: &mut List<'_, Report>,
)
    requires { W.Wording.says wording ≡ says_in check }
    ensures { Noted reports.old reports.new (check_reports check (entries modifiers)) }
{
    let check = Check {
        allowed: set(check.bits()),
        strict: check.is_strict(),
        wording,
    };
    verify_modifiers(modifiers, &check, reports);
}

// A match picks the wording's type: each is a type of its own, and none is kept as a value to call later.
/// Runs a check of class members.
pub fn run_check(check: ClassCheck, modifiers: Modifiers, reports: &mut List<'_, Report>)
    ensures { Noted reports.old reports.new (check_reports check (entries modifiers)) }
{
    match check {
        ClassCheck::Element => run(check, OnElements, modifiers, reports),
        ClassCheck::JavaScript => run(check, InJavaScript, modifiers, reports),
        ClassCheck::StaticBlock => run(check, OnStaticBlocks, modifiers, reports),
        ClassCheck::IndexSignature => run(check, OnIndexSignatures, modifiers, reports),
        ClassCheck::ConstInOut => run(check, ConstInOrOut, modifiers, reports),
        ClassCheck::PrivateName => run(check, OnPrivateNames, modifiers, reports),
        ClassCheck::AccessorProperty => run(check, OnAccessorProperties, modifiers, reports),
        ClassCheck::Accessor => run(check, OnAccessors, modifiers, reports),
        ClassCheck::Constructor => run(check, OnConstructors, modifiers, reports),
        ClassCheck::Method => run(check, OnMethods, modifiers, reports),
        ClassCheck::Property => run(check, OnProperties, modifiers, reports),
    }
}
