//! Reports: what a rule says of a place in the script. This crate knows the form of a report and no rule.

#![tactic(auto)]

ghost use Rattle.std.specs.Prelude.{◌≡◌, Some};
ghost use Rattle.reports.specs.Lines.{but, line, or_dash};
ghost use Rattle.reports.specs.Reports.{at_place, bits_of, keyword_report};

use kinds::{ModifierKind, ModifierKinds};
use parts::Span;
use small_set::SmallKind;
use std::fmt;

// What stands for no kind, and for no set.
const NO_KIND: u8 = 255;

const NO_SET: u16 = 65_535;

// Plain numbers, which a table of reports holds and a program prints.
/// A rule by its number, the place, the keyword and the other keyword by their numbers (255 for none), and the allowed
/// set by its bits (65535 for none).
#[derive(Clone, Copy, Debug, PartialEq, Eq)]
pub struct Report {
    pub rule: u8,
    pub start: u32,
    pub end: u32,
    pub kind: u8,
    pub other: u8,
    pub allowed: u16,
}

impl Report {
    /// A report of a place, with no keyword in it.
    pub fn at(rule: u8, place: Span) -> Report
        ensures { result ≡ at_place rule place }
    {
        Report {
            rule,
            start: place.start,
            end: place.end,
            kind: NO_KIND,
            other: NO_KIND,
            allowed: NO_SET,
        }
    }

    /// A report of a keyword at its place.
    pub fn of_keyword(
        rule: u8,
        kind: ModifierKind,
        place: Span,
        other: Option<ModifierKind>,
        allowed: Option<ModifierKinds>,
    ) -> Report
        ensures { result ≡ keyword_report rule kind place other (bits_of allowed) }
    {
        Report {
            rule,
            start: place.start,
            end: place.end,
            kind: kind.number(),
            other: other.map_or(NO_KIND, ModifierKind::number),
            allowed: allowed.map_or(NO_SET, ModifierKinds::bits),
        }
    }
}

/// A number, printed as a dash where there is none.
#[derive(Clone, Copy, Debug, PartialEq, Eq)]
pub struct OrDash(pub Option<u16>);

impl fmt::Display for OrDash {
    ghost output = { λ x. Some (or_dash x.0) };

    fn fmt<W: fmt::Write>(&self, f: &mut fmt::Formatter<W>) -> fmt::Result {
        match self.0 {
            Some(number) => write!(f, "{number}"),
            None => write!(f, "-"),
        }
    }
}

impl fmt::Display for Report {
    ghost output = { λ r. Some (line r) };

    fn fmt<W: fmt::Write>(&self, f: &mut fmt::Formatter<W>) -> fmt::Result {
        let kind = unless(u16::from(self.kind), u16::from(NO_KIND));
        let other = unless(u16::from(self.other), u16::from(NO_KIND));
        let allowed = unless(self.allowed, NO_SET);
        let (rule, start, end) = (self.rule, self.start, self.end);
        write!(f, "{rule} {start} {end} {kind} {other} {allowed}")
    }
}

// A number, unless it is the one that stands for none.
fn unless(number: u16, none: u16) -> OrDash
    ensures { result.0 ≡ but none number }
{
    OrDash((number != none).then_some(number))
}
