//! Values with nothing in them: what lent memory holds before anything is kept in it, and a token of no name that stands
//! after no line break.

#![tactic(auto)]

ghost use Rattle.std.specs.Prelude.{◌≡◌};
ghost use Rattle.blanks.specs.Blanks.{blank_told, nowhere, plain_token};
ghost use Rattle.records.specs.Told.{told_by};
ghost use Rattle.reports.specs.Reports.{at_place};

use modifiers::Modifiers;
use parts::Span;
use records::{Decorators, Form, MemberRecord};
use reports::Report;
use token::{Kind, Token};

const NOWHERE: Span = Span { start: 0, end: 0 };

pub fn token(kind: Kind, start: u32, end: u32) -> Token
    ensures { result ≡ plain_token kind.code start end }
{
    Token {
        kind,
        start,
        end,
        line_break: false,
        name: 0,
    }
}

pub fn report() -> Report
    ensures { result ≡ at_place 0 nowhere }
{
    Report::at(0, NOWHERE)
}

pub fn member() -> MemberRecord
    ensures { told_by result ≡ blank_told }
{
    MemberRecord {
        span: NOWHERE,
        modifiers: Modifiers::none(),
        decorators: Decorators::none(),
        form: Form::StaticBlock(NOWHERE),
    }
}
