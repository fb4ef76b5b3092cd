//! The decorators in front of a member, and what else stands there.

ghost use Rattle.std.specs.Prelude.{[]};
ghost use Rattle.class.specs.Decorating.{decorator_reports, spans_in};
ghost use Rattle.class.specs.Taking.{decorators_d};
ghost use Rattle.dialogue.specs.Spoken.{Spoke};
ghost use Rattle.list.specs.Lists.{Noted};
ghost use Rattle.reader.specs.Scenes.{scene};
ghost use Rattle.records.specs.Decorators.{spans_of};
ghost use Rattle.rules.specs.Rules.{rule_number};

use crate::noting::{note, stop};
use crate::taking::{is, take_part};
use dialogue::Fatal;
use kinds::context::Context;
use list::list::List;
use modifiers::Modifiers;
use parts::{Part, Span};
use reader::TokenReader;
use records::Decorators;
use reports::Report;
use rules::Rule;
use script::ScriptReader;
use token::Kind;

// The rule's number, and not the room of `Decorators`, which is as large: the rule stays where the room grows.
/// How many decorators a member can have.
const MOST: usize = 16;

/// What stands in front of a form: the decorators, and the keywords that are kept.
#[derive(Clone, Copy)]
pub struct Before {
    pub decorators: Decorators,
    pub modifiers: Modifiers,
}

/// Takes the decorators that stand first.
pub(crate) fn take_decorators<S: ScriptReader>(
    script: &mut S,
    context: Context,
    reports: &mut List<'_, Report>,
) -> Result<Decorators, Fatal>
    ensures { Spoke (decorators_d context.bits 16 []) (scene S.TokenReader script.old) (scene S.TokenReader script.new) reports.old reports.new (spans_in result) }
{
    let mut decorators = Decorators::none();
    for _ in 0..MOST {
        if !is(script.current(), Kind::AT) {
            return Ok(decorators);
        }
        let span = take_part(script, Part::Decorator, context, reports)?;
        decorators.push(span);
    }
    let next = script.current();
    if is(next, Kind::AT) {
        return stop(Fatal::TooManyDecorators, Span::from(next), reports);
    }
    Ok(decorators)
}

/// Notes a rule at each decorator.
pub(crate) fn note_decorators(rule: Rule, decorators: Decorators, reports: &mut List<'_, Report>)
    ensures { Noted reports.old reports.new (decorator_reports (rule_number rule) (spans_of decorators)) }
{
    for span in decorators.as_slice() {
        note(rule, *span, reports);
    }
}
