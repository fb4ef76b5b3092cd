//! Reports at a place, where something holds of it.

ghost use Rattle.std.specs.Prelude.{[], ◌∷◌};
ghost use Rattle.class.specs.Noting.{report_at, report_if};
ghost use Rattle.dialogue.specs.Dialogues.{stop};
ghost use Rattle.dialogue.specs.Spoken.{Spoke};
ghost use Rattle.list.specs.Lists.{Noted};
ghost use Rattle.reader.specs.Scenes.{Scene};
ghost use Rattle.reports.specs.Reports.{at_place};
ghost use Rattle.rules.specs.Rules.{rule_number};

use dialogue::Fatal;
use list::list::List;
use parts::Span;
use reports::Report;
use rules::Rule;

/// Notes a rule at a place.
pub(crate) fn note(rule: Rule, place: Span, reports: &mut List<'_, Report>)
    ensures { Noted reports.old reports.new (at_place (rule_number rule) place ∷ []) }
{
    reports.push(Report::at(rule.number(), place));
}

/// Notes a fatal rule at a place, and answers it.
pub(crate) fn stop<T>(fatal: Fatal, place: Span, reports: &mut List<'_, Report>) -> Result<T, Fatal>
    ensures { (s : Scene) → Spoke (stop fatal place) s s reports.old reports.new result }
{
    note(Rule::from(fatal), place, reports);
    Err(fatal)
}

/// Notes a rule at a place, if something holds.
pub(crate) fn note_if(holds: bool, rule: Rule, place: Span, reports: &mut List<'_, Report>)
    ensures { Noted reports.old reports.new (report_if holds (rule_number rule) place) }
{
    if holds {
        note(rule, place, reports);
    }
}

/// Notes a rule at a place, if there is one.
pub(crate) fn note_at(rule: Rule, place: Option<Span>, reports: &mut List<'_, Report>)
    ensures { Noted reports.old reports.new (report_at (rule_number rule) place) }
{
    if let Some(span) = place {
        note(rule, span, reports);
    }
}
