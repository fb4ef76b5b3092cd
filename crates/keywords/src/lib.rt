//! Keyword lists: reading the modifier keywords at the front of a member over any token reader, with the reports that
//! their order earns. This crate knows which keywords are kept, and not what is checked of them afterwards.

#![tactic(auto)]

ghost use Rattle.std.specs.Prelude.{◌≡◌, true, []};
ghost use Rattle.keywords.specs.Laws.{LongestRun, OrderEarned};
ghost use Rattle.keywords.specs.Run.{KeywordsRead, eligible, follows_on_line, kept_of, order_report, order_reports};
ghost use Rattle.list.specs.Lists.{Noted};
ghost use Rattle.modifiers.specs.Entries.{may_follow, word_at};
ghost use Rattle.modifiers.specs.Lists.{entries};
ghost use Rattle.reader.specs.Scenes.{scene};
ghost use Rattle.reader.specs.Sound.{sound};

use kinds::ModifierKind;
use list::list::List;
use modifiers::{Modifier, Modifiers};
use reader::{Ahead, TokenReader};
use reports::Report;
use token::{Kind, Token};
use verdicts::order::order_verdict;

/// Whether `const` can be a modifier, and whether `static {` ends the list.
#[derive(Clone, Copy, Debug, PartialEq, Eq)]
pub struct ListSettings {
    pub const_allowed: bool,
    pub static_block_ends: bool,
}

fn follows_on_line(next: Token) -> bool
    ensures { result ≡ follows_on_line next }
{
    next.kind.can_follow_modifier() && !next.line_break
}

fn is_eligible(settings: ListSettings, static_kept: bool, kind: ModifierKind, next: Token) -> bool
    ensures { result ≡ eligible settings static_kept kind next }
{
    match kind {
        ModifierKind::Const => settings.const_allowed && follows_on_line(next),
        ModifierKind::Static => {
            let block = settings.static_block_ends && next.kind == Kind::LCURLY;
            next.kind.can_follow_modifier() && !static_kept && !block
        }
        _ => follows_on_line(next),
    }
}

// Notes what a keyword earns after the kept ones. It ends within 32 bits where it can be kept.
fn report_order(kept: &Modifiers, kind: ModifierKind, start: u32, reports: &mut List<'_, Report>)
    ensures { may_follow (entries kept.now) (word_at kind start) ≡ true → Noted reports.old reports.new (order_report (entries kept.now) (word_at kind start)) }
{
    let Some(verdict) = order_verdict(kept.kinds(), kind) else {
        return;
    };
    let Some(place) = (Modifier { start, kind }).place() else {
        return;
    };
    let rule = verdict.rule.number();
    reports.push(Report::of_keyword(rule, kind, place, verdict.other, None));
}

/// Takes the keywords at the front, reports what their order earns, and answers those that are kept.
pub fn parse_modifiers<R: TokenReader>(
    script: &mut R,
    settings: ListSettings,
    reports: &mut List<'_, Report>,
) -> Modifiers
    ensures read { KeywordsRead settings (scene R.TokenReader script.old) (scene R.TokenReader script.new) result reports.old reports.new }
    ensures longest { sound (R.TokenReader.tokens script.old) ≡ true → LongestRun settings (R.TokenReader.tokens script.old) (kept_of settings (scene R.TokenReader script.old)) }
    ensures orders { OrderEarned (kept_of settings (scene R.TokenReader script.old)) (order_reports [] (kept_of settings (scene R.TokenReader script.old))) }
{
    let mut kept = Modifiers::none();
    loop {
        let token = script.current();
        let Some(kind) = token.kind.modifier_kind() else {
            return kept;
        };
        let static_kept = kept.contains(ModifierKind::Static);
        if !is_eligible(settings, static_kept, kind, script.peek(Ahead::One)) {
            return kept;
        }
        let before = kept;
        if !kept.add(kind, token.start) {
            return kept;
        }
        report_order(&before, kind, token.start, reports);
        script.advance();
    }
}
