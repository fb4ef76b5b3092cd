//! The gate as a whole: from the bytes of a class body to the verdict, through brackets, trivia layer, text and session.
//! It knows nothing of standard input and of printing.

#![tactic(auto)]

ghost use Rattle.std.specs.Prelude.{Some};
ghost use Rattle.gate.specs.Lines.{line};
ghost use Rattle.gate.specs.Verdicts.{Judged};
ghost use Rattle.refusal.specs.Questions.{number_of};
ghost use Rattle.session.specs.Boards.{member_board, report_board};
ghost use Rattle.session.specs.Worlds.{standing_says};

use brackets::Brackets;
use kinds::context::Context;
use laws::read_body;
use list::list::List;
use reader::TokenReader;
use records::MemberRecord;
use refusal::{Opened, Refusal};
use reports::{OrDash, Report};
use script::ScriptReader;
use session::state::{Language, Session, Standing};
use std::fmt;
use text::Text;
use trivia::Trivia;

/// How the session stands in the end, and why the body is refused, if it is. The standing is told in both cases, so this
/// is no `Result`.
#[derive(Clone, Copy, Debug, PartialEq, Eq)]
pub struct Verdict {
    pub standing: Standing,
    pub refusal: Option<Refusal>,
}

/// One line, without its end: `= kept missed members fatal refusal`, `-` for none.
impl fmt::Display for Verdict {
    ghost output = { λ v. Some (line v) };

    fn fmt<W: fmt::Write>(&self, f: &mut fmt::Formatter<W>) -> fmt::Result {
        let Standing {
            state,
            members,
            kept,
            missed,
        } = self.standing;
        let fatal = OrDash(state.fatal().map(|rule| u16::from(rule.number())));
        let refusal = OrDash(self.refusal.map(|refusal| u16::from(refusal.number())));
        write!(f, "= {kept} {missed} {members} {fatal} {refusal}")
    }
}

/// Judges a class body, in TypeScript and with an empty context. Reports and member records are noted in the lists.
pub fn judge(
    text: &[u8],
    reports: &mut List<'_, Report>,
    members: &mut List<'_, MemberRecord>,
) -> Verdict
    ensures { Judged text.now (number_of result.refusal) (standing_says result.standing) (report_board reports.old) (report_board reports.new) (member_board members.old) (member_board members.new) }
{
    let mut session = Session::new(Language::TypeScript, Context::none());
    let Opened { reader, refused } = Text::new(text);
    if refused.is_some() {
        return Verdict {
            standing: session.standing(reports, members),
            refusal: refused,
        };
    }
    let tokens = Trivia::new(reader);
    let mut script = Brackets::new(tokens);
    let refusal = read_body(&mut session, &mut script, reports, members).err();
    Verdict {
        standing: session.standing(reports, members),
        refusal,
    }
}
