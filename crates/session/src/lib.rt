//! Sessions: a class body is opened, read member by member and closed, over any reader. A session asks its questions in
//! order, and a refused call changes nothing. It knows nothing of where tokens come from, nor what a member is made of.

#![tactic(auto)]

ghost use Rattle.std.specs.Prelude.{◌≡◌, Ok};
ghost use Rattle.reader.specs.Scenes.{Scene, scene};
ghost use Rattle.records.specs.Told.{Told};
ghost use Rattle.reports.specs.declared.Report.{Report as Reported};
ghost use Rattle.class.specs.Members.{told_of};
ghost use Rattle.session.specs.Boards.{Board, member_board, report_board};
ghost use Rattle.session.specs.Worlds.{Did, done_says, fresh_session, is_type_script, kept_says, reading_of, reading_says, record_in, standing_says, unless, world, world_of};

use class::read_member;
use dialogue::Fatal;
use kinds::context::Context;
use list::list::List;
use reader::TokenReader;
use records::MemberRecord;
use refusal::Refusal;
use reports::Report;
use script::ScriptReader;
use token::Kind;

pub mod state;

use state::{Call, Language, Reading, Session, Standing, State};

fn is_typescript(language: Language) -> bool
    ensures { result ≡ is_type_script language }
{
    language == Language::TypeScript
}

fn keep(next: Option<MemberRecord>, members: &mut List<'_, MemberRecord>) -> Reading
    ensures says { kept_says result ≡ reading_of (Ok (told_of next)) }
    ensures kept { member_board members.new ≡ record_in (Ok (told_of next)) (member_board members.old) }
{
    match next {
        Some(record) => {
            members.push(record);
            Reading::Member
        }
        None => Reading::NoMore,
    }
}

// Refuses, if a question is answered no.
fn ask(yes: bool, refusal: Refusal) -> Result<(), Refusal>
    ensures { result ≡ unless yes refusal }
{
    if yes { Ok(()) } else { Err(refusal) }
}

impl Session {
    /// A fresh session with its settings.
    pub fn new(language: Language, context: Context) -> Session
        ensures { result ≡ fresh_session language context }
    {
        Session {
            state: State::Fresh,
            language,
            context,
        }
    }

    /// Opens a fresh session at `{`, which it takes.
    pub fn open<R: TokenReader>(&mut self, script: &mut R) -> Result<(), Refusal>
        ensures { (b : Board Reported) (m : Board Told) → Did Call.Open (done_says result) (world_of self.old (scene R.TokenReader script.old) b m) (world_of self.new (scene R.TokenReader script.new) b m) }
    {
        ask(self.state == State::Fresh, Refusal::NotFresh)?;
        ask(script.current().kind == Kind::LCURLY, Refusal::NoOpenBrace)?;
        script.advance();
        self.state = State::Open;
        Ok(())
    }

    // As `open` in form, but a function for both would take two states, a brace and two refusals: longer than what it saves.

    /// Closes an open session at `}`, which it takes.
    pub fn close<R: TokenReader>(&mut self, script: &mut R) -> Result<(), Refusal>
        ensures { (b : Board Reported) (m : Board Told) → Did Call.Close (done_says result) (world_of self.old (scene R.TokenReader script.old) b m) (world_of self.new (scene R.TokenReader script.new) b m) }
    {
        ask(self.state == State::Open, Refusal::NotOpen)?;
        ask(script.current().kind == Kind::RCURLY, Refusal::NoCloseBrace)?;
        script.advance();
        self.state = State::Closed;
        Ok(())
    }

    /// Reads the next member, if `}` does not stand there: its reports are noted and its record is kept, or a fatal rule
    /// faults the session.
    pub fn member<S: ScriptReader>(
        &mut self,
        script: &mut S,
        reports: &mut List<'_, Report>,
        members: &mut List<'_, MemberRecord>,
    ) -> Result<Reading, Refusal>
        ensures { Did Call.Member (reading_says result) (world S.TokenReader self.old script.old reports.old members.old) (world S.TokenReader self.new script.new reports.new members.new) }
    {
        ask(self.state == State::Open, Refusal::NotOpen)?;
        ask(members.len() < members.room(), Refusal::NoMemberPlace)?;
        match read_member(
            script,
            is_typescript(self.language),
            &mut self.context,
            reports,
        ) {
            Ok(next) => Ok(keep(next, members)),
            Err(fatal) => {
                self.state = State::Faulted(fatal);
                Ok(Reading::Fault(fatal))
            }
        }
    }

    /// How it stands, and how its lists do.
    pub fn standing(
        &self,
        reports: &mut List<'_, Report>,
        members: &mut List<'_, MemberRecord>,
    ) -> Standing
        ensures told { (s : Scene) → Did Call.Standing (standing_says result) (world_of self.now s (report_board reports.old) (member_board members.old)) (world_of self.now s (report_board reports.new) (member_board members.new)) }
    {
        Standing {
            state: self.state,
            members: members.len(),
            kept: reports.len(),
            missed: reports.missed(),
        }
    }
}
