//! Chains of calls on a session, whatever they are and over whichever reader, and what holds of every such chain. The
//! gate's own order of calls is one of them. This crate knows the calls only by what they promise.

#![tactic(auto)]

ghost use Rattle.laws.specs.Bodies.{ReadFrom};
ghost use Rattle.laws.specs.Chains.{Performed};
ghost use Rattle.laws.specs.Outcomes.{said_by};
ghost use Rattle.refusal.specs.Questions.{refused_by};
ghost use Rattle.session.specs.Worlds.{Did, world};

use list::list::List;
use reader::TokenReader;
use records::MemberRecord;
use refusal::Refusal;
use reports::Report;
use script::ScriptReader;
use session::state::{Call, Reading, Session};

pub mod outcome;

use outcome::{Outcome, Told};

// The session, its reader and its two lists stay four parameters here, and `world` says in the contracts what they are
// together: a struct of four `&mut`s gets no proof, since it is not covered that a place is written through one field while
// another is lent; and one that owns them cannot be made of lists that the caller keeps.

// One call. A chain of them is data, over which what holds of every chain is said, so a call is an enum and no closure.
fn make<S: ScriptReader>(
    session: &mut Session,
    script: &mut S,
    reports: &mut List<'_, Report>,
    members: &mut List<'_, MemberRecord>,
    call: Call,
) -> Told
    ensures { Did call (said_by result) (world S.TokenReader session.old script.old reports.old members.old) (world S.TokenReader session.new script.new reports.new members.new) }
{
    match call {
        Call::Open => session.open(script).map(|()| Outcome::Done),
        Call::Member => session.member(script, reports, members).map(Outcome::Read),
        Call::Close => session.close(script).map(|()| Outcome::Done),
        Call::Standing => Ok(Outcome::Stands(session.standing(reports, members))),
    }
}

/// Makes the calls in order, refused ones too, and notes what each told.
pub fn perform<S: ScriptReader>(
    session: &mut Session,
    script: &mut S,
    reports: &mut List<'_, Report>,
    members: &mut List<'_, MemberRecord>,
    calls: &[Call],
    told: &mut List<'_, Told>,
)
    ensures { Performed calls.now (world S.TokenReader session.old script.old reports.old members.old) (world S.TokenReader session.new script.new reports.new members.new) told.old told.new }
{
    for call in calls {
        let outcome = make(session, script, reports, members, *call);
        told.push(outcome);
    }
}

// Calls for members while one is read, and closes after the last.
fn read_rest<S: ScriptReader>(
    session: &mut Session,
    script: &mut S,
    reports: &mut List<'_, Report>,
    members: &mut List<'_, MemberRecord>,
) -> Result<(), Refusal>
    ensures { ReadFrom Call.Member (refused_by result) (world S.TokenReader session.old script.old reports.old members.old) (world S.TokenReader session.new script.new reports.new members.new) }
{
    loop {
        match session.member(script, reports, members)? {
            Reading::Member => {}
            Reading::NoMore => return session.close(script),
            Reading::Fault(_) => return Ok(()),
        }
    }
}

/// Reads a whole body: opens it, reads its members and closes it. It stops at the first refusal, which it answers, or at
/// a fault, which the session tells.
pub fn read_body<S: ScriptReader>(
    session: &mut Session,
    script: &mut S,
    reports: &mut List<'_, Report>,
    members: &mut List<'_, MemberRecord>,
) -> Result<(), Refusal>
    ensures { ReadFrom Call.Open (refused_by result) (world S.TokenReader session.old script.old reports.old members.old) (world S.TokenReader session.new script.new reports.new members.new) }
{
    session.open(script)?;
    read_rest(session, script, reports, members)
}
