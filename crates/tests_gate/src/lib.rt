//! Tests of sessions, of chains of calls and of the gate as a whole.

#![tactic(auto)]

use brackets::Brackets;
use dialogue::Fatal;
use gate::judge;
use kinds::context::Context;
use laws::outcome::{Outcome, Told};
use laws::perform;
use list::list::List;
use reader::TokenReader;
use records::MemberRecord;
use refusal::Refusal;
use reports::Report;
use script::ScriptReader;
use session::state::{Call, Language, Reading, Session, State};
use text::Text;
use trivia::Trivia;

// Kept, missed, members, fatal rule, refusal, and rule and start of the last report kept.
fn judged(text: &[u8], report_room: &mut [Report], member_room: &mut [MemberRecord]) -> [usize; 7] {
    let mut reports = List::new(report_room);
    let mut members = List::new(member_room);
    let verdict = judge(text, &mut reports, &mut members);
    let standing = verdict.standing;
    let last = reports.as_slice().last().copied();
    let last = last.unwrap_or(blanks::report());
    [
        standing.kept,
        usize::from(standing.missed),
        standing.members,
        usize::from(standing.state.fatal().map_or(0, Fatal::number)),
        usize::from(verdict.refusal.map_or(0, Refusal::number)),
        usize::from(last.rule),
        last.start as usize,
    ]
}

// The same with four places in each list.
fn four(text: &[u8]) -> [usize; 7] {
    let mut report_room = [blanks::report(); 4];
    let mut member_room = [blanks::member(); 4];
    judged(text, &mut report_room, &mut member_room)
}

fn number(told: Told) -> u8 {
    match told {
        Err(refusal) => refusal.number(),
        Ok(Outcome::Done) => 0,
        Ok(Outcome::Read(Reading::Member)) => 100,
        Ok(Outcome::Read(Reading::NoMore)) => 101,
        Ok(Outcome::Read(Reading::Fault(fatal))) => 100 + fatal.number(),
        Ok(Outcome::Stands(standing)) => match standing.state {
            State::Fresh => 200,
            State::Open => 201,
            State::Closed => 202,
            State::Faulted(_) => 203,
        },
    }
}

// Member, open, open, member, member, standing, close, close, standing.
fn nine_calls<S: ScriptReader>(script: &mut S) -> [u8; 9] {
    let mut session = Session::new(Language::JavaScript, Context::none());
    // What none of the calls below tells.
    let mut room = [Err(Refusal::TokenCount); 9];
    let mut list = List::new(&mut room);
    let mut report_room = [blanks::report(); 4];
    let mut member_room = [blanks::member(); 4];
    let mut reports = List::new(&mut report_room);
    let mut members = List::new(&mut member_room);
    let calls = [
        Call::Member,
        Call::Open,
        Call::Open,
        Call::Member,
        Call::Member,
        Call::Standing,
        Call::Close,
        Call::Close,
        Call::Standing,
    ];
    perform(
        &mut session,
        script,
        &mut reports,
        &mut members,
        &calls,
        &mut list,
    );
    room.map(number)
}

#[cfg(test)]
mod tests {
    use super::*;
    use std::test::Fail;

    #[test]
    fn bodies(rt: HostRuntime) {
        assert_eq!(rt; four(b"{ /* nothing yet */ }"), [0, 0, 0, 0, 0, 0, 0]);
        assert_eq!(rt;
            four(b"// a class body\r\n{\n}\nafter"),
            [0, 0, 0, 0, 0, 0, 0]
        );
        assert_eq!(rt; four(b"x"), [0, 0, 0, 0, 8, 0, 0]);
        assert_eq!(rt; four(b""), [0, 0, 0, 0, 8, 0, 0]);
        assert_eq!(rt; four(b"{"), [1, 0, 0, 51, 0, 51, 1]);
        assert_eq!(rt; four(b"{\x80"), [0, 0, 0, 0, 6, 0, 0]);
    }

    #[test]
    fn members(rt: HostRuntime) {
        assert_eq!(rt;
            four(b"{;static x; #y = 1; get z() {} static {}}"),
            [0, 0, 4, 0, 10, 0, 0]
        );
        assert_eq!(rt;
            four(b"{readonly accessor readonly expires}"),
            [2, 0, 1, 0, 0, 13, 19]
        );
        assert_eq!(rt;
            four(b"{readonly declare constructor() {}}"),
            [2, 0, 1, 0, 0, 16, 10]
        );
        assert_eq!(rt; four(b"{x y}"), [1, 0, 0, 49, 0, 49, 3]);
        assert_eq!(rt; four(b"{accessor x y}"), [1, 0, 0, 50, 0, 50, 11]);
    }

    #[test]
    fn full_lists(rt: HostRuntime) {
        let mut one = [blanks::report(); 1];
        let mut two = [blanks::member(); 2];
        let body = b"{readonly accessor readonly expires}";
        assert_eq!(rt; judged(body, &mut one, &mut two), [1, 1, 1, 0, 0, 2, 19]);
        assert_eq!(rt; judged(body, &mut [], &mut two), [0, 2, 1, 0, 0, 0, 0]);
        assert_eq!(rt; judged(body, &mut one, &mut []), [0, 0, 0, 0, 10, 0, 0]);
        assert_eq!(rt; judged(b"{x y}", &mut [], &mut two), [0, 1, 0, 49, 0, 0, 0]);
        assert_eq!(rt;
            judged(b"{@a@a@a@a@a@a@a@a@a@a@a@a@a@a@a@a x}", &mut [], &mut two),
            [0, 0, 1, 0, 0, 0, 0]
        );
        assert_eq!(rt;
            judged(b"{@a@a@a@a@a@a@a@a@a@a@a@a@a@a@a@a@a x}", &mut [], &mut two),
            [0, 1, 0, 52, 0, 0, 0]
        );
    }

    #[test]
    fn long_bodies(rt: HostRuntime) -> Result<(), Fail> {
        let mut text = vec![in rt.alloc(); b' '; 65_534]?;
        text.push(b'{')?;
        text.push(b'}')?;
        assert_eq!(rt; four(text.as_slice()), [0, 0, 0, 0, 0, 0, 0]);
        text.push(b' ')?;
        assert_eq!(rt; four(text.as_slice()), [0, 0, 0, 0, 5, 0, 0]);
        Ok(())
    }

    #[test]
    fn calls_in_any_order(rt: HostRuntime) {
        let mut script = Brackets::new(Trivia::new(Text::new(b" { x } ").reader));
        let a = nine_calls(&mut script);
        assert_eq!(rt; a, [9, 0, 7, 100, 101, 201, 0, 9, 202]);
        assert_eq!(rt; script.last_end(), 6);
        let mut fault = Brackets::new(Trivia::new(Text::new(b"{x y}").reader));
        let b = nine_calls(&mut fault);
        assert!(rt; b[3] == 149 && b[4] == 9 && b[5] == 203 && b[6] == 9 && b[8] == 203);
    }
}
