//! Tests of keyword lists, order reports and checks.

#![tactic(auto)]

use checks::class_check::ClassCheck;
use checks::class_checks::run_check;
use keywords::{ListSettings, parse_modifiers};
use kinds::ModifierKind;
use list::list::List;
use modifiers::Modifiers;
use reader::TokenReader;
use reports::Report;
use small_set::SmallKind;
use text::Text;
use trivia::Trivia;

// As in a member: `const` is allowed, and `static {` ends the list.
const MEMBER: ListSettings = ListSettings {
    const_allowed: true,
    static_block_ends: true,
};

fn report(rule: u8, start: u32, end: u32, kind: u8, other: u8, allowed: u16) -> Report {
    Report {
        rule,
        start,
        end,
        kind,
        other,
        allowed,
    }
}

fn holds(list: &mut List<'_, Report>, wanted: &[Report]) -> bool {
    list.as_slice() == wanted && list.missed() == 0
}

// The order reports of the keywords at the front of a text.
fn orders(text: &[u8], wanted: &[Report]) -> bool {
    let mut room = [blanks::report(); 8];
    let mut list = List::new(&mut room);
    let mut script = Trivia::new(Text::new(text).reader);
    let _kept = parse_modifiers(&mut script, MEMBER, &mut list);
    holds(&mut list, wanted)
}

// The kept keywords, by number and last start, and where the reader stands afterwards.
fn keeps(text: &[u8], settings: ListSettings, wanted: &[(u8, u32)], then: u32) -> bool {
    let mut room = [blanks::report(); 8];
    let mut list = List::new(&mut room);
    let mut script = Trivia::new(Text::new(text).reader);
    let kept = parse_modifiers(&mut script, settings, &mut list);
    let told = kept.iter().map(|m| (m.kind.number(), m.place.start));
    told.eq(wanted.iter().copied()) && script.current().start == then
}

// What a check says of the keywords at the front of a text.
fn checked(text: &[u8], check: ClassCheck, wanted: &[Report]) -> bool {
    let mut orders_room = [blanks::report(); 8];
    let mut orders = List::new(&mut orders_room);
    let mut script = Trivia::new(Text::new(text).reader);
    let kept = parse_modifiers(&mut script, MEMBER, &mut orders);
    let mut room = [blanks::report(); 8];
    let mut list = List::new(&mut room);
    run_check(check, kept, &mut list);
    holds(&mut list, wanted)
}

#[cfg(test)]
mod tests {
    use super::*;

    #[test]
    fn kept_keywords(rt: HostRuntime) {
        assert!(rt; keeps(b"x", MEMBER, &[], 0));
        assert!(rt; keeps(b"static {", MEMBER, &[], 0));
        assert!(rt; keeps(b"readonly\nx", MEMBER, &[], 0));
        assert!(rt; keeps(b"static\nx", MEMBER, &[(4, 0)], 7));
        assert!(rt; keeps(b"static static x", MEMBER, &[(4, 0)], 7));
        assert!(rt;
            keeps(
                b"readonly declare readonly x",
                MEMBER,
                &[(0, 9), (5, 17)],
                26,
            )
        );
        assert!(rt; keeps(b"readonly /* a */ async #x", MEMBER, &[(5, 0), (8, 17)], 23));
        assert!(rt; keeps(b"readonly", MEMBER, &[], 0));
        assert!(rt; keeps(b"readonly;", MEMBER, &[], 0));
    }

    #[test]
    fn settings(rt: HostRuntime) {
        let plain = ListSettings {
            const_allowed: false,
            static_block_ends: false,
        };
        assert!(rt; keeps(b"const x", MEMBER, &[(9, 0)], 6));
        assert!(rt; keeps(b"export const x", plain, &[(14, 0)], 7));
        assert!(rt; keeps(b"static {", plain, &[(4, 0)], 7));
        assert!(rt; keeps(b"const\nx", MEMBER, &[], 0));
    }

    #[test]
    fn order_reports(rt: HostRuntime) {
        assert!(rt;
            orders(
                b"readonly static abstract x",
                &[
                    report(5, 9, 15, 4, 5, 65535),
                    report(3, 16, 24, 6, 4, 65535),
                ],
            )
        );
        assert!(rt;
            orders(
                b"readonly abstract private x",
                &[report(5, 18, 25, 1, 5, 65535)],
            )
        );
        assert!(rt;
            orders(
                b"readonly declare readonly x",
                &[report(2, 17, 25, 5, 255, 65535)],
            )
        );
        assert!(rt; orders(b"override declare x", &[report(4, 9, 16, 0, 7, 65535)]));
        assert!(rt; orders(b"declare override x", &[report(3, 8, 16, 7, 0, 65535)]));
        assert!(rt; orders(b"static static x", &[]));
        assert!(rt; orders(b"public private x", &[report(1, 7, 14, 1, 255, 65535)]));
    }

    #[test]
    fn checks_of_members(rt: HostRuntime) {
        assert!(rt;
            checked(
                b"default export x",
                ClassCheck::Element,
                &[
                    report(6, 0, 7, 12, 255, 65535),
                    report(6, 8, 14, 14, 255, 65535),
                ],
            )
        );
        assert!(rt;
            checked(
                b"readonly x",
                ClassCheck::Accessor,
                &[report(17, 0, 8, 5, 255, 65535)],
            )
        );
        assert!(rt;
            checked(
                b"async declare accessor x",
                ClassCheck::Accessor,
                &[
                    report(15, 0, 5, 8, 255, 65535),
                    report(15, 6, 13, 0, 255, 65535),
                    report(14, 14, 22, 13, 255, 65535),
                ],
            )
        );
        assert!(rt;
            checked(
                b"async x",
                ClassCheck::IndexSignature,
                &[report(9, 0, 5, 8, 255, 48)],
            )
        );
        assert!(rt;
            checked(
                b"readonly accessor readonly x",
                ClassCheck::AccessorProperty,
                &[report(13, 18, 26, 5, 255, 8414)],
            )
        );
        assert!(rt;
            checked(
                b"declare readonly x",
                ClassCheck::Method,
                &[report(6, 0, 7, 0, 255, 478), report(17, 8, 16, 5, 255, 478)],
            )
        );
        assert!(rt;
            checked(
                b"const in out x",
                ClassCheck::ConstInOut,
                &[
                    report(10, 0, 5, 9, 255, 65535),
                    report(11, 6, 8, 10, 255, 65535),
                    report(11, 9, 12, 11, 255, 65535),
                ],
            )
        );
        assert!(rt; checked(b"static async x", ClassCheck::JavaScript, &[]));
    }
}
