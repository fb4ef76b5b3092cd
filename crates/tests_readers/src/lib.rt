//! Tests of the token readers and of the list at their limits.

#![tactic(auto)]

use list::list::List;
use reader::{Ahead, TokenReader};
use refusal::Refusal;
use table::table::Table;
use text::Text;
use token::{Kind, Token};
use trivia::Trivia;

fn broken(t: Token) -> Token {
    Token {
        line_break: true,
        ..t
    }
}

fn named(t: Token, name: u8) -> Token {
    Token { name, ..t }
}

// Whether the reader gives these tokens, and keeps the end of the last one taken.
fn reads<R: TokenReader>(reader: &mut R, wanted: &[Token]) -> bool {
    for w in wanted {
        if reader.current() != *w {
            return false;
        }
        reader.advance();
        if w.kind != Kind::EOF && reader.last_end() != w.end {
            return false;
        }
    }
    true
}

fn text_gives(text: &[u8], wanted: &[Token]) -> bool {
    let opened = Text::new(text);
    let mut reader = opened.reader;
    opened.refused.is_none() && reads(&mut reader, wanted)
}

fn kept_gives(text: &[u8], wanted: &[Token]) -> bool {
    let mut reader = Trivia::new(Text::new(text).reader);
    reads(&mut reader, wanted)
}

// A token by its kind's code.
fn token(code: u8, start: u32, end: u32) -> Token {
    blanks::token(Kind { code }, start, end)
}

// The number by which something is refused, or 0.
fn number(refused: Option<Refusal>) -> u8 {
    refused.map_or(0, Refusal::number)
}

fn table_refusal(tokens: &[Token]) -> u8 {
    number(Table::new(tokens).refused)
}

fn text_refusal(text: &[u8]) -> u8 {
    number(Text::new(text).refused)
}

#[cfg(test)]
mod tests {
    use super::*;
    use std::test::Fail;

    #[test]
    fn words_and_numbers(rt: HostRuntime) {
        assert!(rt; text_gives(b"", &[token(0, 0, 0), token(0, 0, 0)]));
        assert!(rt; text_gives(b"12ab", &[token(149, 0, 2), token(4, 2, 4), token(0, 4, 4)]));
        assert!(rt; text_gives(b"#a1#", &[token(166, 0, 3), token(1, 3, 4), token(0, 4, 4)]));
        assert!(rt;
            text_gives(
                b"# #1",
                &[
                    token(1, 0, 1),
                    token(2, 1, 2),
                    token(1, 2, 3),
                    token(149, 3, 4),
                ],
            )
        );
        assert!(rt; text_gives(b"constructor", &[named(token(55, 0, 11), 1)]));
        assert!(rt;
            text_gives(
                b"#prototype'constructor'",
                &[named(token(166, 0, 10), 2), named(token(160, 10, 23), 1)],
            )
        );
        assert!(rt;
            text_gives(
                b"readonlyX readonly",
                &[token(4, 0, 9), token(2, 9, 10), token(65, 10, 18)],
            )
        );
    }

    #[test]
    fn strings_and_dots(rt: HostRuntime) {
        assert!(rt; text_gives(b"'a\"b';", &[token(160, 0, 5), token(134, 5, 6)]));
        assert!(rt; text_gives(b"'a\\b' ;", &[token(1, 0, 7), token(0, 7, 7)]));
        assert!(rt; text_gives(b"\"a\n\";", &[token(1, 0, 5), token(0, 5, 5)]));
        assert!(rt; text_gives(b"'abc", &[token(1, 0, 4), token(0, 4, 4)]));
        assert!(rt; text_gives(b"....", &[token(102, 0, 3), token(1, 3, 4), token(0, 4, 4)]));
        assert!(rt; text_gives(b"..", &[token(1, 0, 1), token(1, 1, 2), token(0, 2, 2)]));
    }

    #[test]
    fn comments_and_blanks(rt: HostRuntime) {
        assert!(rt; text_gives(b"/a", &[token(1, 0, 1), token(4, 1, 2)]));
        assert!(rt; text_gives(b"/*/", &[token(1, 0, 3), token(0, 3, 3)]));
        assert!(rt; text_gives(b"/**/a", &[token(2, 0, 4), token(4, 4, 5)]));
        assert!(rt; text_gives(b"/*\r*/", &[broken(token(2, 0, 5)), token(0, 5, 5)]));
        assert!(rt;
            text_gives(
                b"//a\r\nb",
                &[token(2, 0, 3), broken(token(2, 3, 5)), token(4, 5, 6)],
            )
        );
        assert!(rt; text_gives(b" \t", &[token(2, 0, 2), token(0, 2, 2)]));
        assert!(rt; text_gives(b"a/* b", &[token(4, 0, 1), token(1, 1, 5), token(0, 5, 5)]));
    }

    #[test]
    fn trivia_is_left_out(rt: HostRuntime) {
        assert!(rt;
            kept_gives(
                b" a /*\n*/ b",
                &[token(4, 1, 2), broken(token(4, 9, 10)), token(0, 10, 10)],
            )
        );
        assert!(rt;
            kept_gives(
                b"a\n/**/b c",
                &[token(4, 0, 1), broken(token(4, 6, 7)), token(4, 8, 9)],
            )
        );
        assert!(rt;
            kept_gives(
                b"a\n",
                &[
                    token(4, 0, 1),
                    broken(token(0, 2, 2)),
                    broken(token(0, 2, 2)),
                ],
            )
        );
        assert!(rt; kept_gives(b"", &[token(0, 0, 0)]));
    }

    #[test]
    fn peeks_stop_at_eof(rt: HostRuntime) {
        let mut r = Trivia::new(Text::new(b"a ; b").reader);
        assert_eq!(rt; r.peek(Ahead::One), token(134, 2, 3));
        assert_eq!(rt; r.peek(Ahead::Two), token(4, 4, 5));
        assert_eq!(rt; r.peek(Ahead::Three), token(0, 5, 5));
        r.advance();
        r.advance();
        assert_eq!(rt; r.peek(Ahead::One), token(0, 5, 5));
        assert_eq!(rt; r.peek(Ahead::Three), token(0, 5, 5));
        r.advance();
        r.advance();
        assert_eq!(rt; r.last_end(), 5);
        let tokens = [token(4, 0, 1), token(0, 9, 9)];
        let t = Table::new(&tokens).reader;
        assert_eq!(rt; t.peek(Ahead::Two), token(0, 9, 9));
    }

    #[test]
    fn questions_of_a_table(rt: HostRuntime) {
        assert_eq!(rt; table_refusal(&[]), 1);
        assert_eq!(rt; table_refusal(&[token(0, 7, 7)]), 0);
        assert_eq!(rt; table_refusal(&[token(169, 0, 1), token(0, 1, 1)]), 2);
        assert_eq!(rt;
            table_refusal(&[named(token(4, 0, 1), 3), token(0, 1, 1)]),
            2
        );
        assert_eq!(rt;
            table_refusal(&[named(token(134, 0, 1), 1), token(0, 1, 1)]),
            2
        );
        assert_eq!(rt;
            table_refusal(&[named(token(160, 0, 1), 1), token(0, 1, 1)]),
            0
        );
        assert_eq!(rt; table_refusal(&[token(4, 0, 1)]), 3);
        assert_eq!(rt; table_refusal(&[token(0, 0, 0), token(0, 1, 1)]), 3);
        assert_eq!(rt; table_refusal(&[token(0, 0, 0), token(169, 1, 1)]), 2);
    }

    #[test]
    fn places_of_a_table(rt: HostRuntime) {
        assert_eq!(rt; table_refusal(&[token(4, 1, 1), token(0, 1, 1)]), 4);
        assert_eq!(rt; table_refusal(&[token(4, 0, 2), token(0, 1, 1)]), 4);
        assert_eq!(rt; table_refusal(&[token(4, 0, 1), token(0, 1, 2)]), 4);
        assert_eq!(rt; table_refusal(&[token(87, 0, 5), token(0, 9, 9)]), 4);
        assert_eq!(rt; table_refusal(&[token(87, 0, 6), token(0, 9, 9)]), 0);
        assert_eq!(rt;
            table_refusal(&[token(4, 1, 1), token(0, 0, 0), token(4, 2, 3)]),
            3
        );
        let bad = [token(4, 1, 1), token(0, 1, 1)];
        let mut refused = Table::new(&bad).reader;
        assert!(rt; reads(&mut refused, &[token(0, 0, 0), token(0, 0, 0)]));
    }

    #[test]
    fn counts_of_tokens(rt: HostRuntime) -> Result<(), Fail> {
        let mut tokens = Vec::new(rt.alloc());
        for i in 0..65_535u32 {
            tokens.push(token(4, i, i + 1))?;
        }
        tokens.push(token(0, 65_535, 65_535))?;
        assert_eq!(rt; table_refusal(tokens.as_slice()), 0);
        tokens.push(token(0, 65_535, 65_535))?;
        assert_eq!(rt; table_refusal(tokens.as_slice()), 1);
        Ok(())
    }

    #[test]
    fn counts_of_bytes(rt: HostRuntime) -> Result<(), Fail> {
        let mut text = vec![in rt.alloc(); b';'; 65_536]?;
        assert_eq!(rt; text_refusal(text.as_slice()), 0);
        text.push(200)?;
        assert_eq!(rt; text_refusal(text.as_slice()), 5);
        assert_eq!(rt; text_refusal(b"a\x80"), 6);
        let mut refused = Text::new(b"a\x80").reader;
        assert!(rt; reads(&mut refused, &[token(0, 0, 0)]));
        Ok(())
    }

    #[test]
    fn lists_without_places(rt: HostRuntime) {
        let mut none = [0u8; 0];
        let mut list = List::new(&mut none);
        assert!(rt; !list.push(1) && !list.push(2));
        assert!(rt;
            list.len() == 0 && list.room() == 0 && list.missed() == 2 && list.get(0).is_none()
        );
        let mut two = [7u8, 8];
        let mut list = List::new(&mut two);
        assert!(rt; list.push(1));
        assert!(rt; list.len() == 1 && list.get(0) == Some(1) && list.get(1).is_none());
    }

    #[test]
    fn missed_stops_counting(rt: HostRuntime) {
        let mut none = [0u8; 0];
        let mut list = List::new(&mut none);
        for _ in 0..65_537u32 {
            list.push(1);
        }
        assert_eq!(rt; list.missed(), 65_535);
    }
}
