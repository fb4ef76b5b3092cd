//! Opening a text, and reading it.

ghost use Rattle.std.specs.Prelude.{◌≡◌, true};
ghost use Rattle.reader.specs.Sound.{sound};
ghost use Rattle.refusal.specs.Questions.{first_no, number_of};
ghost use Rattle.text.specs.Lexed.{text_meaning, text_questions};
ghost use Rattle.text.specs.Means.{text_last, text_tokens};

use crate::Text;
use crate::source::Source;
use reader::{Ahead, TokenReader};
use refusal::Opened;
use token::{Kind, Token};

impl<'a> Text<'a> {
    /// A reader at the first token of the text.
    pub fn new(text: &'a [u8]) -> Opened<Text<'a>>
        ensures refused { number_of result.refused ≡ first_no (text_questions text.now) }
        ensures tokens { text_tokens result.reader ≡ text_meaning text.now }
        ensures last { text_last result.reader ≡ 0 }
        ensures sound { sound (text_tokens result.reader) ≡ true }
    {
        match Source::try_from(text) {
            Ok(source) => Opened {
                reader: Text {
                    source,
                    current: source.token_at(0),
                    last: 0,
                },
                refused: None,
            },
            Err(refusal) => Opened {
                reader: Text {
                    source: Source::EMPTY,
                    current: Token::EOF_AT_0,
                    last: 0,
                },
                refused: Some(refusal),
            },
        }
    }
}

impl TokenReader for Text<'_> {
    ghost tokens = { text_tokens };

    ghost last = { text_last };

    fn current(&self) -> Token {
        self.current
    }

    fn peek(&self, d: Ahead) -> Token {
        let one = self.source.after(self.current);
        match d {
            Ahead::One => one,
            Ahead::Two => self.source.after(one),
            Ahead::Three => self.source.after(self.source.after(one)),
        }
    }

    fn last_end(&self) -> u32 {
        self.last
    }

    fn advance(&mut self) {
        let t = self.current;
        self.current = self.source.after(t);
        if t.kind != Kind::EOF {
            self.last = t.end;
        }
    }
}
