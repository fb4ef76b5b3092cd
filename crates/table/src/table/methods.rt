ghost use Rattle.std.specs.Prelude.{◌≡◌, true, drop};
ghost use Rattle.reader.specs.Sound.{sound};
ghost use Rattle.reader.specs.Tokens.{closed, head, next};
ghost use Rattle.table.specs.Means.{table_last, table_tokens};
ghost use Rattle.refusal.specs.Questions.{first_no, number_of};
ghost use Rattle.table.specs.Tables.{table_meaning, table_questions};

use super::Table;
use crate::questions::check;
use reader::{Ahead, TokenReader};
use refusal::Opened;
use token::{Kind, Token};

impl<'a> Table<'a> {
    pub fn new(tokens: &'a [Token]) -> Opened<Table<'a>>
        ensures refused { number_of result.refused ≡ first_no (table_questions tokens.now) }
        ensures tokens { table_tokens result.reader ≡ table_meaning tokens.now }
        ensures last { table_last result.reader ≡ 0 }
        ensures sound { sound (table_tokens result.reader) ≡ true }
    {
        let refused = check(tokens).err();
        let at = if refused.is_some() { tokens.len() } else { 0 };
        let reader = Table {
            tokens,
            at,
            taken: 0,
        };
        Opened { reader, refused }
    }

    // The token at `i`, or the end of input past the table.
    fn token_at(&self, i: usize) -> Token
        ensures { result ≡ head (closed (drop i self.now.tokens.now)) }
    {
        self.tokens.get(i).copied().unwrap_or(Token::EOF_AT_0)
    }

    // The place after `i`, unless the end of input stands there.
    fn step_from(&self, i: usize) -> usize
        ensures { closed (drop result self.now.tokens.now) ≡ next (closed (drop i self.now.tokens.now)) }
    {
        match self.tokens.get(i) {
            Some(t) if t.kind != Kind::EOF => i + 1,
            _ => i,
        }
    }
}

impl TokenReader for Table<'_> {
    ghost tokens = { table_tokens };

    ghost last = { table_last };

    fn current(&self) -> Token {
        self.token_at(self.at)
    }

    fn peek(&self, d: Ahead) -> Token {
        let one = self.step_from(self.at);
        let place = match d {
            Ahead::One => one,
            Ahead::Two => self.step_from(one),
            Ahead::Three => self.step_from(self.step_from(one)),
        };
        self.token_at(place)
    }

    fn last_end(&self) -> u32 {
        self.taken
    }

    fn advance(&mut self) {
        // As over text and brackets: three lines, each over a field of its own.
        let t = self.current();
        self.at = self.step_from(self.at);
        if t.kind != Kind::EOF {
            self.taken = t.end;
        }
    }
}
