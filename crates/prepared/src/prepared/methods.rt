ghost use Rattle.std.specs.Prelude.{◌≡◌, true};
ghost use Rattle.prepared.specs.Answers.{prepared_answers};
ghost use Rattle.prepared.specs.Means.{script_answers, script_last, script_tokens};
ghost use Rattle.reader.specs.Sound.{sound};
ghost use Rattle.refusal.specs.Questions.{first_no, number_of};
ghost use Rattle.table.specs.Tables.{table_meaning, table_questions};

use super::Prepared;
use crate::answering::{method_answer, part_answer};
use crate::records::{Asked, PartRecord, find};
use kinds::context::Context;
use parts::{MethodFacts, Part, Span};
use reader::{Ahead, TokenReader};
use refusal::Opened;
use script::ScriptReader;
use table::table::Table;
use token::Token;

impl<'a> Prepared<'a> {
    /// Asks the table's questions of the tokens. The records are asked nothing: each is judged where it is met.
    pub fn new(tokens: &'a [Token], records: &'a [PartRecord]) -> Opened<Prepared<'a>>
        ensures refused { number_of result.refused ≡ first_no (table_questions tokens.now) }
        ensures tokens { script_tokens result.reader ≡ table_meaning tokens.now }
        ensures last { script_last result.reader ≡ 0 }
        ensures answers { script_answers result.reader ≡ prepared_answers records.now }
        ensures sound { sound (script_tokens result.reader) ≡ true }
    {
        let opened = Table::new(tokens);
        let left = if opened.refused.is_some() {
            0
        } else {
            tokens.len() - 1
        };
        let reader = Prepared {
            reader: opened.reader,
            left,
            records,
        };
        Opened {
            reader,
            refused: opened.refused,
        }
    }
}

impl TokenReader for Prepared<'_> {
    ghost tokens = { script_tokens };

    ghost last = { script_last };

    ghost answers = { script_answers };

    fn current(&self) -> Token {
        self.reader.current()
    }

    fn peek(&self, d: Ahead) -> Token {
        self.reader.peek(d)
    }

    fn last_end(&self) -> u32 {
        self.reader.last_end()
    }

    fn advance(&mut self) {
        self.reader.advance();
        self.left = self.left.saturating_sub(1);
    }
}

impl ScriptReader for Prepared<'_> {
    fn take_part(&mut self, part: Part, _context: Context) -> Result<Span, Span> {
        let answer = part_answer(self.records, part, self.reader.current(), self.left);
        answer.take(self)
    }

    fn take_method(&mut self, _context: Context) -> Result<MethodFacts, Span> {
        let answer = method_answer(self.records, self.reader.current(), self.left);
        answer.take(self)
    }

    fn starts_index(&self, _context: Context) -> bool {
        let t = self.reader.current();
        find(self.records, Asked::Plain(Part::IndexRest), t.start).is_some()
    }
}
