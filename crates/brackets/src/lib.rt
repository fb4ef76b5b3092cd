//! The bracket reader: a script reader over any token reader that tells by brackets alone where the parts of a member
//! end. It stands in for a parser of expressions, types and statements, and may not know one: it sees kinds, places and
//! line breaks of tokens, and neither text nor context.

#![tactic(auto)]

ghost use Rattle.std.specs.Prelude.{◌≡◌, true};
ghost use Rattle.reader.specs.Sound.{sound};
ghost use Rattle.brackets.specs.Format.{bracket_answers};

mod groups;
mod members;
mod parameters;
mod steps;

use kinds::context::Context;
use parts::{MethodFacts, Part, Span};
use reader::{Ahead, TokenReader};
use script::ScriptReader;
use token::{Kind, Token};

/// The reader below, and the end of the last token taken from this one.
#[derive(Drop)]
pub struct Brackets<R> {
    below: R,
    taken: u32,
}

impl<R: TokenReader> Brackets<R> {
    /// A bracket reader over the reader as it stands. No token has been taken from it yet.
    pub fn new(below: R) -> Brackets<R>
        ensures tokens { R.TokenReader.tokens result.below ≡ R.TokenReader.tokens below }
        ensures last { result.taken ≡ 0 }
        ensures sound { sound (R.TokenReader.tokens below) ≡ true → sound (R.TokenReader.tokens result.below) ≡ true }
    {
        Brackets { below, taken: 0 }
    }
}

impl<R: TokenReader> TokenReader for Brackets<R> {
    ghost tokens = { λ s. R.TokenReader.tokens s.below };

    ghost last = { λ s. s.taken };

    ghost answers = { λ _. bracket_answers };

    fn current(&self) -> Token {
        self.below.current()
    }

    fn peek(&self, d: Ahead) -> Token {
        self.below.peek(d)
    }

    fn last_end(&self) -> u32 {
        self.taken
    }

    fn advance(&mut self) {
        let t = self.below.current();
        if t.kind != Kind::EOF {
            self.taken = t.end;
        }
        self.below.advance();
    }
}

impl<R: TokenReader> ScriptReader for Brackets<R> {
    // The parts are named by an enum in the interface, whose answers are said part by part; so no closure stands for one.
    fn take_part(&mut self, part: Part, context: Context) -> Result<Span, Span> {
        match part {
            Part::Decorator => members::decorator(self),
            Part::Expression => groups::expression(self),
            Part::TypeAnnotation => members::annotation(self),
            Part::Block => groups::group(self, Kind::LCURLY),
            Part::IndexRest => members::index(self),
        }
    }

    fn take_method(&mut self, context: Context) -> Result<MethodFacts, Span> {
        members::method(self)
    }

    fn starts_index(&self, context: Context) -> bool {
        members::starts_index(self)
    }
}
