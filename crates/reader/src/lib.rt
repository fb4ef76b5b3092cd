//! The token reader: an interface by its meaning. A reader means the tokens from the current one to the end of input
//! and the end of the last token taken; a reader of scripts also means an answer for each part. This crate knows
//! neither where the tokens come from nor what is made of them.

#![tactic(auto)]

ghost use Rattle.std.specs.Prelude.{◌≡◌, ℕ, true, List};
ghost use Rattle.reader.specs.Answers.{Answers, no_answers};
ghost use Rattle.reader.specs.Sound.{sound};
ghost use Rattle.reader.specs.Tokens.{ahead, distance, ended, head, last_end, next};
ghost use Rattle.token.specs.declared.Token.{Token};

use token::Token;

/// How far a peek looks past the current token.
#[derive(Clone, Copy, Debug, PartialEq, Eq)]
pub enum Ahead {
    One,
    Two,
    Three,
}

pub trait TokenReader {
    /// The tokens from the current one to the end of input. Whoever makes a reader ensures that they are sound (they
    /// pass questions 2 to 4), and `advance` keeps that.
    ghost tokens: { Self → List Token };

    /// The end of the last token taken, 0 at first.
    ghost last: { Self → ℕ };

    /// What each part answers. A reader of tokens alone has none.
    ghost answers: { Self → Answers } = { λ _. no_answers };

    fn current(&self) -> Token
        ensures value { result ≡ head (tokens self.now) }
        ensures ends { ended (tokens self.now) ≡ true };

    /// The token at a distance, the end of input beyond the last one.
    fn peek(&self, d: Ahead) -> Token
        ensures value { result ≡ head (ahead (distance d) (tokens self.now)) };

    fn last_end(&self) -> u32
        ensures value { result ≡ last self.now };

    /// Takes the current token. At the end of input nothing changes.
    fn advance(&mut self)
        ensures tokens { tokens self.new ≡ next (tokens self.old) }
        ensures last { last self.new ≡ last_end (tokens self.old) (last self.old) }
        ensures answers { answers self.new ≡ answers self.old }
        ensures sound { sound (tokens self.old) ≡ true → sound (tokens self.new) ≡ true };
}
