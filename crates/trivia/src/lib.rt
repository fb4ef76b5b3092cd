//! The trivia layer: a token reader over any other, without its blanks and comments. It holds four tokens back, so that
//! a peek at distance 3 needs nothing of the reader below. It knows nothing of text.

#![tactic(auto)]

ghost use Rattle.std.specs.Prelude.{◌≡◌, true, false, ◌∷◌};
ghost use Rattle.reader.specs.Sound.{sound};
ghost use Rattle.reader.specs.Tokens.{closed};
ghost use Rattle.trivia.specs.Kept.{without_skips};
ghost use Rattle.trivia.specs.Means.{trivia_tokens};

use reader::{Ahead, TokenReader};
use token::{Kind, Token};

/// The reader below, and the next four tokens that are kept; those held after the end of input mean nothing.
#[derive(Drop)]
pub struct Trivia<R> {
    below: R,
    held: [Token; 4],
    taken: u32,
}

// Takes tokens up to the next one that is kept, which has the line breaks of those before it.
fn next_kept<R: TokenReader>(below: &mut R) -> Token
    ensures { closed (result ∷ without_skips false (R.TokenReader.tokens below.new)) ≡ closed (without_skips false (R.TokenReader.tokens below.old)) }
{
    let mut broken = false;
    loop {
        let t = below.current();
        below.advance();
        if t.kind != Kind::SKIP {
            return Token {
                line_break: broken || t.line_break,
                ..t
            };
        }
        broken |= t.line_break;
    }
}

impl<R: TokenReader> Trivia<R> {
    /// A layer over the reader as it stands. No token has been taken from the layer yet.
    pub fn new(mut below: R) -> Trivia<R>
        ensures tokens { trivia_tokens R.TokenReader.tokens result ≡ closed (without_skips false (R.TokenReader.tokens below)) }
        ensures last { result.taken ≡ 0 }
        ensures sound { sound (R.TokenReader.tokens below) ≡ true → (trivia_tokens R.TokenReader.tokens result ≡ without_skips false (R.TokenReader.tokens below)) × (sound (trivia_tokens R.TokenReader.tokens result) ≡ true) }
    {
        // Not `array::from_fn`: what its closure leaves of `below` is not told (`returns-clause-tokens` stays open).
        let first = next_kept(&mut below);
        let second = next_kept(&mut below);
        let third = next_kept(&mut below);
        let fourth = next_kept(&mut below);
        Trivia {
            below,
            held: [first, second, third, fourth],
            taken: 0,
        }
    }
}

impl<R: TokenReader> TokenReader for Trivia<R> {
    ghost tokens = { trivia_tokens R.TokenReader.tokens };

    ghost last = { λ s. s.taken };

    fn current(&self) -> Token {
        self.held[0]
    }

    fn peek(&self, d: Ahead) -> Token {
        let [now, one, two, three] = self.held;
        match d {
            _ if now.kind == Kind::EOF => now,
            Ahead::One => one,
            _ if one.kind == Kind::EOF => one,
            Ahead::Two => two,
            _ if two.kind == Kind::EOF => two,
            Ahead::Three => three,
        }
    }

    fn last_end(&self) -> u32 {
        self.taken
    }

    fn advance(&mut self) {
        let [now, one, two, three] = self.held;
        if now.kind != Kind::EOF {
            let fourth = next_kept(&mut self.below);
            self.held = [one, two, three, fourth];
            self.taken = now.end;
        }
    }
}
