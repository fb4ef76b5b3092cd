//! What the records answer at a token: the first record that stands there, if it keeps the rules, and else a refusal.

ghost use Rattle.std.specs.Prelude.{◌≡◌, true, is_ok};
ghost use Rattle.reader.specs.Scenes.{past, scene};
ghost use Rattle.reader.specs.Sound.{sound};
ghost use Rattle.prepared.specs.Answers.{are_itemed, is_itemed, keeps_rules, method_in, part_in, refused_at};

use crate::records::{Asked, PartRecord, Told, find};
use crate::taking::take_many;
use parts::{MethodFacts, Part, Span};
use reader::TokenReader;
use token::Token;

// What a part comes to, and how many tokens it takes.
#[derive(Clone, Copy, Debug, PartialEq, Eq)]
pub struct Taken<F> {
    pub result: Result<F, Span>,
    pub count: u32,
}

impl<F> Taken<F> {
    // A refusal at the token, which takes nothing.
    fn refused(t: Token) -> Taken<F>
        ensures result { result.result ≡ (refused_at {F = F} t).result }
        ensures count { result.count ≡ (refused_at {F = F} t).count }
    {
        Taken {
            result: Err(Span::from(t)),
            count: 0,
        }
    }

    // Whether it takes no more tokens than are left, and facts one at least.
    fn keeps_rules(&self, left: usize) -> bool
        ensures { result ≡ keeps_rules (is_ok self.now.result) self.now.count left }
    {
        self.count as usize <= left && (self.result.is_err() || self.count > 0)
    }

    // Takes as many tokens as it says, and tells what it came to.
    pub fn take<R: TokenReader>(self, r: &mut R) -> Result<F, Span>
        ensures value { result ≡ self.result }
        ensures after { scene R.TokenReader r.new ≡ past self.count (scene R.TokenReader r.old) }
        ensures sound { sound (R.TokenReader.tokens r.old) ≡ true → sound (R.TokenReader.tokens r.new) ≡ true }
    {
        take_many(r, self.count);
        self.result
    }
}

fn is_itemed(m: MethodFacts) -> bool
    ensures { result ≡ is_itemed m }
{
    m.count != 1 || m.rest.is_some() || m.first_item.is_some()
}

fn are_itemed(told: Result<MethodFacts, Span>) -> bool
    ensures { result ≡ are_itemed told }
{
    match told {
        Ok(m) => is_itemed(m),
        Err(_) => true,
    }
}

// What the records answer for a part at the token `t`, with `left` tokens from it to the end of input.
// `find` alone says which record stands there, also for an index rest; so the match on it has an arm that never comes.
pub fn part_answer(records: &[PartRecord], part: Part, t: Token, left: usize) -> Taken<Span>
    ensures result { result.result ≡ (part_in records.now part t left).result }
    ensures count { result.count ≡ (part_in records.now part t left).count }
{
    find(records, Asked::Plain(part), t.start)
        .and_then(|r| match r.told {
            Told::Plain { result, .. } => Some(Taken {
                result,
                count: r.count,
            }),
            Told::Method { .. } => None,
        })
        .filter(|told| told.keeps_rules(left))
        .unwrap_or(Taken::refused(t))
}

// What the records answer for a method's rest there.
pub fn method_answer(records: &[PartRecord], t: Token, left: usize) -> Taken<MethodFacts>
    ensures result { result.result ≡ (method_in records.now t left).result }
    ensures count { result.count ≡ (method_in records.now t left).count }
{
    find(records, Asked::Method, t.start)
        .and_then(|r| match r.told {
            Told::Plain { .. } => None,
            Told::Method { result } => Some(Taken {
                result,
                count: r.count,
            }),
        })
        .filter(|told| told.keeps_rules(left) && are_itemed(told.result))
        .unwrap_or(Taken::refused(t))
}
