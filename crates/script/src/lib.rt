//! The script reader: a token reader that also takes whole parts of a member. Who tells where a decorator, an
//! expression, a type, a method's rest, a block or an index signature ends is whoever implements it.

#![tactic(auto)]

ghost use Rattle.std.specs.Prelude.{◌≡◌, true};
ghost use Rattle.reader.specs.Scenes.{past, scene};
ghost use Rattle.reader.specs.Sound.{sound};
ghost use Rattle.script.specs.Asking.{index_at, method_at, part_at};
ghost use Rattle.script.specs.Lawful.{Lawful};

use kinds::context::Context;
use parts::{MethodFacts, Part, Span};
use reader::TokenReader;

pub trait ScriptReader: TokenReader {
    /// Takes a part in a context: its span, or the place of its refusal, which may have taken tokens too.
    fn take_part(&mut self, part: Part, context: Context) -> Result<Span, Span>
        ensures value { result ≡ (part_at part context.bits (scene Self.TokenReader self.old)).result }
        ensures after { scene Self.TokenReader self.new ≡ past (part_at part context.bits (scene Self.TokenReader self.old)).count (scene Self.TokenReader self.old) }
        ensures sound { sound (Self.TokenReader.tokens self.old) ≡ true → sound (Self.TokenReader.tokens self.new) ≡ true }
        ensures lawful { Lawful (Self.TokenReader.answers self.old) };

    // Not one question with the one above over the type of the facts: which plain part is asked for is a value, and a
    // method's rest alone has facts.
    /// Takes all that stands after the name of a method, getter, setter or constructor.
    fn take_method(&mut self, context: Context) -> Result<MethodFacts, Span>
        ensures value { result ≡ (method_at context.bits (scene Self.TokenReader self.old)).result }
        ensures after { scene Self.TokenReader self.new ≡ past (method_at context.bits (scene Self.TokenReader self.old)).count (scene Self.TokenReader self.old) }
        ensures sound { sound (Self.TokenReader.tokens self.old) ≡ true → sound (Self.TokenReader.tokens self.new) ≡ true }
        ensures lawful { Lawful (Self.TokenReader.answers self.old) };

    /// Whether an index signature starts at the current token. Nothing is taken.
    fn starts_index(&self, context: Context) -> bool
        ensures value { result ≡ index_at context.bits (scene Self.TokenReader self.now) };
}
