//! Tokens taken one after another, over any reader.

ghost use Rattle.std.specs.Prelude.{◌≡◌, true};
ghost use Rattle.reader.specs.Scenes.{past, scene};
ghost use Rattle.reader.specs.Sound.{sound};

use reader::TokenReader;

// Takes `count` tokens.
pub fn take_many<R: TokenReader>(r: &mut R, count: u32)
    ensures after { scene R.TokenReader r.new ≡ past count (scene R.TokenReader r.old) }
    ensures sound { sound (R.TokenReader.tokens r.old) ≡ true → sound (R.TokenReader.tokens r.new) ≡ true }
{
    for _ in 0..count {
        r.advance();
    }
}
