//! What holds of the tokens of every text, as a theorem on a call.

ghost use Rattle.std.specs.Prelude.{◌≡◌};
ghost use Rattle.text.specs.Lexed.{CutLaw, EndLaw, SizeLaw};

/// The laws that settle the tokens of every text: the first one and then those of the rest, up to Eof.
// A theorem stands on a call, and this number is all that an edit can make wrong there.
pub fn format_stands() -> u8
    ensures value { result ≡ 0 }
    ensures cut { CutLaw }
    ensures end { EndLaw }
    ensures size { SizeLaw }
{
    0
}
