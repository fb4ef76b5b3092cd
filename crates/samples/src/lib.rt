//! Keyword lists written out, each with the keywords that it keeps and the reports that their order earns.
//! This crate has no part in reading a list: it pins what the definitions say of short texts.

#![tactic(auto)]

ghost use Rattle.samples.specs.Samples.{SamplesStand};
ghost use Rattle.std.specs.Prelude.{◌≡◌};

const STANDS: u8 = 0;

/// What the definitions say of each of the texts.
// It is said in the contract of a call. It answers a number and not `()`, since its must-fail edit changes that number,
// which shows that the contract is checked.
pub fn samples_stand() -> u8
    ensures stands { result ≡ 0 }
    ensures samples { SamplesStand }
{
    STANDS
}
