//! Dialogues with a script reader: the words in which a member's contract is written. This crate has the type of a
//! fatal rule and no code of its own but that.

#![tactic(auto)]

ghost use Rattle.std.specs.Prelude.{◌≡◌};
ghost use Rattle.dialogue.specs.Fatal.{as_rule, fatal_number};

use rules::Rule;

/// A rule that ends the member and faults the session.
#[derive(Clone, Copy, Debug, PartialEq, Eq)]
pub enum Fatal {
    ExpectToken,
    AutoSemicolonInsertion,
    Unexpected,
    TooManyDecorators,
}

impl From<Fatal> for Rule {
    ghost from_gives = { λ f r. r ≡ as_rule f };

    fn from(fatal: Fatal) -> Rule {
        match fatal {
            Fatal::ExpectToken => Rule::ExpectToken,
            Fatal::AutoSemicolonInsertion => Rule::AutoSemicolonInsertion,
            Fatal::Unexpected => Rule::Unexpected,
            Fatal::TooManyDecorators => Rule::TooManyDecorators,
        }
    }
}

impl Fatal {
    pub fn number(self) -> u8
        ensures { result ≡ fatal_number self }
    {
        Rule::from(self).number()
    }
}
