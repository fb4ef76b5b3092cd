//! What the checks come to, said without running one.

ghost use Rattle.checks.specs.Laws.{ChecksStand, NoFiller, SetsStand};
ghost use Rattle.std.specs.Prelude.{◌≡◌};

const STANDS: u8 = 0;

/// What holds of every check, and of the checks of class members by name.
// The laws stand in the contract of a call. It answers a number and not `()`, since its must-fail edit changes that
// number, which shows that the contract is checked.
pub fn checks_stand() -> u8
    ensures stands { result ≡ 0 }
    ensures once { ChecksStand }
    ensures named { NoFiller }
    ensures sets { SetsStand }
{
    STANDS
}
