ghost use Rattle.std.specs.Prelude.{◌≡◌, ℕ, ◌^◌, ◌<◌, ◌≤◌, false, not, ◌&&◌, ◌||◌, MatchOption, ◌==◌, nat_lt};
ghost use Rattle.kinds.specs.Flags.{flag_number};
ghost use Rattle.small_set.specs.Members.{member};
ghost use Rattle.std.proofs.Common.{rules};

use small_set::SmallKind;

/// A flag of the context that code stands in.
#[derive(Clone, Copy, Debug, PartialEq, Eq)]
pub enum ContextFlag {
    In = 0,
    Yield,
    Await,
    Return,
    Decorator,
    DisallowConditionalTypes,
    Ambient,
    TopLevel,
    NewTarget,
}

// In the order of their numbers.
const FLAGS: [ContextFlag; 9] = [
    ContextFlag::In,
    ContextFlag::Yield,
    ContextFlag::Await,
    ContextFlag::Return,
    ContextFlag::Decorator,
    ContextFlag::DisallowConditionalTypes,
    ContextFlag::Ambient,
    ContextFlag::TopLevel,
    ContextFlag::NewTarget,
];

impl SmallKind for ContextFlag {
    ghost numbered = { flag_number };

    ghost size = { 9 };

    const COUNT: u8 = 9;

    ghost few = { Prim.search rules };

    ghost below = { Prim.search rules };

    ghost apart = { Prim.search rules };

    fn how_many() -> u8 {
        Self::COUNT
    }

    fn number(self) -> u8 {
        self as u8
    }

    fn from_number(n: u8) -> Option<ContextFlag> {
        FLAGS.get(n as usize).copied()
    }
}

// A type of its own beside the set of modifiers, so that neither takes the other's kinds.
/// The flags that are set where some code stands.
#[derive(Clone, Copy, Debug, PartialEq, Eq)]
pub struct Context {
    bits: u16,
    ghost ok: { bits < 2 ^ 9 },
}

impl Context {
    /// The set without members.
    pub fn none() -> Self
        ensures { (j : ℕ) → member result.bits j ≡ false }
    {
        Context {
            bits: small_set::none(),
        }
    }

    /// The set with these bits, unless one of them stands for no kind.
    pub fn from_bits(bits: u16) -> Option<Self>
        ensures { MatchOption result (2 ^ 9 ≤ bits) (λ s. s.bits ≡ bits) }
    {
        if small_set::truncate::<ContextFlag>(bits) == bits {
            Some(Context { bits })
        } else {
            None
        }
    }

    /// The set with those of these bits that stand for a kind.
    pub fn from_bits_truncate(bits: u16) -> Self
        ensures { (j : ℕ) → member result.bits j ≡ (member bits j && nat_lt j 9) }
    {
        Context {
            bits: small_set::truncate::<ContextFlag>(bits),
        }
    }

    /// The set as plain bits.
    pub fn bits(self) -> u16
        ensures { result ≡ self.bits }
    {
        self.bits
    }

    /// Whether `k` is in the set.
    pub fn contains(self, k: ContextFlag) -> bool
        ensures { result ≡ member self.bits (flag_number k) }
    {
        small_set::contains(self.bits, k)
    }

    /// The set with `k` put in.
    pub fn with(self, k: ContextFlag) -> Self
        ensures { (j : ℕ) → member result.bits j ≡ (flag_number k == j || member self.bits j) }
    {
        Context {
            bits: small_set::with(self.bits, k),
        }
    }

    /// The set with `k` taken out.
    pub fn without(self, k: ContextFlag) -> Self
        ensures { (j : ℕ) → member result.bits j ≡ (member self.bits j && not (flag_number k == j)) }
    {
        Context {
            bits: small_set::without(self.bits, k),
        }
    }
}
