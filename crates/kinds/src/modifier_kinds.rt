ghost use Rattle.std.specs.Prelude.{◌≡◌, ℕ, ◌^◌, ◌<◌, ◌≤◌, true, false, not, ◌&&◌, ◌||◌, length, MatchOption, ◌==◌, nat_lt};
ghost use Rattle.kinds.specs.Modifiers.{modifier_number};
ghost use Rattle.small_set.specs.Members.{Lowest, NoneAmong, member, members};

use crate::modifier_kind::ModifierKind;

/// A set of modifier keywords.
#[derive(Clone, Copy, Debug, PartialEq, Eq)]
pub struct ModifierKinds {
    bits: u16,
    ghost ok: { bits < 2 ^ 15 },
}

impl ModifierKinds {
    /// The set without members.
    pub fn none() -> Self
        ensures { (j : ℕ) → member result.bits j ≡ false }
    {
        ModifierKinds {
            bits: small_set::none(),
        }
    }

    /// The set with these bits, unless one of them stands for no kind.
    pub fn from_bits(bits: u16) -> Option<Self>
        ensures { MatchOption result (2 ^ 15 ≤ bits) (λ s. s.bits ≡ bits) }
    {
        if small_set::truncate::<ModifierKind>(bits) == bits {
            Some(ModifierKinds { bits })
        } else {
            None
        }
    }

    /// The set with those of these bits that stand for a kind.
    pub fn from_bits_truncate(bits: u16) -> Self
        ensures { (j : ℕ) → member result.bits j ≡ (member bits j && nat_lt j 15) }
    {
        ModifierKinds {
            bits: small_set::truncate::<ModifierKind>(bits),
        }
    }

    /// The set as plain bits.
    pub fn bits(self) -> u16
        ensures { result ≡ self.bits }
    {
        self.bits
    }

    /// Whether `k` is in the set.
    pub fn contains(self, k: ModifierKind) -> bool
        ensures { result ≡ member self.bits (modifier_number k) }
    {
        small_set::contains(self.bits, k)
    }

    /// The set with `k` put in.
    pub fn with(self, k: ModifierKind) -> Self
        ensures { (j : ℕ) → member result.bits j ≡ (modifier_number k == j || member self.bits j) }
    {
        ModifierKinds {
            bits: small_set::with(self.bits, k),
        }
    }

    /// The set with `k` taken out.
    pub fn without(self, k: ModifierKind) -> Self
        ensures { (j : ℕ) → member result.bits j ≡ (member self.bits j && not (modifier_number k == j)) }
    {
        ModifierKinds {
            bits: small_set::without(self.bits, k),
        }
    }

    /// What is in both sets.
    pub fn intersection(self, other: ModifierKinds) -> Self
        ensures { (j : ℕ) → member result.bits j ≡ (member self.bits j && member other.bits j) }
    {
        ModifierKinds {
            bits: small_set::intersection(self.bits, other.bits),
        }
    }

    /// Whether some kind is in both sets.
    pub fn intersects(self, other: ModifierKinds) -> bool
        ensures holds { result ≡ true → (k : ModifierKind) × (member self.bits (modifier_number k) ≡ true) × (member other.bits (modifier_number k) ≡ true) }
        ensures fails { result ≡ false → (k : ModifierKind) → (member self.bits (modifier_number k) && member other.bits (modifier_number k)) ≡ false }
    {
        small_set::intersects(self.bits, other.bits)
    }

    /// Whether some kind of this set is not in the other.
    pub fn has_any_not_in(self, other: ModifierKinds) -> bool
        ensures holds { result ≡ true → (k : ModifierKind) × (member self.bits (modifier_number k) ≡ true) × (member other.bits (modifier_number k) ≡ false) }
        ensures fails { result ≡ false → (k : ModifierKind) → member self.bits (modifier_number k) ≡ true → member other.bits (modifier_number k) ≡ true }
    {
        small_set::has_any_not_in(self.bits, other.bits)
    }

    /// How many kinds the set has.
    pub fn count(self) -> u32
        ensures { result ≡ length (members self.bits) }
    {
        small_set::count(self.bits)
    }

    /// The kind in the set with the lowest number at or above `from`.
    pub fn next(self, from: u8) -> Option<ModifierKind>
        ensures { MatchOption result (NoneAmong self.bits from 15) (λ k. Lowest self.bits from (modifier_number k)) }
    {
        small_set::next_member(self.bits, from)
    }
}
