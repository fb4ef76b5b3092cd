//! The packed set: the members of a small type, one bit for each, in sixteen bits.
//!
//! It knows that a kind has a number and how many kinds there are, and no kind by name.
//! The functions take plain bits; a type of its own over them keeps bits of no kind out.
#![tactic(auto)]

ghost use Rattle.std.specs.Prelude.{◌≡◌, ℕ, ◌^◌, ◌<◌, ◌≤◌, true, false, not, ◌&&◌, ◌||◌, length, MatchOption, ◌==◌, nat_lt};
ghost use Rattle.small_set.specs.Members.{Lowest, NoneAmong, member, members};

/// A type of at most sixteen values, numbered from 0 without a gap.
pub trait SmallKind: Copy {
    const COUNT: u8;

    ghost numbered: { Self → ℕ };

    ghost size: { ℕ };

    /// How many kinds there are: what `COUNT` says, for contracts to cite.
    fn how_many() -> u8
        ensures { result ≡ size };

    /// The kind's number, which is its bit in a set.
    fn number(self) -> u8
        ensures { result ≡ numbered self };

    /// The kind with the number `n`, if there is one.
    fn from_number(n: u8) -> Option<Self>
        ensures { MatchOption result (size ≤ n) (λ k. numbered k ≡ n) };

    // One bit for each kind has to fit.
    ghost few: { size ≤ 16 };

    ghost below: { (k : Self) → numbered k < size };

    // So a kind comes back from its number.
    ghost apart: { (j : Self) (k : Self) → numbered j ≡ numbered k → j ≡ k };
}

/// The set without members.
pub fn none() -> u16
    ensures each { (j : ℕ) → member result j ≡ false }
    ensures within { result ≡ 0 }
{
    0
}

/// The set of every kind.
pub fn all<K: SmallKind>() -> u16
    ensures each { (j : ℕ) → member result j ≡ nat_lt j K.SmallKind.size }
    ensures within { result < 2 ^ K.SmallKind.size }
{
    ((1u32 << K::how_many()) - 1) as u16
}

/// Whether `k` is in the set.
pub fn contains<K: SmallKind>(bits: u16, k: K) -> bool
    ensures { result ≡ member bits (K.SmallKind.numbered k) }
{
    has(bits, k.number())
}

// Whether the number `n` is in the set.
fn has(bits: u16, n: u8) -> bool
    requires { n < 16 }
    ensures { result ≡ member bits n }
{
    (bits >> n) % 2 == 1
}

/// The set with `k` put in.
pub fn with<K: SmallKind>(bits: u16, k: K) -> u16
    ensures each { (j : ℕ) → member result j ≡ (K.SmallKind.numbered k == j || member bits j) }
    ensures within { bits < 2 ^ K.SmallKind.size → result < 2 ^ K.SmallKind.size }
{
    bits | (1u16 << k.number())
}

/// The set with `k` taken out.
pub fn without<K: SmallKind>(bits: u16, k: K) -> u16
    ensures each { (j : ℕ) → member result j ≡ (member bits j && not (K.SmallKind.numbered k == j)) }
    ensures within { bits < 2 ^ K.SmallKind.size → result < 2 ^ K.SmallKind.size }
{
    difference(bits, 1u16 << k.number())
}

/// What is in both sets.
pub fn intersection(a: u16, b: u16) -> u16
    ensures each { (j : ℕ) → member result j ≡ (member a j && member b j) }
    ensures within { (result ≤ a) × (result ≤ b) }
{
    a & b
}

// What is in `a` and not in `b`.
fn difference(a: u16, b: u16) -> u16
    ensures each { (j : ℕ) → member result j ≡ (member a j && not (member b j)) }
    ensures within { (n : ℕ) → a < 2 ^ n → result < 2 ^ n }
{
    a ^ (a & b)
}

/// Whether some number is in both sets.
pub fn intersects(a: u16, b: u16) -> bool
    ensures holds { result ≡ true → (j : ℕ) × (member a j ≡ true) × (member b j ≡ true) }
    ensures fails { result ≡ false → (j : ℕ) → (member a j && member b j) ≡ false }
{
    intersection(a, b) != 0
}

/// Whether some number of `a` is not in `b`.
pub fn has_any_not_in(a: u16, b: u16) -> bool
    ensures holds { result ≡ true → (j : ℕ) × (member a j ≡ true) × (member b j ≡ false) }
    ensures fails { result ≡ false → (j : ℕ) → member a j ≡ true → member b j ≡ true }
{
    difference(a, b) != 0
}

/// The set without the bits that stand for no kind.
pub fn truncate<K: SmallKind>(bits: u16) -> u16
    ensures each { (j : ℕ) → member result j ≡ (member bits j && nat_lt j K.SmallKind.size) }
    ensures within { result < 2 ^ K.SmallKind.size }
    ensures kept { bits < 2 ^ K.SmallKind.size → result ≡ bits }
{
    intersection(bits, all::<K>())
}

/// How many members the set has.
pub fn count(bits: u16) -> u32
    ensures { result ≡ length (members bits) }
{
    bits.count_ones()
}

/// The lowest member at or above `from`: going on at its number plus one, every member once, upwards.
pub fn next_member<K: SmallKind>(bits: u16, from: u8) -> Option<K>
    ensures { MatchOption result (NoneAmong bits from K.SmallKind.size) (λ k. Lowest bits from (K.SmallKind.numbered k)) }
{
    let n = (from..K::how_many()).find(|n| has(bits, *n))?;
    K::from_number(n)
}
