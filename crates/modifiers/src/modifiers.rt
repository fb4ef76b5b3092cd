//! The list, in a file of its own, so that the definitions of its meaning can name it.

ghost use Rattle.std.specs.Prelude.{◌≡◌, ◌≤◌, true, false, take, nat_lt, slice_index};
ghost use Rattle.kinds.specs.Modifiers.{modifier_number};
ghost use Rattle.kinds.specs.declared.modifier_kind.ModifierKind.{ModifierKind};
ghost use Rattle.modifiers.specs.Entries.{apart, ascending, fits, keeps, listed};
ghost use Rattle.small_set.specs.Members.{member};
ghost use Rattle.std.specs.List.{list_all};

use kinds::{ModifierKind, ModifierKinds};
use small_set::SmallKind;

mod methods;

const KINDS: usize = ModifierKind::COUNT as usize;

// Arrays by value and a length, since nothing is allocated here and a list is copied.
/// The kept keywords: the set of their kinds, the last start of each by its number, and the
/// numbers in the order of those starts.
#[derive(Clone, Copy, Debug)]
pub struct Modifiers {
    kinds: ModifierKinds,
    starts: [u32; KINDS],
    order: [u8; KINDS],
    len: u8,
    ghost few: { len ≤ 15 },
    ghost known: { list_all (λ n. nat_lt n 15) (take len order) ≡ true },
    ghost once: { apart (listed starts (take len order)) ≡ true },
    ghost same: { (k : ModifierKind) → member kinds.bits (modifier_number k) ≡ keeps k (listed starts (take len order)) },
    ghost rising: { ascending (listed starts (take len order)) ≡ true },
    ghost blank: { (k : ModifierKind) → member kinds.bits (modifier_number k) ≡ false → slice_index starts (modifier_number k) ≡ 0 },
    ghost within: { list_all fits (listed starts (take len order)) ≡ true },
}
