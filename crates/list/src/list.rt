//! The list, in a file of its own, so that the definitions of its meaning can name it.

ghost use Rattle.std.specs.Prelude.{◌≤◌, length};

pub mod methods;

// Lent memory and a length, since nothing is allocated here.
/// The first `len` places of the lent memory hold the elements; `missed` counts those that found no place.
#[derive(Drop)]
pub struct List<'a, T> {
    items: &'a mut [T],
    len: usize,
    missed: u16,
    ghost within: { len ≤ length items.now },
}
