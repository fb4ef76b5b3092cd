//! The decorators of a member, in a file of its own, so that the definitions of their meaning can name the struct.

ghost use Rattle.std.specs.Prelude.{◌≡◌, ◌≤◌, length};

use parts::Span;

pub mod methods;

const MOST: usize = 16;

/// The first `count` of the places hold the spans.
// An array and a count: a record is copied as it is and lies in lent memory, so nothing of it is allocated.
#[derive(Clone, Copy)]
pub struct Decorators {
    spans: [Span; MOST],
    count: u8,
    ghost whole: { length spans ≡ 16 },
    ghost few: { count ≤ 16 },
}
