//! A walk over a list, in a file of its own, so that the definition of what is left can name it.

ghost use Rattle.std.specs.Prelude.{◌≡◌, map};

use crate::modifier::Placed;
use crate::modifiers::Modifiers;

/// The kept keywords from one of the order on, each with its place.
#[derive(Clone, Copy, Debug)]
pub struct Iter {
    modifiers: Modifiers,
    next: usize,
}

impl Modifiers {
    ghost use Rattle.modifiers.specs.Entries.{placed};
    ghost use Rattle.modifiers.specs.Lists.{entries};
    ghost use Rattle.modifiers.specs.Walks.{left};

    /// The kept keywords in their order.
    pub fn iter(self) -> Iter
        ensures { left result ≡ map placed (entries self) }
    {
        Iter {
            modifiers: self,
            next: 0,
        }
    }
}

impl Iterator for Iter {
    ghost use Rattle.std.specs.Iterator.{YieldsFirst, item_count};
    ghost use Rattle.modifiers.specs.Walks.{left};

    type Item = Placed;

    ghost next_gives = { YieldsFirst left };

    ghost remaining = { item_count left };

    fn next(&mut self) -> Option<Placed> {
        let word = self.modifiers.placed_at(self.next)?;
        self.next += 1;
        Some(word)
    }
}
