ghost use Rattle.std.specs.Prelude.{◌≡◌, ◌+◌, min, [], ◌∷◌, length, if◌then◌else◌, nat_lt, slice_set};
ghost use Rattle.std.specs.List.{slice_get};
ghost use Rattle.list.specs.Lists.{Noted, contents, lender, listed, memory, room};
ghost use Rattle.list.specs.Noting.{NotingJoins};

use super::List;

impl<'a, T: Copy> List<'a, T> {
    /// An empty list over the lent memory, which stays as it is.
    pub fn new(items: &'a mut [T]) -> List<'a, T>
        ensures contents { contents result ≡ record { holds = []; misses = 0 } }
        ensures memory { memory result ≡ items.old }
        ensures lender { lender result ≡ items.entry.ghost_name }
    {
        List {
            items,
            len: 0,
            missed: 0,
        }
    }

    // Each question takes the list for writing and promises no change; `as_slice` alone takes it for reading.
    /// How many elements it holds.
    pub fn len(&mut self) -> usize
        ensures value { result ≡ length (listed self.old) }
        ensures same { self.new ≡ self.old }
    {
        self.as_slice().len()
    }

    /// How many it can hold.
    pub fn room(&mut self) -> usize
        ensures value { result ≡ room self.old }
        ensures same { self.new ≡ self.old }
    {
        self.items.len()
    }

    /// How many found no place, up to 65,535.
    pub fn missed(&mut self) -> u16
        ensures value { result ≡ (contents self.old).misses }
        ensures same { self.new ≡ self.old }
    {
        return self.missed;
    }

    /// The element at a place, counted from 0.
    pub fn get(&mut self, i: usize) -> Option<T>
        ensures value { result ≡ slice_get (listed self.old) i }
        ensures same { self.new ≡ self.old }
    {
        self.as_slice().get(i).copied()
    }

    /// The elements, in the order in which they came.
    pub fn as_slice(&self) -> &[T]
        ensures { result.now ≡ listed self.now }
    {
        &self.items[..self.len]
    }

    // A flag, since what finds no place is counted here and nothing is left to tell.
    /// Adds an element at the end and answers true, or counts it as missed where no place is free.
    pub fn push(&mut self, x: T) -> bool
        ensures answer { result ≡ nat_lt (length (listed self.old)) (room self.old) }
        ensures noted { Noted self.old self.new (x ∷ []) }
        ensures memory { memory self.new ≡ (if result then slice_set (memory self.old) (length (listed self.old)) x else memory self.old) }
    {
        if self.len < self.items.len() {
            self.items[self.len] = x;
            self.len += 1;
            true
        } else {
            self.missed = self.missed.saturating_add(1);
            false
        }
    }
}

// A law stands on a call, and this number is all that an edit can make wrong there.
/// Noting two rows of elements in turn is noting them joined.
pub fn noting_joins<T: Copy>() -> u8
    ensures value { result ≡ 0 }
    ensures joins { NotingJoins T }
{
    0
}
