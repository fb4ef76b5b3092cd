ghost use Rattle.std.specs.Prelude.{◌≡◌, ◌<◌, ◌≤◌, true, false, [], length, take, filter};
ghost use Rattle.kinds.specs.Modifiers.{modifier_number};
ghost use Rattle.modifiers.specs.Entries.{above, accessibility_of, added, differs, entry_at, entry_of, keeps, may_follow, placed_if, word_at};
ghost use Rattle.modifiers.specs.Lists.{entries};
ghost use Rattle.small_set.specs.Members.{member};
ghost use Rattle.std.specs.List.{slice_get};

use super::{KINDS, Modifiers};
use crate::modifier::{Modifier, Placed};
use kinds::{ModifierKind, ModifierKinds};
use small_set::SmallKind;

const ACCESSIBILITIES: [ModifierKind; 3] = [
    ModifierKind::Public,
    ModifierKind::Protected,
    ModifierKind::Private,
];

impl Modifiers {
    /// No keyword.
    pub fn none() -> Modifiers
        ensures { entries result ≡ [] }
    {
        Modifiers {
            kinds: ModifierKinds::none(),
            starts: [0; KINDS],
            order: [0; KINDS],
            len: 0,
        }
    }

    // A flag, since a reader that is refused stops, for whichever reason.
    /// Puts a keyword at the end, in place of an earlier one of its kind. One that does not begin
    /// after all the others, or ends past 32 bits, is refused, and nothing changes.
    pub fn add(&mut self, kind: ModifierKind, start: u32) -> bool
        ensures taken { result ≡ may_follow (entries self.old) (word_at kind start) }
        ensures refused { result ≡ false → self.new ≡ self.old }
        ensures put { result ≡ true → entries self.new ≡ added (entries self.old) (word_at kind start) }
    {
        if !self.may_follow(kind, start) {
            return false;
        }
        *self = self.with(kind, start);
        true
    }

    /// Whether a kind is kept.
    pub fn contains(self, kind: ModifierKind) -> bool
        ensures { result ≡ keeps kind (entries self) }
    {
        let kinds = self.kinds();
        kinds.contains(kind)
    }

    /// The kept keyword of a kind.
    pub fn get(self, kind: ModifierKind) -> Option<Modifier>
        ensures { result ≡ entry_of kind (entries self) }
    {
        let start = self.starts[kind.number() as usize];
        self.contains(kind).then_some(Modifier { start, kind })
    }

    /// The accessibility: public before protected before private.
    pub fn accessibility(self) -> Option<ModifierKind>
        ensures { result ≡ accessibility_of (entries self) }
    {
        ACCESSIBILITIES
            .into_iter()
            .find(|kind| self.contains(*kind))
    }

    /// How many kinds are kept.
    pub fn len(self) -> usize
        ensures { result ≡ length (entries self) }
    {
        self.len as usize
    }

    // By a test of the index: with `get(i)?` the must-fail edit, which reads another place, fell for its form alone.
    /// The keyword at a place of the order.
    pub fn at(self, i: usize) -> Option<Modifier>
        ensures { result ≡ slice_get (entries self) i }
    {
        if i < self.len as usize {
            Some(entry(self.starts, self.order[i]))
        } else {
            None
        }
    }

    /// The keyword at a place of the order, with its own place in the script.
    pub fn placed_at(self, i: usize) -> Option<Placed>
        ensures { result ≡ placed_if (slice_get (entries self) i) }
    {
        let m = self.at(i)?;
        Some(Placed {
            kind: m.kind,
            place: m.place()?,
        })
    }

    /// The set of the kept kinds.
    pub fn kinds(self) -> ModifierKinds
        ensures { (k : ModifierKind) → member result.bits (modifier_number k) ≡ keeps k (entries self) }
    {
        self.kinds
    }

    fn may_follow(self, kind: ModifierKind, start: u32) -> bool
        ensures { result ≡ may_follow (entries self) (word_at kind start) }
    {
        self.is_below(start) && Modifier { start, kind }.end().is_some()
    }

    // The starts rise, so the last one is enough.
    fn is_below(self, start: u32) -> bool
        ensures { result ≡ above start (entries self) }
    {
        match self.order[..self.len as usize].last() {
            Some(n) => self.starts[*n as usize] < start,
            None => true,
        }
    }

    fn with(self, kind: ModifierKind, start: u32) -> Modifiers
        requires { may_follow (entries self) (word_at kind start) ≡ true }
        ensures { entries result ≡ added (entries self) (word_at kind start) }
    {
        let n = kind.number();
        let (mut order, len) = others(self.order, self.len as usize, n);
        order[len] = n;
        let mut starts = self.starts;
        starts[n as usize] = start;
        let kinds = self.kinds.with(kind);
        Modifiers {
            kinds,
            starts,
            order,
            len: (len + 1) as u8,
        }
    }
}

// The entry of the kind with a number.
fn entry(starts: [u32; KINDS], n: u8) -> Modifier
    requires { n < 15 }
    ensures { result ≡ entry_at starts n }
{
    Modifier {
        start: starts[n as usize],
        kind: ModifierKind::from_number(n).unwrap(),
    }
}

// The first `len` numbers but for `n`, and how many they are: an array by value, as the list holds it.
fn others(from: [u8; KINDS], len: usize, n: u8) -> ([u8; KINDS], usize)
    requires { len ≤ 15 }
    ensures few { result.1 ≤ len }
    ensures room { length result.0 ≡ 15 }
    ensures kept { take result.1 result.0 ≡ filter (differs n) (take len from) }
{
    let mut order = [0u8; KINDS];
    let mut count = 0;
    for x in &from[..len] {
        if *x != n {
            order[count] = *x;
            count += 1;
        }
    }
    (order, count)
}
