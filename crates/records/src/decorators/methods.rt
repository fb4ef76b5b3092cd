ghost use Rattle.std.specs.Prelude.{◌≡◌, true, false, [], ◌∷◌, ◌++◌, length, nat_lt};
ghost use Rattle.std.specs.List.{slice_get};
ghost use Rattle.records.specs.Decorators.{spans_of};

use super::{Decorators, MOST};
use parts::Span;

const NOWHERE: Span = Span { start: 0, end: 0 };

impl Decorators {
    pub fn none() -> Decorators
        ensures { spans_of result ≡ [] }
    {
        Decorators {
            spans: [NOWHERE; MOST],
            count: 0,
        }
    }

    /// One more; false, and nothing changes, where there are sixteen.
    // A `bool`, as every `push` here answers: there is one reason only, and it is no error.
    pub fn push(&mut self, span: Span) -> bool
        ensures answer { result ≡ nat_lt (length (spans_of self.old)) 16 }
        ensures pushed { result ≡ true → spans_of self.new ≡ spans_of self.old ++ (span ∷ []) }
        ensures full { result ≡ false → self.new ≡ self.old }
    {
        let next = self.count as usize;
        if next < MOST {
            self.spans[next] = span;
            self.count += 1;
            true
        } else {
            false
        }
    }

    pub fn as_slice(&self) -> &[Span]
        ensures { result.now ≡ spans_of self.now }
    {
        &self.spans[..usize::from(self.count)]
    }

    pub fn len(&self) -> usize
        ensures { result ≡ length (spans_of self.now) }
    {
        self.as_slice().len()
    }

    pub fn at(&self, i: usize) -> Option<Span>
        ensures { result ≡ slice_get (spans_of self.now) i }
    {
        self.as_slice().get(i).copied()
    }
}
