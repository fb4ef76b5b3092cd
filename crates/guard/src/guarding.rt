ghost use Rattle.std.specs.Prelude.{◌≡◌, Err, MatchResult};
ghost use Rattle.guard.specs.Changes.{changed_bits};

use crate::change::Change;
use kinds::context::Context;

/// Holds a context under a change. What is read meanwhile goes through `context`, also a guard within this one.
pub struct ContextGuard<'a> {
    pub context: &'a mut Context,
    earlier: Context,
}

impl Drop for ContextGuard<'_> {
    fn drop(self)
        ensures { self.exit.0.now ≡ self.entry.earlier }
    {
        let ContextGuard { context, earlier } = self;
        *context = earlier;
    }
}

/// Changes the context until the guard is let go.
pub fn within<'a>(context: &'a mut Context, change: Change) -> ContextGuard<'a>
    ensures earlier { result.earlier ≡ context.old }
    ensures changed { result.context.now.bits ≡ changed_bits change context.old.bits }
    ensures same { result.context.ghost_name ≡ context.entry.ghost_name }
{
    let earlier = *context;
    *context = change.of(earlier);
    ContextGuard { context, earlier }
}

impl ContextGuard<'_> {
    /// The context in force.
    pub fn current(&self) -> Context
        ensures { result ≡ self.now.context.now }
    {
        *self.context
    }
}

/// The context in force under one change within another, where a step before the inner one went well. Whether it did or
/// not, the context is as it was.
pub fn seen_under(
    context: &mut Context,
    outer: Change,
    step: Result<(), u32>,
    inner: Change,
) -> Result<Context, u32>
    ensures restored { context.new ≡ context.old }
    ensures seen { MatchResult result (λ s. s.bits ≡ changed_bits inner (changed_bits outer context.old.bits)) (λ e. step ≡ Err e) }
{
    let guard = within(context, outer);
    step?;
    let nested = within(&mut *guard.context, inner);
    Ok(nested.current())
}
