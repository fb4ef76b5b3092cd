ghost use Rattle.std.specs.Prelude.{◌≡◌};
ghost use Rattle.guard.specs.Changes.{changed_bits};

use kinds::context::{Context, ContextFlag};

/// What the context of a part is, against that of the class around it.
#[derive(Clone, Copy, Debug, PartialEq, Eq)]
pub enum Change {
    /// The expression of a computed name: `in` is an operator again.
    ComputedName,
    /// A property's initializer, which is a function of its own.
    Initializer,
    /// A static block: also `await` is reserved, and nothing can be returned.
    StaticBlock,
    /// What stands after `declare`.
    Ambient,
}

impl Change {
    /// The context with the change's flags set and cleared.
    pub fn of(self, context: Context) -> Context
        ensures { result.bits ≡ changed_bits self context.bits }
    {
        match self {
            Change::ComputedName => context.with(ContextFlag::In),
            Change::Initializer => context
                .with(ContextFlag::In)
                .with(ContextFlag::NewTarget)
                .without(ContextFlag::Yield)
                .without(ContextFlag::Await),
            Change::StaticBlock => context
                .with(ContextFlag::In)
                .with(ContextFlag::Await)
                .with(ContextFlag::NewTarget)
                .without(ContextFlag::Yield)
                .without(ContextFlag::Return),
            Change::Ambient => context.with(ContextFlag::Ambient),
        }
    }
}
