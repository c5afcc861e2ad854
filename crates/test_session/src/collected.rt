// What was collected.

ghost use Rattle.test_session.specs.Stacks.{IsSpent};

use crate::hooks::Hook;
use crate::items::Item;
use crate::stack::SetupStack;
use hook_order::Impl;
use py_machine::World;
use report_parts::CollectReport;

/// What was collected, and the session over it.
pub struct Collected {
    /// The world in which all modules are loaded.
    pub world: World,
    /// The fixtures, of which none is set up.
    pub stack: SetupStack,
    /// The implementations of hooks in conftests, hook by hook, those of one in the order in which they are called.
    pub hooks: Vec<(Hook, Impl)>,
    /// The items that the words select and `-k` and `-m` accept, in order.
    pub items: Vec<Item>,
    /// How many items the words select and `-k` or `-m` doesn't accept.
    pub deselected: u32,
    /// The files that could not be collected.
    pub errors: Vec<CollectReport>,
}

impl Collected {
    /// Ends it, where no fixture stands at its `yield`.
    pub fn close(self)
        requires spent { IsSpent self.stack }
    {
        let Collected {
            world,
            stack,
            hooks: _hooks,
            items: _items,
            deselected: _deselected,
            errors: _errors,
        } = self;
        stack.close();
        drop(world);
    }
}
