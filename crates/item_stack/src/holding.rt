// What is set up while the items of a session run.

ghost use Rattle.std.specs.Prelude.{IfOk};
ghost use Rattle.item_stack.specs.States.{IsNew};

use seq::OutOfMemory;
use setup_stack::SetupStack;
use std::alloc::Global;

/// The fixtures that are set up, and the `request` of the test at hand, where it took one.
pub struct ItemStack<V, E, R> {
    pub stack: SetupStack<V, E, R>,
    pub request: Option<V>,
}

impl<V: Copy, E: Drop, R> ItemStack<V, E, R> {
    /// Nothing is set up, and no test is at hand.
    pub fn new(alloc: Global) -> Result<Self, OutOfMemory>
        ensures { IfOk result (λ made. IsNew made) }
    {
        let stack = SetupStack::new(alloc)?;
        Ok(ItemStack {
            stack,
            request: None,
        })
    }
}
