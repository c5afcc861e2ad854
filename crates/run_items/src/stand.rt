// Where a session over sources runs.

ghost use Rattle.std.specs.Prelude.{◌≡◌, IfOk};
ghost use Rattle.item_stack.specs.fixture_instances.Resting.{AreSpent};
ghost use Rattle.run_items.specs.Stands.{IsNewStand};

use fixture_world::{Failure, Frozen, RunWorld, World};
use item_stack::ItemStack;
use py_values::value::Value;
use seq::{OutOfMemory, Seq};
use std::alloc::Global;

/// The object that hooks get for the item of a node.
#[derive(Drop)]
pub struct ItemObject {
    pub node: u32,
    pub object: Value,
}

/// A world of sources, and what is set up in it.
pub struct Stand {
    pub world: RunWorld,
    pub stack: ItemStack<Value, Failure, Frozen>,
    /// The objects that hooks got for the item at hand, and for the next.
    pub objects: Seq<ItemObject>,
    /// The values but None that the hooks at hand gave.
    pub values: Seq<Value>,
    /// Whether the teardown of the item at hand was reached.
    pub left: bool,
}

impl Stand {
    /// A world in which no fixture is set up. Behind want of memory the world is gone.
    pub fn new(alloc: Global, world: World) -> Result<Self, OutOfMemory>
        ensures empty { IfOk result (λ stand. IsNewStand stand) }
        ensures world { IfOk result (λ stand. stand.world ≡ world) }
    {
        match ItemStack::new(alloc) {
            Ok(stack) => Ok(Stand {
                world: RunWorld { alloc, world },
                stack,
                objects: Seq::new(alloc),
                values: Seq::new(alloc),
                left: false,
            }),
            Err(fault) => {
                drop(world);
                Err(fault)
            }
        }
    }

    /// Ends one in which no fixture stands at its `yield`.
    pub fn close(self)
        requires spent { AreSpent self.stack.stack.live.live }
    {
        let Stand {
            world,
            stack,
            objects: _objects,
            values: _values,
            left: _left,
        } = self;
        let ItemStack {
            stack,
            request: _request,
        } = stack;
        stack.close();
        let RunWorld {
            alloc: _alloc,
            world,
        } = world;
        drop(world);
    }
}
