// A world is lent to a place, and taken back.

ghost use Rattle.std.specs.Prelude.{◌≡◌};

use collect_tree::RunWorld;
use py_machine::World;
use std::alloc::Global;
use std::mem;

/// Where a place takes memory.
pub(crate) fn memory(place: &RunWorld) -> Global {
    place.alloc
}

/// Lends a world to a place, or takes it back: each gets what the other had.
pub(crate) fn exchange(world: &mut World, place: &mut RunWorld)
    ensures world { world.new ≡ place.old }
    ensures place { place.new ≡ world.old }
{
    mem::swap(world, &mut place.world);
}
