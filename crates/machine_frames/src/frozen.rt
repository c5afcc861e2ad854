// Frames that are out.

ghost use Rattle.std.specs.Prelude.{◌≡◌, IfOk, OnOk, length};
ghost use Rattle.py_values.specs.declared.value.Value.{Value};
ghost use Rattle.machine_state.specs.py_world.Resuming as resuming;
ghost use Rattle.machine_state.specs.Frames.{paused_at, world_of};

use machine_state::frozen::FrozenBody;
use machine_state::locals::Locals;
use machine_state::machine::Machine;
use machine_state::place::{Location, Place};
use seq::{OutOfMemory, PyText};
use std::alloc::Global;
use std::mem;

fn nowhere(alloc: Global) -> Result<Location, OutOfMemory> {
    let path = PyText::from_chars(alloc, &[])?;
    Ok(Location {
        place: Place::Module(path, 0),
        around: 0,
        line: 0,
    })
}

/// Keeps what remains of the body that has stopped; its number.
#[tactic(auto, using(crate::proofs::Found::frozen_more, crate::proofs::Found::as_many))]
pub fn freeze(m: &mut Machine) -> Result<usize, OutOfMemory>
    ensures number { IfOk result (λ n. n ≡ length (world_of m.old).frozen) }
    ensures world { OnOk result ((v : Value) → world_of m.new ≡ resuming.with_frame (resuming.frozen_body (paused_at v m.old)) (world_of m.old)) }
{
    let nowhere = nowhere(m.alloc)?;
    let here = mem::replace(&mut m.here, nowhere);
    let locals = mem::replace(&mut m.locals, Locals::new(m.alloc));
    m.stack.freeze(FrozenBody { locals, here }, m.alloc)
}

/// Whether the frozen frame of a number is out.
#[tactic(auto, using(crate::proofs::Found::is_there_out))]
pub fn is_out(m: &Machine, number: usize) -> bool
    ensures { result ≡ resuming.is_out number (world_of m.now) }
{
    m.stack.is_out(number)
}

/// Gives up the frozen frame of a number, where it is out.
#[tactic(auto, using(crate::proofs::Found::let_go))]
pub fn abandon(m: &mut Machine, number: usize)
    ensures { world_of m.new ≡ resuming.abandon_of number (world_of m.old) }
{
    m.stack.abandon(number);
}
