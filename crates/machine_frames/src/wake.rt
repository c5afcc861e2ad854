// A body that has stopped goes on.

ghost use Rattle.std.specs.Prelude.{◌≡◌, [], None, OnOk, Some, true};
ghost use Rattle.run_tree.specs.Todo.{Done};
ghost use Rattle.machine_state.specs.py_world.Outcome.{call_end};
ghost use Rattle.machine_state.specs.py_world.Resuming as resuming;
ghost use Rattle.machine_state.specs.py_world.Runs.{start};
ghost use Rattle.machine_state.specs.py_world.World.{state};
ghost use Rattle.machine_state.specs.core_meaning.Statements.{remains};
ghost use Rattle.machine_state.specs.Places.{CoreOutcome};
ghost use Rattle.machine_state.specs.Frames.{machine_rest, state_of, world_of};
ghost use Rattle.machine_frames.specs.Remaining.{CoreFrozen};

use crate::waking::wake_frames;
use machine_state::frozen::FrozenBody;
use machine_state::machine::Machine;
use seq::OutOfMemory;

/// Takes the frozen frame of a number, which is out, and puts what remains of its body into a machine: it goes on where it stopped, with its
/// names, and ends as a call by the runner does.
pub fn wake(m: &mut Machine, number: usize, budget: u64) -> Result<(), OutOfMemory>
    requires { resuming.is_out number (world_of m.old) ≡ true }
    ensures state { OnOk result ((f : CoreFrozen) → resuming.frozen_at number (world_of m.old) ≡ Some f → state_of m.new ≡ state f.locals [] (resuming.abandon_of number (world_of m.old))) }
    ensures left { OnOk result (m.new.left ≡ budget) }
    ensures rest { OnOk result ((f : CoreFrozen) (o : CoreOutcome) → resuming.frozen_at number (world_of m.old) ≡ Some f
        → machine_rest m.new o ≡ remains f.rest f.site o (λ o. Done (call_end (start (resuming.abandon_of number (world_of m.old))) o))) }
{
    let woken = wake_frames(&mut m.stack, number, m.alloc)?;
    let FrozenBody { locals, here } = woken.unwrap();
    m.locals = locals;
    m.temps = Vec::new(m.alloc);
    m.here = here;
    m.left = budget;
    Ok(())
}
