// The loads of modules.

ghost use Rattle.std.specs.Prelude.{◌≡◌, IfOk};
ghost use Rattle.py_world.specs.Runs.{module_end};
ghost use Rattle.machine_state.specs.Frames.{machine_rest, state_of, todo};
ghost use Rattle.machine_state.specs.Places.{outcome};
ghost use Rattle.machine_state.specs.Work.{doing_work};

use machine_state::frame::End;
use machine_state::machine::{Machine, NextAction};
use machine_state::traces::copy_trace;
use py_values::value::{ObjId, Value};
use py_world::Load;
use seq::{OutOfMemory, PyText};

/// How a module's load ends.
pub fn take_load(
    m: &mut Machine,
    path: PyText,
    at: usize,
    end: End,
) -> Result<NextAction, OutOfMemory>
    ensures next { IfOk result (λ d. todo d m.new ≡ machine_rest m.old (module_end path at (outcome end (state_of m.old)))) }
    ensures left { m.new.left ≡ m.old.left }
    ensures work { IfOk result (λ d. doing_work d ≡ 0) }
    ensures stack { m.new.stack ≡ m.old.stack }
{
    let id = ObjId { at };
    match end {
        End::Raised(exc, trace) => {
            let kept = copy_trace(m.alloc, &trace)?;
            m.modules.put(path, Load::Failed(exc, kept))?;
            Ok(NextAction::Back(End::Raised(exc, trace)))
        }
        _ => {
            m.modules.put(path, Load::Loaded(id))?;
            Ok(NextAction::Back(End::Value(Value::Ref(id))))
        }
    }
}
