// What is told of a run that has ended, and modules that ran when the steps were used up.

ghost use Rattle.std.specs.Prelude.{◌≡◌, IfOk, OnOk};
ghost use Rattle.py_values.specs.Raises as raises;
ghost use Rattle.lower_law.specs.py_world.Runs as runs;
ghost use Rattle.machine_state.specs.Places.{CoreState, outcome};
ghost use Rattle.machine_state.specs.Frames.{world_of};

use machine_load::{Ended, Outcome, Thrown, Trace};
use machine_state::frame::End;
use machine_state::machine::Machine;
use py_values::class::ExcClass;
use py_values::end::{Raise, push_ascii};
use py_values::throw::throw;
use py_values::value::Value;
use seq::OutOfMemory;
use std::alloc::Global;

fn step_limit(alloc: Global, budget: u64) -> Result<Raise, OutOfMemory>
    ensures { IfOk result (λ r. r ≡ raises.text_raise ExcClass.StepLimit (runs.step_limit budget)) }
{
    let number = budget.to_string(alloc)?;
    let mut text = Vec::new(alloc);
    push_ascii(&mut text, "step limit of ")?;
    push_ascii(&mut text, number.as_str())?;
    push_ascii(&mut text, " reached")?;
    let raise = Raise::from_chars(alloc, ExcClass::StepLimit, &text)?;
    Ok(raise)
}

/// The modules that were running have raised `StepLimit`.
pub fn out_of_steps(m: &mut Machine, budget: u64, trace: &Trace) -> Result<(), OutOfMemory>
    ensures { OnOk result (world_of m.new ≡ runs.out_of_steps budget trace.now (world_of m.old)) }
{
    if !m.modules.any_running() {
        return Ok(());
    }
    let raise = step_limit(m.alloc, budget)?;
    let exc = throw(m.alloc, &mut m.heap, raise)?;
    m.modules.fail_running(m.alloc, exc, trace)
}

/// What is told of an end.
pub fn told(end: End, steps: u64) -> Ended
    ensures { (s : CoreState) → runs.ended_by (outcome end s) steps ≡ (result, s.world) }
{
    let out = match end {
        End::Value(v) => Outcome::Value(v),
        End::Returned(v) => Outcome::Value(v),
        End::Raised(exc, trace) => Outcome::Raised(Thrown { exc, trace }),
        End::Next | End::Broke | End::Continued => Outcome::Value(Value::None),
    };
    Ended { out, steps }
}
