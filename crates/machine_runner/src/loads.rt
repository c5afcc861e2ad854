// What is there of a load by the runner before its run: that it was made before, or the code of its source.

ghost use Rattle.std.specs.Prelude.{◌≡◌, ℕ, List, Some, IfOk, chars};
ghost use Rattle.lower_law.specs.py_world.Runs as runs;
ghost use Rattle.lower_law.specs.core_meaning.Meaning.{core};
ghost use Rattle.machine_state.specs.Frames.{world_of};
ghost use Rattle.machine_runner.specs.Looking.{IsBody};

use machine_load::{Ended, Load, Outcome, Thrown};
use machine_state::machine::Machine;
use machine_state::source::SourceCode;
use machine_state::sources::SourceTable;
use machine_state::traces::copy_trace;
use py_core::CoreBlock;
use py_values::value::Value;
use seq::OutOfMemory;
use std::rc::Rc;

/// What is told of a load that was made before.
pub fn told_load(m: &Machine, load: &Load) -> Result<Ended, OutOfMemory>
    ensures { IfOk result (λ e. (path : List ℕ) → (budget : ℕ) → runs.loaded_by core (Some load.now) path budget (world_of m.now) ≡ (e, world_of m.now)) }
{
    let out = match load {
        Load::Running(id) => Outcome::Value(Value::Ref(*id)),
        Load::Loaded(id) => Outcome::Value(Value::Ref(*id)),
        Load::Failed(exc, trace) => Outcome::Raised(Thrown {
            exc: *exc,
            trace: copy_trace(m.alloc, trace)?,
        }),
    };
    Ok(Ended { out, steps: 0 })
}

/// The code of a source.
pub fn body_of(sources: &SourceTable, path: &str) -> Result<Option<Rc<CoreBlock>>, OutOfMemory>
    ensures { IfOk result (λ b. IsBody b (runs.coded (runs.source_at (chars path.now) sources.now))) }
{
    let Some(source) = sources.find_text(path) else {
        return Ok(None);
    };
    match source.code() {
        SourceCode::Code(core) => {
            let body = core.body.clone()?;
            Ok(Some(body))
        }
        SourceCode::Fault(_) => Ok(None),
    }
}
