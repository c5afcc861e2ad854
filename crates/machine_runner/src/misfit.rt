// Calls by the runner whose arguments don't fit, and where a call by the runner begins.

ghost use Rattle.std.specs.Prelude.{◌≡◌, ◌∷◌, [], IfOk, slice_get};
ghost use Rattle.lower_law.specs.py_world.Arguments.{positional_arguments};
ghost use Rattle.lower_law.specs.py_world.Calls as calls;
ghost use Rattle.lower_law.specs.py_world.Outcome.{raised};
ghost use Rattle.lower_law.specs.py_world.Runs as runs;
ghost use Rattle.lower_law.specs.py_world.Site as site;
ghost use Rattle.machine_state.specs.Places.{arguments_in};
ghost use Rattle.machine_state.specs.Frames.{state_of, world_of};
ghost use Rattle.machine_runner.specs.Begun.{Begins, Fits, FitsCall, FitsNames};

use machine_arguments::arguments::{arguments_for, with_first};
use machine_load::{Ended, Outcome, Thrown, Trace, TraceFrame};
use machine_state::arguments::CallArguments;
use machine_state::locals::Locals;
use machine_state::machine::Machine;
use machine_state::traces::copy_text;
use py_values::end::Raise;
use py_values::object::{FunctionObj, MethodObj, Obj};
use py_values::throw::throw;
use py_values::value::{ObjId, Value};
use seq::OutOfMemory;
use std::alloc::Global;

/// The frame of a function, at its `def`.
pub fn frame_of(alloc: Global, function: &FunctionObj) -> Result<Trace, OutOfMemory>
    ensures { IfOk result (λ t. t ≡ site.frame function.now.path function.now.line function.now.name ∷ []) }
{
    let mut frames = Vec::new(alloc);
    frames.push(TraceFrame {
        path: copy_text(alloc, &function.path)?,
        line: function.line,
        name: copy_text(alloc, &function.name)?,
    })?;
    Ok(Trace::from_vec(frames))
}

/// What is raised where a function's arguments don't fit, and where.
#[derive(Drop)]
pub struct Misfit {
    pub raise: Raise,
    pub trace: Trace,
}

/// Arguments by position.
pub fn plain_arguments(alloc: Global, args: &[Value]) -> Result<CallArguments, OutOfMemory>
    ensures { IfOk result (λ all. arguments_in all ≡ positional_arguments args.now) }
{
    let mut values = Vec::new(alloc);
    values.extend_from_slice(args)?;
    Ok(CallArguments::plain(alloc, values))
}

/// What is raised where a function, whose code is there, can't be called with arguments.
fn arguments_misfit(
    alloc: Global,
    function: &FunctionObj,
    args: &[Value],
) -> Result<Option<Misfit>, OutOfMemory>
    ensures { IfOk result (λ x. FitsNames x (calls.arguments_for function.now (positional_arguments args.now)) (site.frame function.now.path function.now.line function.now.name ∷ [])) }
{
    let args = plain_arguments(alloc, args)?;
    match arguments_for(alloc, function, &args)? {
        Ok(_) => Ok(None),
        Err(raise) => {
            let trace = frame_of(alloc, function)?;
            Ok(Some(Misfit { raise, trace }))
        }
    }
}

/// What is raised where a function can't be called with arguments.
fn function_misfit(
    m: &Machine,
    function: &FunctionObj,
    args: &[Value],
) -> Result<Option<Misfit>, OutOfMemory>
    ensures { IfOk result (λ x. Fits x (calls.arguments_for function.now (positional_arguments args.now)) (slice_get m.now.codes.items function.now.code) (site.frame function.now.path function.now.line function.now.name ∷ [])) }
{
    if m.codes.get(function.code).is_none() {
        return Ok(None);
    }
    arguments_misfit(m.alloc, function, args)
}

/// What is raised where a method can't be called with arguments.
fn method_misfit(
    m: &Machine,
    method: &MethodObj,
    args: &[Value],
) -> Result<Option<Misfit>, OutOfMemory>
    ensures { IfOk result (λ x. FitsCall x (runs.with_args (method.now.receiver ∷ args.now) (calls.function_of_object (slice_get m.now.heap method.now.function.at))) m.now.codes.items) }
{
    match m.heap.get(method.function) {
        Some(Obj::Function(function)) => {
            let all = with_first(m.alloc, method.receiver, args)?;
            function_misfit(m, function, &all)
        }
        Some(
            Obj::Text(_)
            | Obj::List(_)
            | Obj::Tuple(_)
            | Obj::Dict(_)
            | Obj::Range(_)
            | Obj::Method(_)
            | Obj::Builtin(_)
            | Obj::Class(_)
            | Obj::Instance(_)
            | Obj::Exception(_)
            | Obj::Module(_)
            | Obj::Fixture(_)
            | Obj::MarkMaker
            | Obj::Mark(_)
            | Obj::Hook(_)
            | Obj::Param(_)
            | Obj::Request(_)
            | Obj::Raises(_)
            | Obj::Info(_)
            | Obj::Item(_),
        )
        | None => Ok(None),
    }
}

/// What is raised where the function or the method at a place can't be called with arguments.
fn object_misfit(m: &Machine, id: ObjId, args: &[Value]) -> Result<Option<Misfit>, OutOfMemory>
    ensures { IfOk result (λ x. FitsCall x (runs.function_and m.now.heap args.now (slice_get m.now.heap id.at)) m.now.codes.items) }
{
    match m.heap.get(id) {
        Some(Obj::Function(function)) => function_misfit(m, function, args),
        Some(Obj::Method(method)) => method_misfit(m, method, args),
        Some(
            Obj::Text(_)
            | Obj::List(_)
            | Obj::Tuple(_)
            | Obj::Dict(_)
            | Obj::Range(_)
            | Obj::Builtin(_)
            | Obj::Class(_)
            | Obj::Instance(_)
            | Obj::Exception(_)
            | Obj::Module(_)
            | Obj::Fixture(_)
            | Obj::MarkMaker
            | Obj::Mark(_)
            | Obj::Hook(_)
            | Obj::Param(_)
            | Obj::Request(_)
            | Obj::Raises(_)
            | Obj::Info(_)
            | Obj::Item(_),
        )
        | None => Ok(None),
    }
}

/// What is raised where the arguments of a call by the runner don't fit.
pub fn find_misfit(m: &Machine, f: Value, args: &[Value]) -> Result<Option<Misfit>, OutOfMemory>
    ensures { IfOk result (λ x. Begins x f args.now (runs.start (world_of m.now))) }
{
    match f {
        Value::Ref(id) => object_misfit(m, id, args),
        Value::None | Value::Bool(_) | Value::Int(_) => Ok(None),
    }
}

/// Nothing is open, and no name is bound.
pub fn reset(m: &mut Machine, budget: u64)
    ensures state { state_of m.new ≡ runs.start (world_of m.old) }
    ensures world { world_of m.new ≡ world_of m.old }
    ensures locals { m.new.locals ≡ [] }
    ensures temps { m.new.temps.items ≡ [] }
    ensures stack { m.new.stack.own ≡ [] }
    ensures left { m.new.left ≡ budget }
{
    m.stack.clear();
    m.locals = Locals::new(m.alloc);
    m.temps = Vec::new(m.alloc);
    m.left = budget;
}

/// Raises what is raised where the arguments don't fit.
pub fn refuse(m: &mut Machine, misfit: Misfit) -> Result<Ended, OutOfMemory>
    ensures { IfOk result (λ e. runs.ended_by (raised misfit.raise misfit.trace (state_of m.old)) 0 ≡ (e, world_of m.new)) }
{
    let Misfit { raise, trace } = misfit;
    let exc = throw(m.alloc, &mut m.heap, raise)?;
    Ok(Ended {
        out: Outcome::Raised(Thrown { exc, trace }),
        steps: 0,
    })
}
