// The exceptions that the runner makes.

ghost use Rattle.std.specs.Prelude.{◌≡◌, ◌∷◌, [], IfOk};
ghost use Rattle.py_values.specs.Raises.{text_raise, thrown};
ghost use Rattle.py_world.specs.Runs.{step_limit};
ghost use Rattle.fixture_calls.specs.Failing as failing;

use crate::failure::{Failure, copied_frame};
use py_machine::{New, World, make};
use py_values::class::ExcClass;
use py_values::end::push_ascii;
use py_values::value::Value;
use py_world::{Thrown, Trace, TraceFrame};
use seq::{OutOfMemory, PyText};
use std::alloc::Global;

fn new_exception(world: &mut World, class: ExcClass, text: PyText) -> Result<Value, OutOfMemory>
    ensures { IfOk result (λ v. (v, world.new) ≡ failing.in_heap (thrown (text_raise class text) world.old.heap) world.old) }
{
    make(world, &New::Exception(class, text))
}

/// An exception with these open calls.
fn exception_at(
    world: &mut World,
    trace: Trace,
    class: ExcClass,
    text: PyText,
) -> Result<Thrown, OutOfMemory>
    ensures { IfOk result (λ t. (t, world.new) ≡ failing.made_at trace class text world.old) }
{
    match new_exception(world, class, text) {
        Ok(exc) => Ok(Thrown { exc, trace }),
        Err(fault) => {
            drop(trace);
            Err(fault)
        }
    }
}

fn def_trace(alloc: Global, defined: &TraceFrame) -> Result<Trace, OutOfMemory>
    ensures { IfOk result (λ t. t ≡ defined.now ∷ []) }
{
    let mut frames = Vec::new(alloc);
    frames.push(copied_frame(alloc, defined)?)?;
    Ok(Trace::from_vec(frames))
}

/// An exception that the runner makes for a function: it has the place of its `def`. Behind want of memory the world is spent.
pub fn exception_for(
    alloc: Global,
    world: &mut World,
    defined: &TraceFrame,
    class: ExcClass,
    text: PyText,
) -> Result<Thrown, OutOfMemory>
    ensures { IfOk result (λ t. (t, world.new) ≡ failing.made_for defined.now class text world.old) }
{
    let trace = def_trace(alloc, defined)?;
    exception_at(world, trace, class, text)
}

fn limit_text(alloc: Global, limit: u64) -> Result<PyText, OutOfMemory>
    ensures { IfOk result (λ t. t ≡ step_limit limit) }
{
    let text = format!(in alloc; "step limit of {limit} reached")?;
    let mut letters = Vec::new(alloc);
    push_ascii(&mut letters, text.as_str())?;
    Ok(PyText::from_vec(letters))
}

/// What an exhausted call has raised: `StepLimit`.
pub(crate) fn exhausted(
    alloc: Global,
    world: &mut World,
    limit: u64,
    trace: Trace,
) -> Result<Failure, OutOfMemory>
    ensures { IfOk result (λ f. (f, world.new) ≡ failing.exhausted limit trace world.old) }
{
    match limit_text(alloc, limit) {
        Ok(text) => {
            let thrown = exception_at(world, trace, ExcClass::StepLimit, text)?;
            Ok(Failure::Exception(thrown))
        }
        Err(fault) => {
            drop(trace);
            Err(fault)
        }
    }
}
