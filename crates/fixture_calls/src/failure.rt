// Why a phase of an item did not pass.

ghost use Rattle.std.specs.Prelude.{◌≡◌, IfOk};

use py_world::{Thrown, Trace, TraceFrame};
use seq::{OutOfMemory, PyText};
use std::alloc::Global;

/// Why a phase of an item did not pass.
#[derive(Drop)]
pub enum Failure {
    Exception(Thrown),
    /// The exception of a fixture fault, and its text, by which alone it is told.
    FixtureFault(Thrown, PyText),
}

/// A copy of an open call.
pub(crate) fn copied_frame(alloc: Global, frame: &TraceFrame) -> Result<TraceFrame, OutOfMemory>
    ensures { IfOk result (λ f. f ≡ frame.now) }
{
    Ok(TraceFrame {
        path: PyText::from_chars(alloc, frame.path.chars())?,
        line: frame.line,
        name: PyText::from_chars(alloc, frame.name.chars())?,
    })
}

fn copied_trace(alloc: Global, trace: &Trace) -> Result<Trace, OutOfMemory>
    ensures { IfOk result (λ t. t ≡ trace.now) }
{
    let mut frames = Vec::new(alloc);
    for frame in trace.items() {
        frames.push(copied_frame(alloc, frame)?)?;
    }
    Ok(Trace::from_vec(frames))
}

pub(crate) fn copied_thrown(alloc: Global, thrown: &Thrown) -> Result<Thrown, OutOfMemory>
    ensures { IfOk result (λ t. t ≡ thrown.now) }
{
    let trace = copied_trace(alloc, &thrown.trace)?;
    Ok(Thrown {
        exc: thrown.exc,
        trace,
    })
}

fn copied_fault(alloc: Global, thrown: &Thrown, text: &PyText) -> Result<Failure, OutOfMemory>
    ensures { IfOk result (λ f. f ≡ FixtureFault thrown.now text.now) }
{
    let text = PyText::from_chars(alloc, text.chars())?;
    let thrown = copied_thrown(alloc, thrown)?;
    Ok(Failure::FixtureFault(thrown, text))
}

ghost use Rattle.fixture_calls.specs.declared.failure.Failure.TheVariants.{FixtureFault};

/// A copy of a failure: of the same exception, with the same open calls.
pub fn copied(alloc: Global, failure: &Failure) -> Result<Failure, OutOfMemory>
    ensures { IfOk result (λ f. f ≡ failure.now) }
{
    match failure {
        Failure::Exception(thrown) => Ok(Failure::Exception(copied_thrown(alloc, thrown)?)),
        Failure::FixtureFault(thrown, text) => copied_fault(alloc, thrown, text),
    }
}
