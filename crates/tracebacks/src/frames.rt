// Open calls, with their source lines.

ghost use Rattle.std.specs.Prelude.{◌≡◌, IfOk, option_map};
ghost use Rattle.tracebacks.specs.Frames as frames;
ghost use Rattle.tracebacks.specs.Lines.{told_line};

use py_machine::{World, line};
use py_values::object::FunctionObj;
use py_world::{Trace, TraceFrame};
use report_parts::{Frame, Frames, Text, Told};
use seq::{OutOfMemory, PyText, encoded};
use std::alloc::Global;

/// A line of a source as a text of its own.
fn source_of(alloc: Global, text: Option<&str>) -> Result<Option<Text>, OutOfMemory>
    ensures { IfOk result (λ t. t ≡ option_map told_line text.entry) }
{
    let Some(text) = text else {
        return Ok(None);
    };
    Ok(Some(Text::from_string(String::from_str(alloc, text)?)))
}

/// An open call, with its source line.
pub fn frame_told(alloc: Global, world: &World, frame: &TraceFrame) -> Result<Frame, OutOfMemory>
    ensures { IfOk result (λ f. f ≡ frames.frame_told world.now.sources frame.now) }
{
    let file = encoded(alloc, frame.path.chars())?;
    let source = source_of(alloc, line(world, file.text(), frame.line))?;
    Ok(Frame {
        line: frame.line,
        name: encoded(alloc, frame.name.chars())?,
        source,
        file,
    })
}

/// What is told of an exception with this text and this trace.
pub fn told(alloc: Global, world: &World, trace: &Trace, text: PyText) -> Result<Told, OutOfMemory>
    ensures { IfOk result (λ t. t ≡ frames.told world.now.sources trace.now text) }
{
    let mut frames = Vec::new(alloc);
    for frame in trace.items() {
        frames.push(frame_told(alloc, world, frame)?)?;
    }
    Ok(Told {
        frames: Frames::from_vec(frames),
        text,
    })
}

/// The place of a function's `def`.
pub fn def_frame(alloc: Global, function: &FunctionObj) -> Result<TraceFrame, OutOfMemory>
    ensures { IfOk result (λ f. f ≡ frames.def_frame function.now) }
{
    Ok(TraceFrame {
        path: PyText::from_chars(alloc, function.path.chars())?,
        line: function.line,
        name: PyText::from_chars(alloc, function.name.chars())?,
    })
}
