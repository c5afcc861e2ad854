// The faults of sources.

ghost use Rattle.std.specs.Prelude.{◌≡◌, IfOk, option_map};
ghost use Rattle.tracebacks.specs.Faults as faults;
ghost use Rattle.tracebacks.specs.Lines.{source_line, told_line};

use py_machine::source_line;
use py_source::SourceFault;
use py_values::end::push_ascii;
use report_parts::{Frame, Frames, Text, Told};
use seq::{OutOfMemory, PyText};
use std::alloc::Global;

fn text_of(alloc: Global, text: &str) -> Result<Text, OutOfMemory>
    ensures { IfOk result (λ t. t ≡ text.now) }
{
    Text::from_str(alloc, text)
}

/// The line of a source, where it has one.
fn line_of(alloc: Global, bytes: &[u8], number: u32) -> Result<Option<Text>, OutOfMemory>
    ensures { IfOk result (λ t. t ≡ source_line bytes.now number) }
{
    match source_line(bytes, number) {
        Some(text) => Ok(Some(text_of(alloc, text)?)),
        None => Ok(None),
    }
}

fn frame_of(
    alloc: Global,
    file: &str,
    bytes: &[u8],
    fault: SourceFault,
) -> Result<Frame, OutOfMemory>
    ensures { IfOk result (λ f. f ≡ faults.fault_frame file.now bytes.now fault) }
{
    Ok(Frame {
        file: text_of(alloc, file)?,
        line: fault.line(),
        name: text_of(alloc, "<module>")?,
        source: line_of(alloc, bytes, fault.line())?,
    })
}

/// The text of the exception that a fault is.
pub fn fault_text(alloc: Global, fault: SourceFault) -> Result<PyText, OutOfMemory>
    ensures { IfOk result (λ t. t ≡ faults.fault_text fault) }
{
    let mut text = Vec::new(alloc);
    push_ascii(&mut text, "SyntaxError: ")?;
    push_ascii(&mut text, fault.text())?;
    Ok(PyText::from_vec(text))
}

/// What is told of the file whose source has this fault.
pub fn fault_told(
    alloc: Global,
    file: &str,
    bytes: &[u8],
    fault: SourceFault,
) -> Result<Told, OutOfMemory>
    ensures { IfOk result (λ t. t ≡ faults.fault_told file.now bytes.now fault) }
{
    let mut frames = Vec::new(alloc);
    frames.push(frame_of(alloc, file, bytes, fault)?)?;
    Ok(Told {
        frames: Frames::from_vec(frames),
        text: fault_text(alloc, fault)?,
    })
}
