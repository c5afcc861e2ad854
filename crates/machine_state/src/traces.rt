// The traces of exceptions.

ghost use Rattle.std.specs.Prelude.{◌≡◌, [], IfOk, OnOk, option_copied};
ghost use Rattle.core_meaning.specs.py_world.World.{put_trace, trace_at};

use core_meaning::{Trace, TraceFrame};
use indexmap::IndexMap;
use seq::{OutOfMemory, PyText};
use std::alloc::Global;
use std::marker::Model;

/// The same text.
pub fn copy_text(alloc: Global, text: &PyText) -> Result<PyText, OutOfMemory>
    ensures { IfOk result (λ t. t ≡ text.now) }
{
    PyText::from_chars(alloc, text.chars())
}

/// The same trace.
pub fn copy_trace(alloc: Global, trace: &Trace) -> Result<Trace, OutOfMemory>
    ensures { IfOk result (λ t. t ≡ trace.now) }
{
    let mut frames = Vec::new(alloc);
    for frame in trace.items() {
        frames.push(TraceFrame {
            path: copy_text(alloc, &frame.path)?,
            line: frame.line,
            name: copy_text(alloc, &frame.name)?,
        })?;
    }
    Ok(Trace::from_vec(frames))
}

/// The traces with which exceptions were first raised, by the places of their objects.
pub struct Traces {
    map: IndexMap<usize, Trace>,
}

impl Drop for Traces {
    fn drop(self) {
        let Traces { map: _ } = self;
    }
}

impl Model for Traces {
    ghost use Rattle.std.specs.Prelude.{List, ℕ};
    ghost use Rattle.core_meaning.specs.py_world.declared.trace.TraceFrame.{TraceFrame};

    ghost Value = { List (ℕ × List TraceFrame) };

    ghost view = { λ t. t.map.entries };
}

impl Traces {
    /// No trace is kept.
    pub fn new(alloc: Global) -> Self
        ensures { result ≡ [] }
    {
        Traces {
            map: IndexMap::new(alloc),
        }
    }

    /// The trace of the exception whose object stands at a place.
    pub fn find(&self, at: usize) -> Option<&Trace>
        ensures { option_copied result ≡ trace_at at self.now }
    {
        self.map.get(&at)
    }

    /// Keeps the trace of an exception.
    pub fn put(&mut self, at: usize, trace: Trace) -> Result<(), OutOfMemory>
        ensures { OnOk result (self.new ≡ put_trace at trace self.old) }
    {
        self.map.insert(at, trace)?;
        Ok(())
    }
}
