// What is told of ends.

use py_kinds::kinds::kind_name;
use py_machine::{World, heap};
use py_repr::repr::{message, repr};
use py_values::heap::Heap;
use py_values::value::Value;
use py_world::{Ended, Outcome, Thrown, Trace, TraceFrame};
use seq::{OutOfMemory, PyText};
use std::alloc::Global;

/// What can only want memory.
pub type MemoryResult<T> = Result<T, OutOfMemory>;

/// A copy of a text.
pub fn copied(alloc: Global, text: &str) -> MemoryResult<String> {
    Ok(String::from_str(alloc, text)?)
}

/// A text of the language as UTF-8.
pub fn string(alloc: Global, text: &PyText) -> MemoryResult<String> {
    let mut all = String::new(alloc);
    for c in text.chars() {
        all.push(*c)?;
    }
    Ok(all)
}

/// A value's repr, up to 200 characters.
pub fn repr_told(alloc: Global, heap: &Heap, v: Value) -> MemoryResult<String> {
    let shown = repr(alloc, heap, v, 200)?;
    string(alloc, &shown.text)
}

/// The class of an exception and its message, up to 4,000 characters.
fn exception_told(alloc: Global, heap: &Heap, exc: Value) -> MemoryResult<String> {
    let shown = message(alloc, heap, exc, 4000)?;
    let class = kind_name(alloc, heap, exc)?;
    let mut all = string(alloc, &class)?;
    if !shown.text.chars().is_empty() {
        all.push_str(": ")?;
        all.push_str(string(alloc, &shown.text)?.as_str())?;
    }
    Ok(all)
}

fn call_told(alloc: Global, frame: &TraceFrame) -> MemoryResult<String> {
    let path = string(alloc, &frame.path)?;
    let name = string(alloc, &frame.name)?;
    let line = frame.line;
    Ok(format!(in alloc; "{path}:{line}:{name}")?)
}

/// A call that is open so many times.
fn push_call(alloc: Global, all: &mut String, call: &str, times: u64) -> MemoryResult<()> {
    let told = match times {
        0 => String::new(alloc),
        1 => format!(in alloc; " {call}")?,
        _ => format!(in alloc; " {times}*{call}")?,
    };
    Ok(all.push_str(told.as_str())?)
}

/// The open calls, outermost first, each as its path, its line and its name; those that are alike, one behind the other, as one.
fn push_calls(alloc: Global, all: &mut String, trace: &Trace) -> MemoryResult<()> {
    let mut last = String::new(alloc);
    let mut times = 0u64;
    for frame in trace.items() {
        let told = call_told(alloc, frame)?;
        if told.as_str() != last.as_str() {
            push_call(alloc, all, last.as_str(), times)?;
            last = told;
            times = 0;
        }
        times = times.saturating_add(1);
    }
    push_call(alloc, all, last.as_str(), times)
}

fn raised_told(alloc: Global, heap: &Heap, thrown: &Thrown, steps: u64) -> MemoryResult<String> {
    let text = exception_told(alloc, heap, thrown.exc)?;
    let mut all = format!(in alloc; "raises {text}, {steps} steps,")?;
    push_calls(alloc, &mut all, &thrown.trace)?;
    Ok(all)
}

fn exhausted_told(alloc: Global, trace: &Trace, steps: u64) -> MemoryResult<String> {
    let mut all = format!(in alloc; "exhausted, {steps} steps,")?;
    push_calls(alloc, &mut all, trace)?;
    Ok(all)
}

/// How a load or a call has ended.
pub fn ended_told(alloc: Global, world: &World, ended: &Ended) -> MemoryResult<String> {
    let steps = ended.steps;
    match &ended.out {
        Outcome::Value(v) => {
            let text = repr_told(alloc, heap(world), *v)?;
            Ok(format!(in alloc; "gives {text}, {steps} steps")?)
        }
        Outcome::Raised(thrown) => raised_told(alloc, heap(world), thrown, steps),
        Outcome::Exhausted(trace) => exhausted_told(alloc, trace, steps),
    }
}
