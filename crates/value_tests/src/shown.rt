// What is told of values and of ends.

use crate::spelled::{MemoryResult, copied};
use py_kinds::kinds::{class_name, kind_name};
use py_kinds::truth::truth;
use py_repr::repr::{repr, str};
use py_repr::shown::Shown;
use py_values::PyText;
use py_values::end::{OpEnd, Raise};
use py_values::heap::Heap;
use py_values::value::Value;
use std::alloc::Global;

/// Puts the characters of a text behind what is told.
pub fn push_text(all: &mut String, text: &PyText) -> MemoryResult<()> {
    for c in text.chars() {
        all.push(*c)?;
    }
    Ok(())
}

/// A text of the language as UTF-8.
pub fn string(alloc: Global, text: &PyText) -> MemoryResult<String> {
    let mut all = String::new(alloc);
    push_text(&mut all, text)?;
    Ok(all)
}

/// A value's repr, up to 200 characters.
pub fn repr_told(alloc: Global, heap: &Heap, v: Value) -> MemoryResult<String> {
    let shown = repr(alloc, heap, v, 200)?;
    string(alloc, &shown.text)
}

fn str_told(alloc: Global, heap: &Heap, v: Value) -> MemoryResult<String> {
    let shown = str(alloc, heap, v, 200)?;
    string(alloc, &shown.text)
}

fn kind_told(alloc: Global, heap: &Heap, v: Value) -> MemoryResult<String> {
    let name = kind_name(alloc, heap, v)?;
    string(alloc, &name)
}

/// A value's kind, repr, text and truth.
pub fn value_told(alloc: Global, heap: &Heap, v: Value) -> MemoryResult<String> {
    let kind = kind_told(alloc, heap, v)?;
    let repr = repr_told(alloc, heap, v)?;
    let str = str_told(alloc, heap, v)?;
    let truth = truth(heap, v);
    Ok(format!(in alloc; "{kind}|{repr}|{str}|{truth}")?)
}

/// How long what is shown of a value is, whether it is cut, and whether a value in it lies too deep.
pub fn length_told(alloc: Global, shown: &Shown) -> MemoryResult<String> {
    let length = shown.text.chars().len();
    let cut = shown.cut;
    let deep = shown.deep;
    Ok(format!(in alloc; "{length} {cut} {deep}")?)
}

/// An exception's class, and its text or the repr of its argument.
pub fn raised(alloc: Global, heap: &Heap, raise: &Raise) -> MemoryResult<String> {
    let class = class_name(raise.class);
    let text = match raise.arg {
        Some(v) => repr_told(alloc, heap, v),
        None => string(alloc, &raise.text),
    };
    let text = text?;
    Ok(format!(in alloc; "{class}: {text}")?)
}

/// What is told of an end, but for its cost.
fn what(alloc: Global, heap: &Heap, end: &OpEnd) -> MemoryResult<String> {
    match end {
        OpEnd::Value(v, _) => repr_told(alloc, heap, *v),
        OpEnd::Raised(raise, _) => raised(alloc, heap, raise),
        OpEnd::Exhausted => copied(alloc, "exhausted"),
    }
}

/// The steps of an end.
pub fn cost(end: &OpEnd) -> u64 {
    match end {
        OpEnd::Value(_, cost) => *cost,
        OpEnd::Raised(_, cost) => *cost,
        OpEnd::Exhausted => 0,
    }
}

/// A value's repr, or an exception's class and text, and the cost.
pub fn ended(alloc: Global, heap: &Heap, end: &OpEnd) -> MemoryResult<String> {
    let text = what(alloc, heap, end)?;
    if let OpEnd::Exhausted = end {
        return Ok(text);
    }
    let cost = cost(end);
    Ok(format!(in alloc; "{text} {cost}")?)
}
