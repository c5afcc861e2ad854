// Marks that rows spell: `NAME`, or `NAME(..)` with what stands between the parentheses of the call, parted by `&`: `True` or `False` for the
// condition, `reason=TEXT`, `strict=True`, `raises=CLASS`. `3` is a number, and `[..]` a mark in a list of its own.

use crate::objects::{added, builtin_class};
use crate::spelled::{MemoryResult, text};
use crate::values::name;
use py_values::heap::Heap;
use py_values::names::Names;
use py_values::object::{MarkObj, Obj};
use py_values::rows::Values;
use py_values::value::Value;
use std::alloc::Global;

/// The class of exceptions that an `xfail` covers.
fn raises(alloc: Global, heap: &mut Heap, spelled: &str) -> MemoryResult<Value> {
    if spelled == "None" {
        return Ok(Value::None);
    }
    added(heap, builtin_class(alloc, spelled)?)
}

/// The value of a named argument.
fn argument(alloc: Global, heap: &mut Heap, key: &str, spelled: &str) -> MemoryResult<Value> {
    match key {
        "reason" => added(heap, Obj::Text(text(alloc, spelled)?)),
        "raises" => raises(alloc, heap, spelled),
        _ => Ok(Value::Bool(spelled == "True")),
    }
}

fn take_argument(
    alloc: Global,
    heap: &mut Heap,
    mark: &mut MarkObj,
    part: &str,
) -> MemoryResult<()> {
    let Some((key, spelled)) = part.split_once('=') else {
        return mark.args.push(Value::Bool(part == "True"));
    };
    let v = argument(alloc, heap, key, spelled)?;
    mark.named.bind(name(alloc, key)?, v)
}

fn take_arguments(
    alloc: Global,
    heap: &mut Heap,
    mark: &mut MarkObj,
    spelled: &str,
) -> MemoryResult<()> {
    for part in spelled.split('&') {
        if !part.is_empty() {
            take_argument(alloc, heap, mark, part)?;
        }
    }
    Ok(())
}

/// A mark with the arguments of its call.
fn mark(alloc: Global, heap: &mut Heap, spelled: &str) -> MemoryResult<Value> {
    let (word, rest) = spelled.split_once('(').unwrap_or((spelled, ""));
    let arguments = rest.strip_suffix(')').unwrap_or(rest);
    let mut mark = MarkObj {
        name: text(alloc, word)?,
        args: Values::new(alloc),
        named: Names::new(alloc),
        called: true,
    };
    match take_arguments(alloc, heap, &mut mark, arguments) {
        Ok(()) => added(heap, Obj::Mark(mark)),
        Err(error) => {
            drop(mark);
            Err(error)
        }
    }
}

/// A list of one mark.
fn list(alloc: Global, heap: &mut Heap, spelled: &str) -> MemoryResult<Value> {
    let mut items = Values::new(alloc);
    items.push(mark(alloc, heap, spelled)?)?;
    added(heap, Obj::List(items))
}

/// A value of a row of marks.
pub fn marked(alloc: Global, heap: &mut Heap, spelled: &str) -> MemoryResult<Value> {
    if spelled == "3" {
        return Ok(Value::Int(3));
    }
    match spelled.strip_prefix("[") {
        Some(inner) => list(alloc, heap, inner.strip_suffix("]").unwrap_or(inner)),
        None => mark(alloc, heap, spelled),
    }
}

/// Marks with commas between them.
pub fn all_marks(alloc: Global, heap: &mut Heap, spelled: &str) -> MemoryResult<Values> {
    let mut all = Values::new(alloc);
    for part in spelled.split(',') {
        if !part.is_empty() {
            all.push(marked(alloc, heap, part)?)?;
        }
    }
    Ok(all)
}
