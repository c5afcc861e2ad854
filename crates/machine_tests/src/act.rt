// What is done in a world, and what is told of it.

use crate::frames::{abandon_told, begin_told, send_told, throw_told};
use crate::told::{MemoryResult, copied, ended_told, repr_told, string};
use py_machine::{
    Frozen, ModuleId, World, call, fault, heap, line, names, run_module, take_printed,
};
use py_source::{Pos, SourceFault};
use py_values::heap::Heap;
use py_values::names::Name;
use py_values::object::Obj;
use py_values::value::Value;
use py_world::Outcome;
use seq::PyText;
use std::alloc::Global;

fn load_told(alloc: Global, world: &mut World, path: &str, budget: u64) -> MemoryResult<String> {
    let ended = run_module(world, path, budget)?;
    ended_told(alloc, world, &ended)
}

/// The module of a path, where it was loaded.
fn module_at(world: &mut World, path: &str) -> MemoryResult<Option<ModuleId>> {
    let ended = run_module(world, path, 0)?;
    match &ended.out {
        Outcome::Value(Value::Ref(id)) => Ok(Some(*id)),
        Outcome::Value(_) | Outcome::Raised(_) | Outcome::Exhausted(_) => Ok(None),
    }
}

/// A whole number, or the value of a module's name; `None` where there is none.
fn value_of(alloc: Global, heap: &Heap, id: ModuleId, spelled: &str) -> MemoryResult<Value> {
    if let Ok(n) = spelled.parse::<i128>() {
        return Ok(Value::Int(n));
    }
    let name = Name::from_text(PyText::from_str(alloc, spelled)?);
    match heap.get(id) {
        Some(Obj::Module(found)) => Ok(found.names.find(&name).unwrap_or(Value::None)),
        _ => Ok(Value::None),
    }
}

/// Values that are spelled with blanks between them.
fn values_of(alloc: Global, heap: &Heap, id: ModuleId, spelled: &str) -> MemoryResult<Vec<Value>> {
    let mut all = Vec::new(alloc);
    for part in spelled.split_whitespace() {
        all.push(value_of(alloc, heap, id, part)?)?;
    }
    Ok(all)
}

/// The values that are spelled behind the path of a module; none where it wasn't loaded.
pub fn values_at(alloc: Global, world: &mut World, spelled: &str) -> MemoryResult<Vec<Value>> {
    let (path, spelled) = spelled.split_once(' ').unwrap_or((spelled, ""));
    match module_at(world, path)? {
        Some(id) => values_of(alloc, heap(world), id, spelled),
        None => Ok(Vec::new(alloc)),
    }
}

/// What is told of a call that is spelled as a path, a name and arguments.
fn call_told(alloc: Global, world: &mut World, spelled: &str, budget: u64) -> MemoryResult<String> {
    let values = values_at(alloc, world, spelled)?;
    let Some((f, args)) = values.split_first() else {
        return copied(alloc, "no name");
    };
    let ended = call(world, *f, args, budget)?;
    ended_told(alloc, world, &ended)
}

/// A module's names with their values, in order of first binding.
fn bindings_told(alloc: Global, world: &World, id: ModuleId) -> MemoryResult<String> {
    let mut all = String::new(alloc);
    let Some(Obj::Module(_)) = heap(world).get(id) else {
        return Ok(all);
    };
    for at in 0..usize::MAX {
        let Some((name, v)) = names(world, id, at) else {
            return Ok(all);
        };
        let name = string(alloc, name)?;
        let text = repr_told(alloc, heap(world), v)?;
        let comma = if all.is_empty() { "" } else { ", " };
        let told = format!(in alloc; "{comma}{name} = {text}")?;
        all.push_str(told.as_str())?;
    }
    Ok(all)
}

fn names_told(alloc: Global, world: &mut World, path: &str) -> MemoryResult<String> {
    match module_at(world, path)? {
        Some(id) => bindings_told(alloc, world, id),
        None => copied(alloc, "no module"),
    }
}

fn fault_told(alloc: Global, world: &World, path: &str) -> MemoryResult<String> {
    match fault(world, path) {
        Some(SourceFault::Syntax(Pos { line, column }, kind)) => {
            let text = kind.text();
            Ok(format!(in alloc; "{text} at {line}:{column}")?)
        }
        Some(SourceFault::NotUtf8(line)) => Ok(format!(in alloc; "not UTF-8 at {line}")?),
        None => copied(alloc, "no fault"),
    }
}

fn line_told(alloc: Global, world: &World, spelled: &str) -> MemoryResult<String> {
    let (path, number) = spelled.split_once(' ').unwrap_or((spelled, ""));
    match line(world, path, number.parse::<u32>().unwrap_or(0)) {
        Some(text) => Ok(format!(in alloc; "|{text}|")?),
        None => copied(alloc, "no line"),
    }
}

fn act_told(
    alloc: Global,
    world: &mut World,
    frame: &mut Option<Frozen>,
    what: &str,
    budget: u64,
) -> MemoryResult<String> {
    let (word, rest) = what.split_once(' ').unwrap_or((what, ""));
    match word {
        "load" => load_told(alloc, world, rest, budget),
        "call" => call_told(alloc, world, rest, budget),
        "begin" => begin_told(alloc, world, frame, rest, budget),
        "send" => send_told(alloc, world, frame, rest, budget),
        "throw" => throw_told(alloc, world, frame, rest, budget),
        "abandon" => abandon_told(alloc, world, frame),
        "names" => names_told(alloc, world, rest),
        "fault" => fault_told(alloc, world, rest),
        "line" => line_told(alloc, world, rest),
        _ => copied(alloc, "no act"),
    }
}

/// Does an act within a budget: what is told of its end, and what it printed. A body that stops at a `yield` has its frame kept.
pub fn done(
    alloc: Global,
    world: &mut World,
    frame: &mut Option<Frozen>,
    what: &str,
    budget: u64,
) -> MemoryResult<String> {
    let told = act_told(alloc, world, frame, what, budget)?;
    let printed = take_printed(world);
    let shown = String::from_utf8_lossy(alloc, &printed)?;
    Ok(format!(in alloc; "{told}\n{shown}")?)
}
