// Rows on what a call's parameters are given, and on the file that an import names, all with blanks between their words. Behind
// `arguments` stand the parameters, `NAME` or `NAME=DEFAULT`, and its operands are numbers, by place, and `NAME=NUMBER`, by name. Behind
// `import` stand the importing file's path and a dotted name, and its operands are the paths that there are.

use crate::spelled::{MemoryResult, copied, text, whole};
use py_bind::{BindFault, bind, find_module};
use py_values::value::Value;
use py_values::{OutOfMemory, PyText};
use std::alloc::Global;

fn number(spelled: &str) -> Value {
    Value::Int(whole(spelled))
}

/// A parameter, with its default where it has one.
fn parameter(alloc: Global, spelled: &str) -> MemoryResult<(PyText, Option<Value>)> {
    match spelled.split_once('=') {
        Some((name, default)) => Ok((text(alloc, name)?, Some(number(default)))),
        None => Ok((text(alloc, spelled)?, None)),
    }
}

fn parameters(alloc: Global, spelled: &str) -> MemoryResult<Vec<(PyText, Option<Value>)>> {
    let mut all = Vec::new(alloc);
    for word in spelled.split_ascii_whitespace() {
        all.push(parameter(alloc, word)?)?;
    }
    Ok(all)
}

/// The arguments by place.
fn by_place(alloc: Global, spelled: &str) -> MemoryResult<Vec<Value>> {
    let mut all = Vec::new(alloc);
    for word in spelled.split_ascii_whitespace() {
        if !word.contains('=') {
            all.push(number(word))?;
        }
    }
    Ok(all)
}

/// The arguments by name.
fn by_name(alloc: Global, spelled: &str) -> MemoryResult<Vec<(PyText, Value)>> {
    let mut all = Vec::new(alloc);
    for word in spelled.split_ascii_whitespace() {
        if let Some((name, value)) = word.split_once('=') {
            all.push((text(alloc, name)?, number(value)))?;
        }
    }
    Ok(all)
}

fn push_number(all: &mut String, v: Value) -> MemoryResult<()> {
    match v {
        Value::Int(n) => Ok(write!(all, "{n}")?),
        Value::None | Value::Bool(_) | Value::Ref(_) => Ok(all.push_str("no number")?),
    }
}

/// What is told of values.
fn numbers_told(alloc: Global, values: &[Value]) -> MemoryResult<String> {
    let mut all = String::new(alloc);
    for v in values {
        if !all.is_empty() {
            all.push(' ')?;
        }
        push_number(&mut all, *v)?;
    }
    Ok(all)
}

/// The values of a call's parameters in order.
pub fn arguments_bound(alloc: Global, params: &str, spelled: &str) -> MemoryResult<String> {
    let params = parameters(alloc, params)?;
    let args = by_place(alloc, spelled)?;
    let named = by_name(alloc, spelled)?;
    match bind(alloc, &params, &args, &named) {
        Ok(values) => numbers_told(alloc, &values),
        Err(BindFault::Wrong) => copied(alloc, "wrong"),
        Err(BindFault::OutOfMemory) => Err(OutOfMemory),
    }
}

/// The paths that there are.
fn paths_of(alloc: Global, spelled: &str) -> MemoryResult<Vec<String>> {
    let mut all = Vec::new(alloc);
    for path in spelled.split_ascii_whitespace() {
        all.push(copied(alloc, path)?)?;
    }
    Ok(all)
}

/// The names of a dotted name.
fn names_of(alloc: Global, dotted: &str) -> MemoryResult<Vec<PyText>> {
    let mut all = Vec::new(alloc);
    for name in dotted.split('.') {
        all.push(text(alloc, name)?)?;
    }
    Ok(all)
}

fn path_told(alloc: Global, paths: &[String], found: Option<usize>) -> MemoryResult<String> {
    let Some(at) = found else {
        return copied(alloc, "-");
    };
    match paths.get(at) {
        Some(path) => copied(alloc, path.as_str()),
        None => copied(alloc, "behind the paths"),
    }
}

/// The path that an import names.
pub fn imported(alloc: Global, import: &str, spelled: &str) -> MemoryResult<String> {
    let (importer, dotted) = import.split_once(' ').unwrap_or((import, ""));
    let paths = paths_of(alloc, spelled)?;
    let names = names_of(alloc, dotted)?;
    path_told(alloc, &paths, find_module(&paths, importer, &names))
}
