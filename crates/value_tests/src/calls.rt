// Rows on calls of built-in functions and methods: `call.NAME` is a function, `text.NAME`, `list.NAME`, `tuple.NAME` and `dict.NAME` are
// methods, with their receiver first. Named arguments stand behind it, each `NAME=VALUE`, with `|` between them.

use crate::shown::{cost, ended, repr_told};
use crate::spelled::{MemoryResult, Operands, characters, copied, count, text};
use py_calls::call::builtin;
use py_kinds::builtins::{
    dict_method_named, list_method_named, text_method_named, tuple_method_named,
};
use py_values::PyText;
use py_values::builtin::{BUILTINS, Builtin};
use py_values::end::OpEnd;
use py_values::value::Value;
use std::alloc::Global;

/// What is called, and whether its receiver may change.
#[derive(Clone, Copy)]
pub struct Call {
    which: Builtin,
    changes: bool,
}

fn function_named(name: &str) -> Option<Builtin> {
    for row in &BUILTINS {
        if row.0 == name {
            return Some(row.1);
        }
    }
    None
}

/// What is built in, by its group and its name.
fn built_in(alloc: Global, group: &str, name: &str) -> MemoryResult<Option<Builtin>> {
    let letters = characters(alloc, name)?;
    match group {
        "text" => Ok(text_method_named(&letters)),
        "list" => Ok(list_method_named(&letters)),
        "tuple" => Ok(tuple_method_named(&letters)),
        "dict" => Ok(dict_method_named(&letters)),
        "call" => Ok(function_named(name)),
        _ => Ok(None),
    }
}

/// What a row calls, by its word.
pub fn call_by(alloc: Global, word: &str) -> MemoryResult<Option<Call>> {
    let Some((group, name)) = word.split_once('.') else {
        return Ok(None);
    };
    match built_in(alloc, group, name)? {
        Some(which) => {
            let changes = group == "list" || group == "dict";
            Ok(Some(Call { which, changes }))
        }
        None => Ok(None),
    }
}

fn named_part(
    alloc: Global,
    on: &mut Operands,
    name: &str,
    spelled: &str,
) -> MemoryResult<(PyText, Value)> {
    on.push(alloc, spelled)?;
    let v = on.values.pop().unwrap_or(Value::None);
    Ok((text(alloc, name)?, v))
}

fn named_args(
    alloc: Global,
    on: &mut Operands,
    spelled: &str,
) -> MemoryResult<Vec<(PyText, Value)>> {
    let mut all = Vec::new(alloc);
    for part in spelled.split('|') {
        if let Some((name, v)) = part.split_once('=') {
            all.push(named_part(alloc, on, name, v)?)?;
        }
    }
    Ok(all)
}

/// What is told of a call's end behind what it printed, with the receiver behind it where it may have changed; and its steps.
fn told_of(
    alloc: Global,
    on: &Operands,
    call: Call,
    printed: &[u8],
    end: &OpEnd,
) -> MemoryResult<(String, u64)> {
    let mut all = String::from_utf8_lossy(alloc, printed)?;
    all.push_str(ended(alloc, &on.heap, end)?.as_str())?;
    if call.changes {
        all.push(' ')?;
        all.push_str(repr_told(alloc, &on.heap, on.at(0))?.as_str())?;
    }
    Ok((all, cost(end)))
}

/// What is told of a call within a budget, and its steps.
pub fn told(
    alloc: Global,
    on: &mut Operands,
    call: Call,
    named: &str,
    budget: u64,
) -> MemoryResult<(String, u64)> {
    let named = named_args(alloc, on, named)?;
    let mut printed = Vec::new(alloc);
    let end = builtin(
        alloc,
        &mut on.heap,
        &mut printed,
        call.which,
        &on.values,
        &named,
        budget,
    )?;
    told_of(alloc, on, call, &printed, &end)
}

/// What is told of a call that is spelled behind its budget.
pub fn within(alloc: Global, on: &mut Operands, spelled: &str) -> MemoryResult<String> {
    let (budget, call) = spelled.split_once(' ').unwrap_or((spelled, ""));
    let (word, named) = call.split_once(' ').unwrap_or((call, ""));
    match call_by(alloc, word)? {
        Some(call) => {
            let (text, _) = told(alloc, on, call, named, count(budget) as u64)?;
            Ok(text)
        }
        None => copied(alloc, "no row"),
    }
}
