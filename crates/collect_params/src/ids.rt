// The ids of parameters.

ghost use Rattle.std.specs.Prelude.{◌≡◌, ◌++◌, ◌∷◌, [], IfOk, OnOk, flat_map, map, option_copied};
ghost use Rattle.std.specs.Fmt.{decimal, signed_decimal};
ghost use Rattle.collect_params.specs.Values as written;

use crate::escaping::escaped;
use param_rows::{ParamSet, PyId, unique_ids};
use py_values::end::push_ascii;
use py_values::heap::Heap;
use py_values::object::Obj;
use py_values::value::Value;
use seq::{OutOfMemory, PyText};
use std::alloc::Global;

fn copied(alloc: Global, text: &PyText) -> Result<PyText, OutOfMemory>
    ensures { IfOk result (λ t. t ≡ text.now) }
{
    PyText::from_chars(alloc, text.chars())
}

/// The id that an object has by itself.
fn object_text(alloc: Global, obj: Option<&Obj>) -> Result<Option<PyText>, OutOfMemory>
    ensures { IfOk result (λ t. t ≡ written.object_text (option_copied obj.entry)) }
{
    match obj {
        Some(Obj::Text(text)) => Ok(Some(copied(alloc, text)?)),
        Some(Obj::Function(function)) => Ok(Some(copied(alloc, &function.name)?)),
        Some(Obj::Class(class)) => Ok(Some(copied(alloc, &class.name)?)),
        Some(
            Obj::List(_)
            | Obj::Tuple(_)
            | Obj::Dict(_)
            | Obj::Range(_)
            | Obj::Method(_)
            | Obj::Builtin(_)
            | Obj::Instance(_)
            | Obj::Exception(_)
            | Obj::Module(_)
            | Obj::Fixture(_)
            | Obj::MarkMaker
            | Obj::Mark(_)
            | Obj::Hook(_)
            | Obj::Param(_)
            | Obj::Request(_)
            | Obj::Raises(_)
            | Obj::Info(_)
            | Obj::Item(_),
        )
        | None => Ok(None),
    }
}

/// The name of an argument with the number of a row.
fn numbered(alloc: Global, name: &PyText, number: usize) -> Result<PyText, OutOfMemory>
    ensures { IfOk result (λ t. t ≡ name.now ++ decimal number) }
{
    let digits = format!(in alloc; "{number}")?;
    let mut chars = Vec::from_slice(alloc, name.chars())?;
    push_ascii(&mut chars, digits.as_str())?;
    Ok(PyText::from_vec(chars))
}

fn integer(alloc: Global, n: i128) -> Result<PyText, OutOfMemory>
    ensures { IfOk result (λ t. t ≡ signed_decimal n) }
{
    let digits = n.to_string(alloc)?;
    let mut chars = Vec::new(alloc);
    push_ascii(&mut chars, digits.as_str())?;
    Ok(PyText::from_vec(chars))
}

fn boolean(alloc: Global, b: bool) -> Result<PyText, OutOfMemory>
    ensures { IfOk result (λ t. t ≡ written.bool_text b) }
{
    if b {
        return PyText::from_chars(alloc, &['T', 'r', 'u', 'e']);
    }
    PyText::from_chars(alloc, &['F', 'a', 'l', 's', 'e'])
}

/// The id of an object of an argument, in a row.
fn object_id(
    alloc: Global,
    name: &PyText,
    number: usize,
    obj: Option<&Obj>,
) -> Result<PyText, OutOfMemory>
    ensures { IfOk result (λ t. t ≡ written.or_numbered name.now number (written.object_text (option_copied obj.entry))) }
{
    match object_text(alloc, obj)? {
        Some(text) => Ok(text),
        None => numbered(alloc, name, number),
    }
}

/// The id of one value of an argument, in a row.
#[tactic(auto, unfolding(crate::specs::Values::value_id))]
pub fn value_id(
    alloc: Global,
    heap: &Heap,
    name: &PyText,
    number: usize,
    v: Value,
) -> Result<PyText, OutOfMemory>
    ensures { IfOk result (λ t. t ≡ written.value_id heap.now name.now number v) }
{
    match v {
        Value::None => PyText::from_chars(alloc, &['N', 'o', 'n', 'e']),
        Value::Bool(b) => boolean(alloc, b),
        Value::Int(n) => integer(alloc, n),
        Value::Ref(id) => object_id(alloc, name, number, heap.get(id)),
    }
}

fn push_id(
    alloc: Global,
    ids: &mut Vec<PyText>,
    heap: &Heap,
    name: &PyText,
    number: usize,
    v: Value,
) -> Result<(), OutOfMemory>
    ensures { OnOk result (ids.new.items ≡ ids.old.items ++ written.value_id heap.now name.now number v ∷ []) }
{
    let id = value_id(alloc, heap, name, number, v)?;
    ids.push(id)?;
    Ok(())
}

/// The ids of the values of a row, each with the name of its argument.
fn value_ids(
    alloc: Global,
    heap: &Heap,
    number: usize,
    names: &[PyText],
    values: &[Value],
) -> Result<Vec<PyText>, OutOfMemory>
    ensures { IfOk result (λ ids. ids.items ≡ written.value_ids heap.now number names.now values.now) }
{
    let mut ids = Vec::new(alloc);
    for at in 0..names.len().min(values.len()) {
        push_id(alloc, &mut ids, heap, &names[at], number, values[at])?;
    }
    Ok(ids)
}

/// The ids of the values of a parameter, for each of which one name serves.
fn values_ids(
    alloc: Global,
    heap: &Heap,
    number: usize,
    name: &PyText,
    values: &[Value],
) -> Result<Vec<PyText>, OutOfMemory>
    ensures { IfOk result (λ ids. ids.items ≡ map (written.value_id heap.now name.now number) values.now) }
{
    let mut ids = Vec::new(alloc);
    for v in values {
        push_id(alloc, &mut ids, heap, name, number, *v)?;
    }
    Ok(ids)
}

fn push_behind_dash(id: &mut Vec<char>, one: &PyText) -> Result<(), OutOfMemory>
    ensures { OnOk result (id.new.items ≡ id.old.items ++ written.behind_dash one.now) }
{
    id.push('-')?;
    id.extend_from_slice(one.chars())?;
    Ok(())
}

fn push_all_behind_dash(id: &mut Vec<char>, ids: &[PyText]) -> Result<(), OutOfMemory>
    ensures { OnOk result (id.new.items ≡ id.old.items ++ flat_map written.behind_dash ids.now) }
{
    for one in ids {
        push_behind_dash(id, one)?;
    }
    Ok(())
}

/// Ids side by side, with `-` between.
pub fn dashed(alloc: Global, ids: &[PyText]) -> Result<Vec<char>, OutOfMemory>
    ensures { IfOk result (λ id. id.items ≡ written.dashed ids.now) }
{
    let mut id = Vec::new(alloc);
    if let Some((first, rest)) = ids.split_first() {
        id.extend_from_slice(first.chars())?;
        push_all_behind_dash(&mut id, rest)?;
    }
    Ok(id)
}

fn set_id(
    alloc: Global,
    heap: &Heap,
    names: &[PyText],
    number: usize,
    set: &ParamSet<Value>,
) -> Result<PyText, OutOfMemory>
    ensures { IfOk result (λ id. id ≡ written.set_id heap.now names.now number set.now) }
{
    match &set.id {
        Some(id) => escaped(alloc, id.chars()),
        None => {
            let ids = value_ids(alloc, heap, number, names, set.values.items())?;
            let made = dashed(alloc, &ids)?;
            escaped(alloc, &made)
        }
    }
}

fn param_id(
    alloc: Global,
    heap: &Heap,
    name: &PyText,
    number: usize,
    set: &ParamSet<Value>,
) -> Result<PyText, OutOfMemory>
    ensures { IfOk result (λ id. id ≡ written.param_id heap.now name.now number set.now) }
{
    match &set.id {
        Some(id) => escaped(alloc, id.chars()),
        None => {
            let ids = values_ids(alloc, heap, number, name, set.values.items())?;
            let made = dashed(alloc, &ids)?;
            escaped(alloc, &made)
        }
    }
}

fn push_set_id(
    alloc: Global,
    ids: &mut Vec<PyId>,
    heap: &Heap,
    names: &[PyText],
    number: usize,
    set: &ParamSet<Value>,
) -> Result<(), OutOfMemory>
    ensures { OnOk result (ids.new.items ≡ ids.old.items ++ written.set_id heap.now names.now number set.now ∷ []) }
{
    let id = set_id(alloc, heap, names, number, set)?;
    ids.push(id)?;
    Ok(())
}

fn made_set_ids(
    alloc: Global,
    heap: &Heap,
    names: &[PyText],
    sets: &[ParamSet<Value>],
) -> Result<Vec<PyId>, OutOfMemory>
    ensures { IfOk result (λ ids. ids.items ≡ written.set_ids_from heap.now names.now 0 sets.now) }
{
    let mut ids = Vec::new(alloc);
    for number in 0..sets.len() {
        push_set_id(alloc, &mut ids, heap, names, number, &sets[number])?;
    }
    Ok(ids)
}

/// The ids of the sets of a `parametrize` with these names; equal ones are told apart.
#[tactic(auto, unfolding(crate::specs::Values::set_ids))]
pub fn set_ids(
    alloc: Global,
    heap: &Heap,
    names: &[PyText],
    sets: &[ParamSet<Value>],
) -> Result<Vec<PyId>, OutOfMemory>
    ensures { IfOk result (λ ids. ids.items ≡ written.set_ids heap.now names.now sets.now) }
{
    let made = made_set_ids(alloc, heap, names, sets)?;
    unique_ids(alloc, &made)
}

fn push_param_id(
    alloc: Global,
    ids: &mut Vec<PyId>,
    heap: &Heap,
    name: &PyText,
    number: usize,
    set: &ParamSet<Value>,
) -> Result<(), OutOfMemory>
    ensures { OnOk result (ids.new.items ≡ ids.old.items ++ written.param_id heap.now name.now number set.now ∷ []) }
{
    let id = param_id(alloc, heap, name, number, set)?;
    ids.push(id)?;
    Ok(())
}

fn made_param_ids(
    alloc: Global,
    heap: &Heap,
    name: &PyText,
    sets: &[ParamSet<Value>],
) -> Result<Vec<PyId>, OutOfMemory>
    ensures { IfOk result (λ ids. ids.items ≡ written.param_ids_from heap.now name.now 0 sets.now) }
{
    let mut ids = Vec::new(alloc);
    for number in 0..sets.len() {
        push_param_id(alloc, &mut ids, heap, name, number, &sets[number])?;
    }
    Ok(ids)
}

/// The ids of the parameters of a fixture with this name; equal ones are told apart.
#[tactic(auto, unfolding(crate::specs::Values::param_ids))]
pub fn param_ids(
    alloc: Global,
    heap: &Heap,
    name: &PyText,
    sets: &[ParamSet<Value>],
) -> Result<Vec<PyId>, OutOfMemory>
    ensures { IfOk result (λ ids. ids.items ≡ written.param_ids heap.now name.now sets.now) }
{
    let made = made_param_ids(alloc, heap, name, sets)?;
    unique_ids(alloc, &made)
}
