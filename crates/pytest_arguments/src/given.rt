// Arguments by their kinds.

ghost use Rattle.std.specs.Prelude.{◌≡◌, IfOk, option_copied};
ghost use Rattle.std.specs.List.{list_all};
ghost use Rattle.pytest_arguments.specs.Given as given;

use py_operands::texts::text_of;
use py_values::heap::Heap;
use py_values::object::Obj;
use py_values::rows::Values;
use py_values::value::Value;
use py_values::{OutOfMemory, PyText};
use std::alloc::Global;

/// Whether a value is a boolean.
pub fn is_boolean(v: Value) -> bool
    ensures { result ≡ given.is_boolean v }
{
    match v {
        Value::Bool(_) => true,
        Value::None | Value::Int(_) | Value::Ref(_) => false,
    }
}

/// Whether a boolean is given, or nothing.
pub fn boolean_or_absent(v: Option<Value>) -> bool
    ensures { result ≡ given.if_given given.is_boolean v }
{
    match v {
        Some(v) => is_boolean(v),
        None => true,
    }
}

/// Whether a value is a text.
pub fn is_text_value(heap: &Heap, v: Value) -> bool
    ensures { result ≡ given.is_text_value heap.now v }
{
    text_of(heap, v).is_some()
}

/// Whether a text is given, or nothing.
pub fn text_or_absent(heap: &Heap, v: Option<Value>) -> bool
    ensures { result ≡ given.if_given (given.is_text_value heap.now) v }
{
    match v {
        Some(v) => is_text_value(heap, v),
        None => true,
    }
}

fn text_or_none(heap: &Heap, v: Value) -> bool
    ensures { result ≡ given.unless_none (given.is_text_value heap.now) v }
{
    match v {
        Value::None => true,
        Value::Bool(_) | Value::Int(_) | Value::Ref(_) => is_text_value(heap, v),
    }
}

/// Whether a text is given, or `None`, or nothing.
pub fn no_other_than_text(heap: &Heap, v: Option<Value>) -> bool
    ensures { result ≡ given.if_given (given.unless_none (given.is_text_value heap.now)) v }
{
    match v {
        Some(v) => text_or_none(heap, v),
        None => true,
    }
}

/// The elements of a list or tuple.
pub fn row_at(heap: &Heap, v: Value) -> Option<&Values>
    ensures { option_copied result ≡ given.row_at heap.now v }
{
    let Value::Ref(id) = v else {
        return None;
    };
    match heap.get(id) {
        Some(Obj::List(vs) | Obj::Tuple(vs)) => Some(vs),
        _ => None,
    }
}

/// Whether a value is a list or tuple.
pub fn is_row(heap: &Heap, v: Value) -> bool
    ensures { result ≡ given.is_row heap.now v }
{
    row_at(heap, v).is_some()
}

fn row_or_none(heap: &Heap, v: Value) -> bool
    ensures { result ≡ given.unless_none (given.is_row heap.now) v }
{
    match v {
        Value::None => true,
        Value::Bool(_) | Value::Int(_) | Value::Ref(_) => is_row(heap, v),
    }
}

/// Whether a list or tuple is given, or `None`, or nothing.
pub fn no_other_than_row(heap: &Heap, v: Option<Value>) -> bool
    ensures { result ≡ given.if_given (given.unless_none (given.is_row heap.now)) v }
{
    match v {
        Some(v) => row_or_none(heap, v),
        None => true,
    }
}

/// Whether all values are texts.
pub fn each_is_text(heap: &Heap, values: &[Value]) -> bool
    ensures { result ≡ list_all (given.is_text_value heap.now) values.now }
{
    values.iter().all(|v| is_text_value(heap, *v))
}

/// Whether a value is a list or tuple of texts.
pub fn are_texts(heap: &Heap, v: Value) -> bool
    ensures { result ≡ given.are_texts heap.now v }
{
    match row_at(heap, v) {
        Some(vs) => each_is_text(heap, vs.items()),
        None => false,
    }
}

/// Whether each value is a text, or `None`.
fn each_is_id(heap: &Heap, ids: &[Value]) -> bool
    ensures { result ≡ list_all (given.unless_none (given.is_text_value heap.now)) ids.now }
{
    ids.iter().all(|v| text_or_none(heap, *v))
}

/// Whether a value is a list or tuple of ids, of which `None` is none.
fn are_ids(heap: &Heap, v: Value) -> bool
    ensures { result ≡ given.are_ids heap.now v }
{
    match row_at(heap, v) {
        Some(ids) => each_is_id(heap, ids.items()),
        None => false,
    }
}

fn ids_or_none(heap: &Heap, v: Value) -> bool
    ensures { result ≡ given.unless_none (given.are_ids heap.now) v }
{
    match v {
        Value::None => true,
        Value::Bool(_) | Value::Int(_) | Value::Ref(_) => are_ids(heap, v),
    }
}

/// Whether a list or tuple of ids is given, or `None`, or nothing.
pub fn no_other_than_ids(heap: &Heap, v: Option<Value>) -> bool
    ensures { result ≡ given.if_given (given.unless_none (given.are_ids heap.now)) v }
{
    match v {
        Some(v) => ids_or_none(heap, v),
        None => true,
    }
}

/// The boolean that is given; false where none is.
pub fn boolean_given(v: Option<Value>) -> bool
    ensures { result ≡ given.boolean_given v }
{
    match v {
        Some(Value::Bool(b)) => b,
        _ => false,
    }
}

fn text_copied(alloc: Global, text: Option<&PyText>) -> Result<Option<PyText>, OutOfMemory>
    ensures { IfOk result (λ t. t ≡ option_copied text.entry) }
{
    match text {
        Some(text) => Ok(Some(PyText::from_chars(alloc, text.chars())?)),
        None => Ok(None),
    }
}

/// The text that is given, where one is.
pub fn text_given(
    alloc: Global,
    heap: &Heap,
    v: Option<Value>,
) -> Result<Option<PyText>, OutOfMemory>
    ensures { IfOk result (λ t. t ≡ given.text_given heap.now v) }
{
    match v {
        Some(v) => text_copied(alloc, text_of(heap, v)),
        None => Ok(None),
    }
}

/// The same values in a row of their own.
pub fn values_copied(alloc: Global, values: &[Value]) -> Result<Values, OutOfMemory>
    ensures { IfOk result (λ vs. vs ≡ values.now) }
{
    let mut items = Vec::new(alloc);
    items.extend_from_slice(values)?;
    Ok(Values::from_vec(items))
}

fn row_copied(alloc: Global, row: Option<&Values>) -> Result<Option<Values>, OutOfMemory>
    ensures { IfOk result (λ vs. vs ≡ option_copied row.entry) }
{
    match row {
        Some(vs) => Ok(Some(values_copied(alloc, vs.items())?)),
        None => Ok(None),
    }
}

/// The elements of the list or tuple that is given, where one is.
pub fn row_given(
    alloc: Global,
    heap: &Heap,
    v: Option<Value>,
) -> Result<Option<Values>, OutOfMemory>
    ensures { IfOk result (λ vs. vs ≡ given.row_given heap.now v) }
{
    match v {
        Some(v) => row_copied(alloc, row_at(heap, v)),
        None => Ok(None),
    }
}
