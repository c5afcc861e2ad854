// Attributes of objects of built-in kinds, and of those of `pytest`.

ghost use Rattle.std.specs.Prelude.{◌≡◌, IfOk, Some, option_copied};
ghost use Rattle.py_attributes.specs.Attributes as attributes;
ghost use Rattle.py_kinds.specs.Kinds.{kind_name};
ghost use Rattle.py_values.specs.Names.{name_eq};

use crate::missing::{given_or_none, no_attribute};
use py_kinds::builtins::request_method_named;
use py_values::builtin::Builtin;
use py_values::end::Effect;
use py_values::heap::Heap;
use py_values::names::Names;
use py_values::object::{BuiltinObj, InfoObj, ItemObj, MarkObj, Obj, RequestObj};
use py_values::rows::Values;
use py_values::value::Value;
use py_values::{OutOfMemory, PyText};
use std::alloc::Global;

/// A method with the value through which it is read, or that there is no attribute.
pub(crate) fn method_or(
    alloc: Global,
    heap: &Heap,
    v: Value,
    name: &[char],
    method: Option<Builtin>,
) -> Result<Effect, OutOfMemory>
    ensures { IfOk result (λ m. m ≡ attributes.method_or (attributes.no_attribute (kind_name heap.now v) name.now) v method) }
{
    match method {
        Some(which) => Ok(Effect::New(
            Obj::Builtin(BuiltinObj {
                which,
                receiver: Some(v),
            }),
            0,
        )),
        None => Ok(Effect::Fail(no_attribute(alloc, heap, v, name)?, 0)),
    }
}

fn new_text(alloc: Global, text: &PyText) -> Result<Effect, OutOfMemory>
    ensures { IfOk result (λ m. m ≡ attributes.text_or_nothing (Some text.now)) }
{
    let text = PyText::from_chars(alloc, text.chars())?;
    Ok(Effect::New(Obj::Text(text), 0))
}

/// A new text, or None where there is none.
fn text_or_nothing(alloc: Global, text: &Option<PyText>) -> Result<Effect, OutOfMemory>
    ensures { IfOk result (λ m. m ≡ attributes.text_or_nothing text.now) }
{
    match text {
        Some(text) => new_text(alloc, text),
        None => Ok(Effect::Give(Value::None, 0)),
    }
}

/// A mark of a name.
pub(crate) fn mark_named(alloc: Global, name: &[char]) -> Result<Effect, OutOfMemory>
    ensures { IfOk result (λ m. m ≡ attributes.mark_named name.now) }
{
    let mark = MarkObj {
        name: PyText::from_chars(alloc, name)?,
        args: Values::new(alloc),
        named: Names::new(alloc),
        called: false,
    };
    Ok(Effect::New(Obj::Mark(mark), 0))
}

fn is_name(name: &[char], other: &[char]) -> bool
    ensures { result ≡ name_eq name.now other.now }
{
    name == other
}

/// An attribute of what asks for fixtures (pytest's reference, `request`).
pub(crate) fn request_attribute(
    alloc: Global,
    heap: &Heap,
    v: Value,
    name: &[char],
    x: &RequestObj,
) -> Result<Effect, OutOfMemory>
    ensures { IfOk result (λ m. m ≡ attributes.request_attribute (attributes.no_attribute (kind_name heap.now v) name.now) v name.now x.now) }
{
    if is_name(name, &['p', 'a', 'r', 'a', 'm']) {
        return given_or_none(alloc, heap, v, name, x.param);
    }
    if is_name(
        name,
        &['f', 'i', 'x', 't', 'u', 'r', 'e', 'n', 'a', 'm', 'e'],
    ) {
        return text_or_nothing(alloc, &x.name);
    }
    if is_name(name, &['s', 'c', 'o', 'p', 'e']) {
        return new_text(alloc, &x.scope);
    }
    method_or(alloc, heap, v, name, request_method_named(name))
}

/// An attribute of what a `with raises` gives (pytest's reference, `ExceptionInfo`).
pub(crate) fn info_attribute(
    alloc: Global,
    heap: &Heap,
    v: Value,
    name: &[char],
    x: &InfoObj,
) -> Result<Effect, OutOfMemory>
    ensures { IfOk result (λ m. m ≡ attributes.info_attribute (attributes.no_attribute (kind_name heap.now v) name.now) name.now x.now) }
{
    if is_name(name, &['v', 'a', 'l', 'u', 'e']) {
        return given_or_none(alloc, heap, v, name, x.value);
    }
    given_or_none(alloc, heap, v, name, None)
}

/// An attribute of a test item (pytest's reference, `Item`).
pub(crate) fn item_attribute(
    alloc: Global,
    heap: &Heap,
    v: Value,
    name: &[char],
    x: &ItemObj,
) -> Result<Effect, OutOfMemory>
    ensures { IfOk result (λ m. m ≡ attributes.item_attribute (attributes.no_attribute (kind_name heap.now v) name.now) name.now x.now) }
{
    if is_name(name, &['n', 'a', 'm', 'e']) {
        return new_text(alloc, &x.name);
    }
    if is_name(name, &['n', 'o', 'd', 'e', 'i', 'd']) {
        return new_text(alloc, &x.node_id);
    }
    given_or_none(alloc, heap, v, name, None)
}
