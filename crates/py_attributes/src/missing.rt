// Attributes that are there, or are not.

ghost use Rattle.std.specs.Prelude.{◌≡◌, ◌++◌, IfOk, OnOk};
ghost use Rattle.py_attributes.specs.Attributes as attributes;
ghost use Rattle.py_kinds.specs.Kinds.{kind_name};

use py_kinds::kinds::push_kind;
use py_values::OutOfMemory;
use py_values::class::ExcClass;
use py_values::end::{Effect, Raise, push_ascii};
use py_values::heap::Heap;
use py_values::object::{MethodObj, Obj};
use py_values::value::Value;
use std::alloc::Global;

/// Puts a name between two texts behind other characters.
fn push_between(
    text: &mut Vec<char>,
    front: &str,
    name: &[char],
    back: &str,
) -> Result<(), OutOfMemory>
    ensures { OnOk result (text.new.items ≡ text.old.items ++ (front.now ++ (name.now ++ back.now))) }
{
    push_ascii(text, front)?;
    text.extend_from_slice(name)?;
    push_ascii(text, back)
}

/// What is raised where a value has no attribute of a name.
pub fn no_attribute(
    alloc: Global,
    heap: &Heap,
    v: Value,
    name: &[char],
) -> Result<Raise, OutOfMemory>
    ensures { IfOk result (λ r. r ≡ attributes.no_attribute (kind_name heap.now v) name.now) }
{
    let mut text = Vec::new(alloc);
    push_ascii(&mut text, "'")?;
    push_kind(&mut text, heap, v)?;
    push_between(&mut text, "' object has no attribute '", name, "'")?;
    let raise = Raise::from_chars(alloc, ExcClass::AttributeError, &text)?;
    Ok(raise)
}

/// A value, or that there is no attribute.
pub(crate) fn given_or_none(
    alloc: Global,
    heap: &Heap,
    v: Value,
    name: &[char],
    found: Option<Value>,
) -> Result<Effect, OutOfMemory>
    ensures { IfOk result (λ m. m ≡ attributes.given_or_none (attributes.no_attribute (kind_name heap.now v) name.now) found) }
{
    match found {
        Some(found) => Ok(Effect::Give(found, 0)),
        None => Ok(Effect::Fail(no_attribute(alloc, heap, v, name)?, 0)),
    }
}

/// What a value of a class is through an instance of it: a function becomes a method.
fn read_through(heap: &Heap, receiver: Value, v: Value) -> Effect
    ensures { result ≡ attributes.read_through heap.now receiver v }
{
    let Value::Ref(id) = v else {
        return Effect::Give(v, 0);
    };
    match heap.get(id) {
        Some(Obj::Function(_)) => Effect::New(
            Obj::Method(MethodObj {
                function: id,
                receiver,
            }),
            0,
        ),
        _ => Effect::Give(v, 0),
    }
}

/// A value of a class that is read through an instance, or that there is no attribute.
pub(crate) fn through_or_none(
    alloc: Global,
    heap: &Heap,
    v: Value,
    name: &[char],
    found: Option<Value>,
) -> Result<Effect, OutOfMemory>
    ensures { IfOk result (λ m. m ≡ attributes.through_or_none heap.now v (attributes.no_attribute (kind_name heap.now v) name.now) found) }
{
    match found {
        Some(found) => Ok(read_through(heap, v, found)),
        None => Ok(Effect::Fail(no_attribute(alloc, heap, v, name)?, 0)),
    }
}
