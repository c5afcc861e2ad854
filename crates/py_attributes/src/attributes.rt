// Attributes that are read.

ghost use Rattle.std.specs.Prelude.{◌≡◌, IfOk, slice_get};
ghost use Rattle.py_attributes.specs.Attributes as attributes;
ghost use Rattle.py_kinds.specs.Kinds.{kind_name};
ghost use Rattle.py_values.specs.Names.{find_name};
ghost use Rattle.py_values.specs.declared.value.Value.TheVariants as val;

use crate::classes::{class_value, value_by_class};
use crate::kinds::{info_attribute, item_attribute, mark_named, method_or, request_attribute};
use crate::missing::{given_or_none, through_or_none};
use crate::names::exception_value;
use py_kinds::builtins::{
    dict_method_named, list_method_named, text_method_named, tuple_method_named,
};
use py_values::OutOfMemory;
use py_values::end::Effect;
use py_values::heap::Heap;
use py_values::names::Name;
use py_values::object::{ExceptionObj, InstanceObj, Obj};
use py_values::value::{ObjId, Value};
use std::alloc::Global;

/// An attribute of an instance: a name of its own, or else one of its class.
fn instance_attribute(
    alloc: Global,
    heap: &Heap,
    v: Value,
    name: &[char],
    key: &Name,
    x: &InstanceObj,
) -> Result<Effect, OutOfMemory>
    ensures { IfOk result (λ m. m ≡ attributes.own_or (find_name key.now x.now.names)
        (attributes.through_or_none heap.now v (attributes.no_attribute (kind_name heap.now v) name.now) (attributes.class_value heap.now key.now x.now.class))) }
{
    match x.names.find(key) {
        Some(own) => Ok(Effect::Give(own, 0)),
        None => through_or_none(alloc, heap, v, name, class_value(heap, x.class, key)),
    }
}

/// An attribute of an exception: a name of its own, or else one of its class.
fn exception_attribute(
    alloc: Global,
    heap: &Heap,
    v: Value,
    name: &[char],
    key: &Name,
    x: &ExceptionObj,
) -> Result<Effect, OutOfMemory>
    ensures { IfOk result (λ m. m ≡ attributes.own_or (attributes.exception_value key.now x.now)
        (attributes.through_or_none heap.now v (attributes.no_attribute (kind_name heap.now v) name.now) (attributes.value_by_class heap.now key.now x.now.class))) }
{
    match exception_value(x, key) {
        Some(own) => Ok(Effect::Give(own, 0)),
        None => through_or_none(alloc, heap, v, name, value_by_class(heap, x.class, key)),
    }
}

/// An attribute of an object.
fn object_attribute(
    alloc: Global,
    heap: &Heap,
    id: ObjId,
    name: &[char],
) -> Result<Effect, OutOfMemory>
    ensures { IfOk result (λ m. m ≡ attributes.object_attribute heap.now (val.Ref id) id
        (attributes.no_attribute (kind_name heap.now (val.Ref id)) name.now) name.now (slice_get heap.now id.at)) }
{
    let v = Value::Ref(id);
    let key = Name::from_chars(alloc, name)?;
    match heap.get(id) {
        Some(Obj::Text(_)) => method_or(alloc, heap, v, name, text_method_named(name)),
        Some(Obj::List(_)) => method_or(alloc, heap, v, name, list_method_named(name)),
        Some(Obj::Tuple(_)) => method_or(alloc, heap, v, name, tuple_method_named(name)),
        Some(Obj::Dict(_)) => method_or(alloc, heap, v, name, dict_method_named(name)),
        Some(Obj::Class(_)) => given_or_none(alloc, heap, v, name, class_value(heap, id, &key)),
        Some(Obj::Instance(x)) => instance_attribute(alloc, heap, v, name, &key, x),
        Some(Obj::Exception(x)) => exception_attribute(alloc, heap, v, name, &key, x),
        Some(Obj::Module(x)) => given_or_none(alloc, heap, v, name, x.names.find(&key)),
        Some(Obj::MarkMaker) => mark_named(alloc, name),
        Some(Obj::Request(x)) => request_attribute(alloc, heap, v, name, x),
        Some(Obj::Info(x)) => info_attribute(alloc, heap, v, name, x),
        Some(Obj::Item(x)) => item_attribute(alloc, heap, v, name, x),
        Some(
            Obj::Range(_)
            | Obj::Function(_)
            | Obj::Method(_)
            | Obj::Builtin(_)
            | Obj::Fixture(_)
            | Obj::Mark(_)
            | Obj::Hook(_)
            | Obj::Param(_)
            | Obj::Raises(_),
        )
        | None => given_or_none(alloc, heap, v, name, None),
    }
}

/// An attribute that is read (Language Reference, attribute references).
#[tactic(auto, unfolding(crate::specs::Attributes::attribute_of))]
pub fn attribute_made(
    alloc: Global,
    heap: &Heap,
    v: Value,
    name: &[char],
) -> Result<Effect, OutOfMemory>
    ensures { IfOk result (λ m. m ≡ attributes.attribute_of heap.now v name.now) }
{
    match v {
        Value::Ref(id) => object_attribute(alloc, heap, id, name),
        Value::None | Value::Bool(_) | Value::Int(_) => {
            given_or_none(alloc, heap, v, name, None)
        }
    }
}
