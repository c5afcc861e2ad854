// Attributes that are stored and deleted.

ghost use Rattle.std.specs.Prelude.{◌≡◌, IfOk, OnOk, Some, is_some, slice_get};
ghost use Rattle.py_values.specs.Changes.{changed};
ghost use Rattle.py_kinds.specs.Kinds.{kind_name};
ghost use Rattle.py_attributes.specs.Attributes as attributes;
ghost use Rattle.py_items.specs.Items as items;
ghost use Rattle.py_world.specs.Attributes as world;
ghost use Rattle.machine_items.specs.Changes.{attribute_told};

use py_attributes::missing::no_attribute;
use py_attributes::names::{is_args, own_value};
use py_items::subscript::object_at;
use py_source::SrcText;
use py_values::OutOfMemory;
use py_values::end::Raise;
use py_values::heap::Heap;
use py_values::names::Name;
use py_values::object::{ExceptionObj, Obj};
use py_values::value::{ObjId, Value};
use std::alloc::Global;

/// Whether names of a value may be bound.
fn takes_names(heap: &Heap, v: Value) -> bool
    ensures { result ≡ world.takes_names (items.object_at heap.now v) }
{
    match object_at(heap, v) {
        Some(Obj::Class(_) | Obj::Instance(_) | Obj::Exception(_) | Obj::Module(_)) => true,
        Some(
            Obj::Text(_)
            | Obj::List(_)
            | Obj::Tuple(_)
            | Obj::Dict(_)
            | Obj::Range(_)
            | Obj::Function(_)
            | Obj::Method(_)
            | Obj::Builtin(_)
            | Obj::Fixture(_)
            | Obj::MarkMaker
            | Obj::Mark(_)
            | Obj::Hook(_)
            | Obj::Param(_)
            | Obj::Request(_)
            | Obj::Raises(_)
            | Obj::Info(_)
            | Obj::Item(_),
        )
        | None => false,
    }
}

fn bind_of_exception(x: &mut ExceptionObj, name: Name, v: Value) -> Result<(), OutOfMemory>
    ensures { OnOk result (x.new ≡ world.exception_with name v x.old) }
{
    if is_args(&name) {
        x.args = Some(v);
        return Ok(());
    }
    x.names.bind(name, v)
}

fn unbind_of_exception(x: &mut ExceptionObj, name: &Name)
    ensures { x.new ≡ world.exception_without name.now x.old }
{
    if is_args(name) {
        x.args = None;
    } else {
        x.names.unbind(name);
    }
}

/// Binds a name of an object; an object of another kind stays as it is.
fn bind_of(obj: &mut Obj, name: Name, v: Value) -> Result<(), OutOfMemory>
    ensures { OnOk result (obj.new ≡ world.with_attribute name v obj.old) }
{
    match obj {
        Obj::Module(x) => x.names.bind(name, v),
        Obj::Class(x) => x.names.bind(name, v),
        Obj::Instance(x) => x.names.bind(name, v),
        Obj::Exception(x) => bind_of_exception(x, name, v),
        _ => Ok(()),
    }
}

/// Unbinds a name of an object; an object of another kind stays as it is.
fn unbind_of(obj: &mut Obj, name: &Name)
    ensures { obj.new ≡ world.without_attribute name.now obj.old }
{
    match obj {
        Obj::Module(x) => x.names.unbind(name),
        Obj::Class(x) => x.names.unbind(name),
        Obj::Instance(x) => x.names.unbind(name),
        Obj::Exception(x) => unbind_of_exception(x, name),
        _ => {}
    }
}

/// Binds a name of the object at a place.
pub fn bind_at(heap: &mut Heap, id: ObjId, name: Name, v: Value) -> Result<(), OutOfMemory>
    ensures { OnOk result (heap.new ≡ changed (world.with_attribute name v) id.at heap.old (slice_get heap.old id.at)) }
{
    if id.at >= heap.len() {
        return Ok(());
    }
    bind_of(heap.obj_mut(id), name, v)
}

/// Unbinds a name of the object at a place.
pub fn unbind_at(heap: &mut Heap, id: ObjId, name: &Name)
    ensures { heap.new ≡ changed (world.without_attribute name.now) id.at heap.old (slice_get heap.old id.at) }
{
    if id.at < heap.len() {
        unbind_of(heap.obj_mut(id), name);
    }
}

/// Stores an attribute, or says what is raised (Language Reference, assignment statements).
pub fn set_attribute(
    alloc: Global,
    heap: &mut Heap,
    x: Value,
    name: &SrcText,
    v: Value,
) -> Result<Option<Raise>, OutOfMemory>
    ensures { IfOk result (λ r. (r, heap.new)
        ≡ attribute_told (world.takes_names (items.object_at heap.old x)) (world.with_attribute name.now v) x (attributes.no_attribute (kind_name heap.old x) name.now) heap.old) }
{
    if takes_names(heap, x) {
        if let Value::Ref(id) = x {
            let key = Name::from_chars(alloc, name.chars())?;
            bind_at(heap, id, key, v)?;
            return Ok(None);
        }
    }
    Ok(Some(no_attribute(alloc, heap, x, name.chars())?))
}

/// Deletes an attribute, or says what is raised (Language Reference, the del statement).
pub fn unset_attribute(
    alloc: Global,
    heap: &mut Heap,
    x: Value,
    name: &SrcText,
) -> Result<Option<Raise>, OutOfMemory>
    ensures { IfOk result (λ r. (r, heap.new)
        ≡ attribute_told (is_some (attributes.own_value name.now (items.object_at heap.old x))) (world.without_attribute name.now) x (attributes.no_attribute (kind_name heap.old x) name.now) heap.old) }
{
    let key = Name::from_chars(alloc, name.chars())?;
    if own_value(heap, x, &key).is_some() {
        if let Value::Ref(id) = x {
            unbind_at(heap, id, &key);
            return Ok(None);
        }
    }
    Ok(Some(no_attribute(alloc, heap, x, name.chars())?))
}
