// What values are to `raise` and `except`.

ghost use Rattle.std.specs.Prelude.{◌≡◌, IfOk, slice_get};
ghost use Rattle.py_world.specs.Exceptions as world;
ghost use Rattle.py_world.specs.Raising as raising;
ghost use Rattle.machine_items.specs.Raising.{raisable_of};

use py_attributes::classes::init_of;
use py_kinds::classes::{are_exc_classes, is_a, is_exc_class};
use py_values::OutOfMemory;
use py_values::class::{ClassForm, ClassRef};
use py_values::heap::Heap;
use py_values::object::Obj;
use py_values::value::{ObjId, Value};
use std::alloc::Global;

/// Whether an `except` with this value takes an exception; None where the value is no class (Language Reference, the try
/// statement).
#[tactic(auto, unfolding(py_world::specs::Exceptions::takes_exception))]
pub fn takes_exception(heap: &Heap, e: Value, class: Value) -> Option<bool>
    ensures { result ≡ world.takes_exception heap.now e class }
{
    if are_exc_classes(heap, class) {
        Some(is_a(heap, e, class))
    } else {
        None
    }
}

/// What a value is to a `raise`.
#[derive(Clone, Copy, PartialEq, Eq)]
pub enum RaiseKind {
    /// An exception of the heap.
    Exception(ObjId),
    /// A class of exceptions.
    Class(ClassRef),
    Neither,
}

/// The class that exceptions of a class object have.
pub fn class_by(id: ObjId, form: ClassForm) -> ClassRef
    ensures { result ≡ world.class_by id form }
{
    match form {
        ClassForm::Exception(class) => ClassRef::Builtin(class),
        ClassForm::Source | ClassForm::Kind(_) => ClassRef::Defined(id),
    }
}

fn class_or_neither(is_class: bool, id: ObjId, form: ClassForm) -> RaiseKind
    ensures { raisable_of result ≡ world.class_or_neither is_class id form }
{
    if is_class {
        RaiseKind::Class(class_by(id, form))
    } else {
        RaiseKind::Neither
    }
}

fn raisable_object(heap: &Heap, id: ObjId) -> RaiseKind
    ensures { raisable_of result ≡ world.raisable_object heap.now id (slice_get heap.now id.at) }
{
    match heap.get(id) {
        Some(Obj::Class(x)) => class_or_neither(is_exc_class(heap, Value::Ref(id)), id, x.form),
        Some(Obj::Exception(_)) => RaiseKind::Exception(id),
        Some(
            Obj::Text(_)
            | Obj::List(_)
            | Obj::Tuple(_)
            | Obj::Dict(_)
            | Obj::Range(_)
            | Obj::Function(_)
            | Obj::Method(_)
            | Obj::Builtin(_)
            | Obj::Instance(_)
            | Obj::Module(_)
            | Obj::Fixture(_)
            | Obj::MarkMaker
            | Obj::Mark(_)
            | Obj::Hook(_)
            | Obj::Param(_)
            | Obj::Request(_)
            | Obj::Raises(_)
            | Obj::Info(_)
            | Obj::Item(_),
        )
        | None => RaiseKind::Neither,
    }
}

/// What a value is to a `raise` (Language Reference, the raise statement).
#[tactic(auto, unfolding(py_world::specs::Exceptions::raisable))]
pub fn raisable(heap: &Heap, v: Value) -> RaiseKind
    ensures { raisable_of result ≡ world.raisable heap.now v }
{
    match v {
        Value::Ref(id) => raisable_object(heap, id),
        Value::None | Value::Bool(_) | Value::Int(_) => RaiseKind::Neither,
    }
}

/// The `__init__` of a class, where it is one of exceptions.
fn init_if(
    alloc: Global,
    heap: &Heap,
    is_class: bool,
    id: ObjId,
) -> Result<Option<Value>, OutOfMemory>
    ensures { IfOk result (λ v. v ≡ raising.init_if is_class heap.now id) }
{
    if is_class {
        init_of(alloc, heap, id)
    } else {
        Ok(None)
    }
}

/// The `__init__` of a value that is a class of exceptions, where it has one.
#[tactic(auto, unfolding(py_world::specs::Raising::raise_init))]
pub fn raise_init(alloc: Global, heap: &Heap, v: Value) -> Result<Option<Value>, OutOfMemory>
    ensures { IfOk result (λ init. init ≡ raising.raise_init heap.now v) }
{
    match v {
        Value::Ref(id) => init_if(alloc, heap, is_exc_class(heap, v), id),
        Value::None | Value::Bool(_) | Value::Int(_) => Ok(None),
    }
}
