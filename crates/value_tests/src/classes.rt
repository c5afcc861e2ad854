// Rows on classes.

use crate::objects::{added, class};
use crate::shown::value_told;
use crate::spelled::{MemoryResult, Operands, copied};
use crate::values::builtin;
use py_kinds::builtins::first_heap;
use py_kinds::classes::{is_a, root_of};
use py_kinds::kinds::class_name;
use py_values::builtin::EXCEPTIONS;
use py_values::class::{ClassForm, ClassRef, ExcClass};
use py_values::heap::Heap;
use py_values::names::Names;
use py_values::object::{InstanceObj, Obj};
use py_values::rows::Values;
use py_values::throw::throw_with;
use py_values::value::{ObjId, Value};
use std::alloc::Global;

fn new_class(
    alloc: Global,
    heap: &mut Heap,
    name: &str,
    form: ClassForm,
    base: Option<ObjId>,
) -> MemoryResult<ObjId> {
    let class = class(alloc, name, form, base, Values::new(alloc))?;
    heap.add(Obj::Class(class))
}

fn built_in(
    alloc: Global,
    heap: &mut Heap,
    name: &str,
    class: ExcClass,
    base: Option<ObjId>,
) -> MemoryResult<ObjId> {
    new_class(alloc, heap, name, ClassForm::Exception(class), base)
}

fn source(alloc: Global, heap: &mut Heap, name: &str, base: Option<ObjId>) -> MemoryResult<ObjId> {
    new_class(alloc, heap, name, ClassForm::Source, base)
}

fn pair(alloc: Global, heap: &mut Heap, a: ObjId, b: ObjId) -> MemoryResult<Value> {
    let mut items = Values::new(alloc);
    items.push(Value::Ref(a))?;
    items.push(Value::Ref(b))?;
    added(heap, Obj::Tuple(items))
}

/// An exception of a class of the sources that stands on `KeyError`; whether it is a `LookupError`, one of its own class, one of
/// another, and one of the other or of `KeyError`.
pub fn own(alloc: Global, on: &mut Operands) -> MemoryResult<String> {
    let count = on.values.len();
    let args = on.taken(alloc, count)?;
    let heap = &mut on.heap;
    let look = built_in(alloc, heap, "LookupError", ExcClass::LookupError, None)?;
    let key = built_in(alloc, heap, "KeyError", ExcClass::KeyError, Some(look))?;
    let own = source(alloc, heap, "Missing", Some(key))?;
    let other = source(alloc, heap, "Other", None)?;
    let both = pair(alloc, heap, other, key)?;
    let exc = throw_with(alloc, heap, ClassRef::Defined(own), Values::from_vec(args))?;
    let shown = value_told(alloc, heap, exc)?;
    let a = is_a(heap, exc, Value::Ref(look));
    let b = is_a(heap, exc, Value::Ref(own));
    let c = is_a(heap, exc, Value::Ref(other));
    let d = is_a(heap, exc, both);
    Ok(format!(in alloc; "{shown} {a} {b} {c} {d}")?)
}

/// The last of so many classes, each standing on the one before.
fn last_of(alloc: Global, heap: &mut Heap, first: ObjId, levels: usize) -> MemoryResult<ObjId> {
    let mut last = first;
    for _ in 0..levels {
        last = source(alloc, heap, "C", Some(last))?;
    }
    Ok(last)
}

/// Whether an instance of the last is one of the first, and whether the last stands on no class of exceptions.
pub fn chain(alloc: Global, heap: &mut Heap, levels: usize) -> MemoryResult<String> {
    let first = source(alloc, heap, "C", None)?;
    let last = last_of(alloc, heap, first, levels)?;
    let names = Names::new(alloc);
    let of = added(heap, Obj::Instance(InstanceObj { class: last, names }))?;
    let below = is_a(heap, of, Value::Ref(first));
    let none = root_of(heap, ClassRef::Defined(last)).is_none();
    Ok(format!(in alloc; "{below} {none}")?)
}

/// The names of the built-in classes of exceptions of which a value is an instance.
fn classes_of(alloc: Global, heap: &Heap, v: Value) -> MemoryResult<String> {
    let mut all = String::new(alloc);
    for class in &EXCEPTIONS {
        let name = class_name(*class);
        if is_a(heap, v, builtin(alloc, name)?) {
            if !all.is_empty() {
                all.push(' ')?;
            }
            all.push_str(name)?;
        }
    }
    Ok(all)
}

/// An exception's class, by the class's object.
fn class_of(heap: &Heap, id: ObjId) -> ClassRef {
    if let Some(Obj::Class(class)) = heap.get(id) {
        if let ClassForm::Exception(class) = class.form {
            return ClassRef::Builtin(class);
        }
    }
    ClassRef::Defined(id)
}

/// The built-in classes of an exception of a class.
fn classes_below(alloc: Global, heap: &mut Heap, class: ClassRef) -> MemoryResult<String> {
    let exc = throw_with(alloc, heap, class, Values::new(alloc))?;
    classes_of(alloc, heap, exc)
}

/// The built-in classes of an exception of the class of a name.
pub fn below(alloc: Global, name: &str) -> MemoryResult<String> {
    let Value::Ref(id) = builtin(alloc, name)? else {
        return copied(alloc, "no class");
    };
    let mut heap = first_heap(alloc)?;
    let class = class_of(&heap, id);
    classes_below(alloc, &mut heap, class)
}

/// The built-in classes of an exception of a class of the sources that stands on the class of a name.
pub fn under(alloc: Global, name: &str) -> MemoryResult<String> {
    let Value::Ref(id) = builtin(alloc, name)? else {
        return copied(alloc, "no class");
    };
    let mut heap = first_heap(alloc)?;
    let own = source(alloc, &mut heap, "Own", Some(id))?;
    classes_below(alloc, &mut heap, ClassRef::Defined(own))
}
