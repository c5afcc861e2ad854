// Names of classes.

ghost use Rattle.std.specs.Prelude.{◌≡◌, IfOk, codes, option_copied};
ghost use Rattle.py_attributes.specs.Attributes as attributes;
ghost use Rattle.py_kinds.specs.Classes as classes;
ghost use Rattle.py_values.specs.Names.{find_name};

use py_kinds::builtins::{base_place, class_place};
use py_kinds::classes::base_of;
use py_values::OutOfMemory;
use py_values::class::ClassRef;
use py_values::end::push_ascii;
use py_values::heap::Heap;
use py_values::names::Name;
use py_values::object::Obj;
use py_values::value::{ObjId, Value};
use std::alloc::Global;

/// The object that has the names of a class: its own, or that of its base where it has none.
pub fn names_place(class: ClassRef) -> Option<ObjId>
    ensures { result ≡ attributes.names_place class }
{
    match class {
        ClassRef::Defined(id) => Some(id),
        ClassRef::Builtin(class) => {
            match class_place(class) {
                Some(id) => Some(id),
                None => base_place(class),
            }
        }
    }
}

/// The value of a name in a class, without those on which it stands.
pub fn named_in(obj: Option<&Obj>, name: &Name) -> Option<Value>
    ensures { result ≡ find_name name.now (attributes.class_names (option_copied obj.entry)) }
{
    match obj {
        Some(Obj::Class(c)) => c.names.find(name),
        _ => None,
    }
}

/// The value of a name in a class, or in those on which it stands.
#[tactic(auto, using(crate::proofs::Walking::value_step))]
pub fn class_value(heap: &Heap, class: ObjId, name: &Name) -> Option<Value>
    ensures { result ≡ attributes.class_value heap.now name.now class }
{
    let mut at = class;
    for _ in 0..heap.len() {
        if let Some(v) = named_in(heap.get(at), name) {
            return Some(v);
        }
        match base_of(heap.get(at)) {
            Some(next) => at = next,
            None => return None,
        }
    }
    None
}

/// The value of a name in the class of an exception.
pub(crate) fn value_by_class(heap: &Heap, class: ClassRef, name: &Name) -> Option<Value>
    ensures { result ≡ attributes.value_by_class heap.now name.now class }
{
    match names_place(class) {
        Some(id) => class_value(heap, id, name),
        None => None,
    }
}

/// The value of the name `__init__` of a class.
pub fn init_of(alloc: Global, heap: &Heap, class: ObjId) -> Result<Option<Value>, OutOfMemory>
    ensures { IfOk result (λ v. v ≡ attributes.class_value heap.now (codes "__init__") class) }
{
    let mut name = Vec::new(alloc);
    push_ascii(&mut name, "__init__")?;
    let name = Name::from_chars(alloc, &name)?;
    Ok(class_value(heap, class, &name))
}
