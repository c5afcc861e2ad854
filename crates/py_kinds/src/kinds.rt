// The names of classes and of kinds.

ghost use Rattle.std.specs.Prelude.{◌≡◌, ◌++◌, OnOk, IfOk, slice_get};
ghost use Rattle.py_kinds.specs.Kinds as names;

use py_values::class::{ClassRef, ExcClass};
use py_values::end::push_ascii;
use py_values::heap::Heap;
use py_values::object::Obj;
use py_values::value::{ObjId, Value};
use py_values::{OutOfMemory, PyText};
use std::alloc::Global;

/// The name of a class of exceptions.
pub fn class_name(class: ExcClass) -> &'static str
    ensures { result.now ≡ names.class_name class }
{
    match class {
        ExcClass::BaseException => "BaseException",
        ExcClass::Exception => "Exception",
        ExcClass::Skipped => "Skipped",
        ExcClass::Failed => "Failed",
        ExcClass::StepLimit => "StepLimit",
        ExcClass::ArithmeticError => "ArithmeticError",
        ExcClass::OverflowError => "OverflowError",
        ExcClass::ZeroDivisionError => "ZeroDivisionError",
        ExcClass::AssertionError => "AssertionError",
        ExcClass::AttributeError => "AttributeError",
        ExcClass::ImportError => "ImportError",
        ExcClass::ModuleNotFoundError => "ModuleNotFoundError",
        ExcClass::LookupError => "LookupError",
        ExcClass::IndexError => "IndexError",
        ExcClass::KeyError => "KeyError",
        ExcClass::MemoryError => "MemoryError",
        ExcClass::NameError => "NameError",
        ExcClass::UnboundLocalError => "UnboundLocalError",
        ExcClass::RuntimeError => "RuntimeError",
        ExcClass::NotImplementedError => "NotImplementedError",
        ExcClass::RecursionError => "RecursionError",
        ExcClass::SyntaxError => "SyntaxError",
        ExcClass::TypeError => "TypeError",
        ExcClass::ValueError => "ValueError",
    }
}

/// Puts the name of a class object behind other characters.
pub fn push_class_name(chars: &mut Vec<char>, heap: &Heap, class: ObjId) -> Result<(), OutOfMemory>
    ensures { OnOk result (chars.new.items ≡ chars.old.items ++ names.class_name_at (slice_get heap.now class.at)) }
{
    match heap.get(class) {
        Some(Obj::Class(c)) => {
            chars.extend_from_slice(c.name.chars())?;
            Ok(())
        }
        _ => push_ascii(chars, "object"),
    }
}

/// Puts the name of an exception's class behind other characters.
pub fn push_class_ref(
    chars: &mut Vec<char>,
    heap: &Heap,
    class: ClassRef,
) -> Result<(), OutOfMemory>
    ensures { OnOk result (chars.new.items ≡ chars.old.items ++ names.class_ref_name heap.now class) }
{
    match class {
        ClassRef::Builtin(c) => push_ascii(chars, class_name(c)),
        ClassRef::Defined(id) => push_class_name(chars, heap, id),
    }
}

/// Puts the name of an object's kind behind other characters.
fn push_obj_kind(chars: &mut Vec<char>, heap: &Heap, id: ObjId) -> Result<(), OutOfMemory>
    ensures { OnOk result (chars.new.items ≡ chars.old.items ++ names.obj_kind heap.now (slice_get heap.now id.at)) }
{
    match heap.get(id) {
        Some(Obj::Text(_)) => push_ascii(chars, "str"),
        Some(Obj::List(_)) => push_ascii(chars, "list"),
        Some(Obj::Tuple(_)) => push_ascii(chars, "tuple"),
        Some(Obj::Dict(_)) => push_ascii(chars, "dict"),
        Some(Obj::Range(_)) => push_ascii(chars, "range"),
        Some(Obj::Function(_)) => push_ascii(chars, "function"),
        Some(Obj::Method(_)) => push_ascii(chars, "method"),
        Some(Obj::Builtin(_)) => push_ascii(chars, "builtin"),
        Some(Obj::Class(_)) => push_ascii(chars, "type"),
        Some(Obj::Module(_)) => push_ascii(chars, "module"),
        Some(Obj::Fixture(_)) => push_ascii(chars, "fixture"),
        Some(Obj::MarkMaker | Obj::Mark(_) | Obj::Hook(_)) => push_ascii(chars, "mark"),
        Some(Obj::Param(_)) => push_ascii(chars, "param"),
        Some(Obj::Request(_)) => push_ascii(chars, "request"),
        Some(Obj::Raises(_)) => push_ascii(chars, "raises"),
        Some(Obj::Info(_)) => push_ascii(chars, "info"),
        Some(Obj::Item(_)) => push_ascii(chars, "item"),
        Some(Obj::Instance(x)) => push_class_name(chars, heap, x.class),
        Some(Obj::Exception(x)) => push_class_ref(chars, heap, x.class),
        None => push_ascii(chars, "object"),
    }
}

/// Puts the name of a value's kind behind other characters.
#[tactic(auto, unfolding(crate::specs::Kinds::kind_name))]
pub fn push_kind(chars: &mut Vec<char>, heap: &Heap, v: Value) -> Result<(), OutOfMemory>
    ensures { OnOk result (chars.new.items ≡ chars.old.items ++ names.kind_name heap.now v) }
{
    match v {
        Value::None => push_ascii(chars, "NoneType"),
        Value::Bool(_) => push_ascii(chars, "bool"),
        Value::Int(_) => push_ascii(chars, "int"),
        Value::Ref(id) => push_obj_kind(chars, heap, id),
    }
}

/// The name of a value's kind; an instance's and an exception's is that of its class.
pub fn kind_name(alloc: Global, heap: &Heap, v: Value) -> Result<PyText, OutOfMemory>
    ensures { IfOk result (λ t. t ≡ names.kind_name heap.now v) }
{
    let mut chars = Vec::new(alloc);
    push_kind(&mut chars, heap, v)?;
    PyText::from_chars(alloc, &chars)
}
