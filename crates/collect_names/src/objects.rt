// What the value of a name is.

ghost use Rattle.std.specs.Prelude.{◌≡◌, IfOk, codes, is_some, option_copied};
ghost use Rattle.py_values.specs.Names.{find_name};
ghost use Rattle.collect_names.specs.Objects as objects;

use py_kinds::classes::is_exc_class;
use py_values::class::ClassForm;
use py_values::heap::Heap;
use py_values::names::{Name, Names};
use py_values::object::{ClassObj, FunctionObj, Obj};
use py_values::value::Value;
use seq::OutOfMemory;
use std::alloc::Global;

/// The object of a value, where it has one.
pub fn object_in<'a>(heap: &'a Heap, v: Value) -> Option<&'a Obj>
    ensures { option_copied result ≡ objects.object_in heap.now v }
{
    match v {
        Value::Ref(id) => heap.get(id),
        Value::None | Value::Bool(_) | Value::Int(_) => None,
    }
}

/// The function that an object is, where it is one.
pub fn function_at<'a>(obj: Option<&'a Obj>) -> Option<&'a FunctionObj>
    ensures { option_copied result ≡ objects.function_at (option_copied obj.entry) }
{
    match obj {
        Some(Obj::Function(function)) => Some(function),
        Some(
            Obj::Text(_)
            | Obj::List(_)
            | Obj::Tuple(_)
            | Obj::Dict(_)
            | Obj::Range(_)
            | Obj::Method(_)
            | Obj::Builtin(_)
            | Obj::Class(_)
            | Obj::Instance(_)
            | Obj::Exception(_)
            | Obj::Module(_)
            | Obj::Fixture(_)
            | Obj::MarkMaker
            | Obj::Mark(_)
            | Obj::Hook(_)
            | Obj::Param(_)
            | Obj::Request(_)
            | Obj::Raises(_)
            | Obj::Info(_)
            | Obj::Item(_),
        )
        | None => None,
    }
}

/// The class that an object is, where it is one.
pub fn class_at<'a>(obj: Option<&'a Obj>) -> Option<&'a ClassObj>
    ensures { option_copied result ≡ objects.class_at (option_copied obj.entry) }
{
    match obj {
        Some(Obj::Class(class)) => Some(class),
        Some(
            Obj::Text(_)
            | Obj::List(_)
            | Obj::Tuple(_)
            | Obj::Dict(_)
            | Obj::Range(_)
            | Obj::Function(_)
            | Obj::Method(_)
            | Obj::Builtin(_)
            | Obj::Instance(_)
            | Obj::Exception(_)
            | Obj::Module(_)
            | Obj::Fixture(_)
            | Obj::MarkMaker
            | Obj::Mark(_)
            | Obj::Hook(_)
            | Obj::Param(_)
            | Obj::Request(_)
            | Obj::Raises(_)
            | Obj::Info(_)
            | Obj::Item(_),
        )
        | None => None,
    }
}

fn is_source(form: ClassForm) -> bool
    ensures { result ≡ objects.is_source form }
{
    match form {
        ClassForm::Source => true,
        ClassForm::Exception(_) | ClassForm::Kind(_) => false,
    }
}

fn has_init(alloc: Global, names: &Names) -> Result<bool, OutOfMemory>
    ensures { IfOk result (λ b. b ≡ is_some (find_name (codes "__init__") names.now)) }
{
    let name = Name::from_chars(alloc, &['_', '_', 'i', 'n', 'i', 't', '_', '_'])?;
    Ok(names.find(&name).is_some())
}

/// Whether a value is a class of a source that is no class of exceptions and has no `__init__` of its own.
pub fn holds_tests(
    alloc: Global,
    heap: &Heap,
    v: Value,
    class: Option<&ClassObj>,
) -> Result<bool, OutOfMemory>
    ensures { IfOk result (λ b. b ≡ objects.holds_tests heap.now v (option_copied class.entry)) }
{
    let Some(class) = class else {
        return Ok(false);
    };
    let init = has_init(alloc, &class.names)?;
    Ok(is_source(class.form) && !is_exc_class(heap, v) && !init)
}
