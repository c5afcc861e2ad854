// Objects that no operator makes.

use crate::spelled::{MemoryResult, text};
use py_kinds::kinds::class_name;
use py_values::builtin::{BUILTINS, Builtin, EXCEPTIONS};
use py_values::class::{ClassForm, ClassRef, ExcClass};
use py_values::heap::Heap;
use py_values::names::Names;
use py_values::object::{BuiltinObj, ClassObj, ExceptionObj, FunctionObj, ModuleObj, Obj};
use py_values::rows::{Params, Values};
use py_values::value::{ObjId, Value};
use std::alloc::Global;

/// The value of a new object.
pub fn added(heap: &mut Heap, object: Obj) -> MemoryResult<Value> {
    Ok(Value::Ref(heap.add(object)?))
}

/// A function of a name with marks, without parameters.
pub fn function(alloc: Global, name: &str, marks: Values) -> MemoryResult<Obj> {
    let path = text(alloc, "test_a.py")?;
    let name = text(alloc, name)?;
    let params = Params::from_vec(Vec::new(alloc));
    Ok(Obj::Function(FunctionObj {
        path,
        name,
        line: 3,
        params,
        yields: false,
        marks,
        class: None,
        code: 0,
    }))
}

/// A module of a path, without names.
pub fn module(alloc: Global, path: &str) -> MemoryResult<Obj> {
    let path = text(alloc, path)?;
    let names = Names::new(alloc);
    Ok(Obj::Module(ModuleObj { path, names }))
}

/// The built-in function `print`.
pub fn builtin_function() -> Obj {
    Obj::Builtin(BuiltinObj {
        which: Builtin::Print,
        receiver: None,
    })
}

/// A class of a name, without names of its own.
pub fn class(
    alloc: Global,
    name: &str,
    form: ClassForm,
    base: Option<ObjId>,
    marks: Values,
) -> MemoryResult<ClassObj> {
    let path = text(alloc, "test_a.py")?;
    let name = text(alloc, name)?;
    Ok(ClassObj {
        path,
        name,
        line: 1,
        form,
        base,
        marks,
        names: Names::new(alloc),
    })
}

/// The class of exceptions that is bound to a name, or `NameError`.
fn bound_class(name: &str) -> ExcClass {
    for class in &EXCEPTIONS {
        if class_name(*class) == name {
            return *class;
        }
    }
    ExcClass::NameError
}

/// The class of exceptions of a name, or `NameError`.
pub fn class_by(name: &str) -> ExcClass {
    match name {
        "Skipped" => ExcClass::Skipped,
        "Failed" => ExcClass::Failed,
        _ => bound_class(name),
    }
}

/// The built-in class of a name: of a built-in kind, or else one of exceptions.
fn class_form(name: &str) -> ClassForm {
    for row in &BUILTINS {
        if row.2 && row.0 == name {
            return ClassForm::Kind(row.1);
        }
    }
    ClassForm::Exception(class_by(name))
}

/// A built-in class of a name.
pub fn builtin_class(alloc: Global, name: &str) -> MemoryResult<Obj> {
    let class = class(alloc, name, class_form(name), None, Values::new(alloc))?;
    Ok(Obj::Class(class))
}

/// An exception that has no `args`.
pub fn exception_without_args(alloc: Global, class: ExcClass) -> Obj {
    Obj::Exception(ExceptionObj {
        class: ClassRef::Builtin(class),
        args: None,
        names: Names::new(alloc),
    })
}
