// The marks of an item.

ghost use Rattle.std.specs.Prelude.{◌≡◌, ◌++◌, IfOk, OnOk, codes, is_some, option_copied};
ghost use Rattle.std.specs.List.{filter};
ghost use Rattle.py_values.specs.Names.{find_name};
ghost use Rattle.collect_names.specs.Objects.{object_in};
ghost use Rattle.collect_marks.specs.Given as given;

use collect_names::found::{TestClass, TestFunction};
use collect_names::objects::{class_at, function_at, object_in};
use py_values::heap::Heap;
use py_values::names::{Name, Names};
use py_values::object::{ClassObj, FunctionObj, MarkObj, Obj};
use py_values::value::Value;
use seq::OutOfMemory;
use std::alloc::Global;

/// The mark that an object is, where it is one.
fn mark_at<'a>(obj: Option<&'a Obj>) -> Option<&'a MarkObj>
    ensures { option_copied result ≡ given.mark_at (option_copied obj.entry) }
{
    match obj {
        Some(Obj::Mark(mark)) => Some(mark),
        Some(
            Obj::Text(_)
            | Obj::List(_)
            | Obj::Tuple(_)
            | Obj::Dict(_)
            | Obj::Range(_)
            | Obj::Function(_)
            | Obj::Method(_)
            | Obj::Builtin(_)
            | Obj::Class(_)
            | Obj::Instance(_)
            | Obj::Exception(_)
            | Obj::Module(_)
            | Obj::Fixture(_)
            | Obj::MarkMaker
            | Obj::Hook(_)
            | Obj::Param(_)
            | Obj::Request(_)
            | Obj::Raises(_)
            | Obj::Info(_)
            | Obj::Item(_),
        )
        | None => None,
    }
}

/// The mark that a value is, where it is one.
pub fn mark_in<'a>(heap: &'a Heap, v: Value) -> Option<&'a MarkObj>
    ensures { option_copied result ≡ given.mark_in heap.now v }
{
    mark_at(object_in(heap, v))
}

/// Pushes a value, where it is a mark.
fn push_mark(marks: &mut Vec<Value>, heap: &Heap, v: Value) -> Result<(), OutOfMemory>
    ensures { OnOk result (marks.new.items ≡ marks.old.items ++ filter (given.is_mark_value heap.now) (v ∷ [])) }
{
    if mark_in(heap, v).is_some() {
        marks.push(v)?;
    }
    Ok(())
}

ghost use Rattle.std.specs.Prelude.{◌∷◌, []};

/// Pushes the marks among some values.
fn push_marks(marks: &mut Vec<Value>, heap: &Heap, values: &[Value]) -> Result<(), OutOfMemory>
    ensures { OnOk result (marks.new.items ≡ marks.old.items ++ filter (given.is_mark_value heap.now) values.now) }
{
    for v in values {
        push_mark(marks, heap, *v)?;
    }
    Ok(())
}

/// Pushes the marks of a list, or the value itself, where it is a mark.
fn push_listed(marks: &mut Vec<Value>, heap: &Heap, v: Value) -> Result<(), OutOfMemory>
    ensures { OnOk result (marks.new.items ≡ marks.old.items ++ filter (given.is_mark_value heap.now) (given.values_given v (object_in heap.now v))) }
{
    match object_in(heap, v) {
        Some(Obj::List(values)) => push_marks(marks, heap, values.items()),
        Some(
            Obj::Text(_)
            | Obj::Tuple(_)
            | Obj::Dict(_)
            | Obj::Range(_)
            | Obj::Function(_)
            | Obj::Method(_)
            | Obj::Builtin(_)
            | Obj::Class(_)
            | Obj::Instance(_)
            | Obj::Exception(_)
            | Obj::Module(_)
            | Obj::Fixture(_)
            | Obj::MarkMaker
            | Obj::Mark(_)
            | Obj::Hook(_)
            | Obj::Param(_)
            | Obj::Request(_)
            | Obj::Raises(_)
            | Obj::Info(_)
            | Obj::Item(_),
        )
        | None => push_mark(marks, heap, v),
    }
}

fn pytestmark(alloc: Global, names: &Names) -> Result<Option<Value>, OutOfMemory>
    ensures { IfOk result (λ v. v ≡ find_name (codes "pytestmark") names.now) }
{
    let name = Name::from_chars(alloc, &['p', 'y', 't', 'e', 's', 't', 'm', 'a', 'r', 'k'])?;
    Ok(names.find(&name))
}

/// Pushes the marks that `pytestmark` gives among some names.
fn push_pytestmark(
    alloc: Global,
    marks: &mut Vec<Value>,
    heap: &Heap,
    names: &Names,
) -> Result<(), OutOfMemory>
    ensures { OnOk result (marks.new.items ≡ marks.old.items ++ filter (given.is_mark_value heap.now) (given.by_pytestmark heap.now names.now)) }
{
    match pytestmark(alloc, names)? {
        Some(v) => push_listed(marks, heap, v),
        None => Ok(()),
    }
}

fn push_function(
    marks: &mut Vec<Value>,
    heap: &Heap,
    function: Option<&FunctionObj>,
) -> Result<(), OutOfMemory>
    ensures { OnOk result (marks.new.items ≡ marks.old.items ++ filter (given.is_mark_value heap.now) (given.of_function (option_copied function.entry))) }
{
    match function {
        Some(function) => push_marks(marks, heap, function.marks.items()),
        None => Ok(()),
    }
}

/// Pushes the marks of a class: its `pytestmark` comes before its decorators.
fn push_class(
    alloc: Global,
    marks: &mut Vec<Value>,
    heap: &Heap,
    class: Option<&ClassObj>,
) -> Result<(), OutOfMemory>
    ensures { OnOk result (marks.new.items ≡ marks.old.items ++ filter (given.is_mark_value heap.now) (given.of_class heap.now (option_copied class.entry))) }
{
    let Some(class) = class else {
        return Ok(());
    };
    push_pytestmark(alloc, marks, heap, &class.names)?;
    push_marks(marks, heap, class.marks.items())
}

fn push_test_class(
    alloc: Global,
    marks: &mut Vec<Value>,
    heap: &Heap,
    class: &Option<TestClass>,
) -> Result<(), OutOfMemory>
    ensures { OnOk result (marks.new.items ≡ marks.old.items ++ filter (given.is_mark_value heap.now) (given.of_test_class heap.now class.now)) }
{
    match class {
        Some(class) => push_class(alloc, marks, heap, class_at(object_in(heap, class.object))),
        None => Ok(()),
    }
}

/// The marks of an item, nearest first: its function's, its class's, and those of the `pytestmark` of its module, whose names these are.
#[tactic(auto, unfolding(crate::specs::Given::item_marks))]
pub fn item_marks(
    alloc: Global,
    heap: &Heap,
    test: &TestFunction,
    names: &Names,
) -> Result<Vec<Value>, OutOfMemory>
    ensures { IfOk result (λ m. m.items ≡ given.item_marks heap.now test.now names.now) }
{
    let mut marks = Vec::new(alloc);
    push_function(
        &mut marks,
        heap,
        function_at(object_in(heap, test.function)),
    )?;
    push_test_class(alloc, &mut marks, heap, &test.class)?;
    push_pytestmark(alloc, &mut marks, heap, names)?;
    Ok(marks)
}
