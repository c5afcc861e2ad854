// The test functions and the classes of tests of a module.

ghost use Rattle.std.specs.Prelude.{◌≡◌, ◌++◌, ◌∷◌, [], IfOk, OnOk, option_copied};
ghost use Rattle.collect_names.specs.Found as tests;

use crate::copies::{copied, copied_class};
use crate::found::{TestClass, TestFunction};
use crate::objects::{class_at, function_at, holds_tests, object_in};
use py_values::heap::Heap;
use py_values::names::Names;
use py_values::value::Value;
use seq::{OutOfMemory, PyText};
use std::alloc::Global;

/// Whether a name is bound to a test function.
fn is_test_function(heap: &Heap, name: &PyText, v: Value) -> bool
    ensures { result ≡ tests.is_test_function heap.now (name.now, v) }
{
    name.chars().starts_with(&['t', 'e', 's', 't']) && function_at(object_in(heap, v)).is_some()
}

/// Whether a name is bound to a class of tests.
pub fn is_class_node(
    alloc: Global,
    heap: &Heap,
    name: &PyText,
    v: Value,
) -> Result<bool, OutOfMemory>
    ensures { IfOk result (λ b. b ≡ tests.is_class_node heap.now (name.now, v)) }
{
    if !name.chars().starts_with(&['T', 'e', 's', 't']) {
        return Ok(false);
    }
    holds_tests(alloc, heap, v, class_at(object_in(heap, v)))
}

fn push_function(
    alloc: Global,
    found: &mut Vec<TestFunction>,
    class: Option<&TestClass>,
    name: &PyText,
    v: Value,
) -> Result<(), OutOfMemory>
    ensures { OnOk result (found.new.items ≡ found.old.items ++ tests.test_function (option_copied class.entry) (name.now, v) ∷ []) }
{
    let class = copied_class(alloc, class)?;
    let name = copied(alloc, name)?;
    found.push(TestFunction {
        class,
        name,
        function: v,
    })?;
    Ok(())
}

/// Pushes what a name is bound to, where that is a test function.
fn push_test(
    alloc: Global,
    found: &mut Vec<TestFunction>,
    heap: &Heap,
    class: Option<&TestClass>,
    name: &PyText,
    v: Value,
) -> Result<(), OutOfMemory>
    ensures { OnOk result (found.new.items ≡ found.old.items ++ tests.tests_among heap.now (option_copied class.entry) ((name.now, v) ∷ [])) }
{
    if !is_test_function(heap, name, v) {
        return Ok(());
    }
    push_function(alloc, found, class, name, v)
}

/// Pushes the test functions among some names.
fn push_tests(
    alloc: Global,
    found: &mut Vec<TestFunction>,
    heap: &Heap,
    class: Option<&TestClass>,
    names: &Names,
) -> Result<(), OutOfMemory>
    ensures { OnOk result (found.new.items ≡ found.old.items ++ tests.tests_among heap.now (option_copied class.entry) names.now) }
{
    for at in 0..usize::MAX {
        let Some((name, v)) = names.entry(at) else {
            return Ok(());
        };
        push_test(alloc, found, heap, class, name.text(), *v)?;
    }
    // No memory holds so many names.
    Err(OutOfMemory)
}

/// Pushes the methods of a class of tests.
fn push_methods(
    alloc: Global,
    found: &mut Vec<TestFunction>,
    heap: &Heap,
    name: &PyText,
    v: Value,
) -> Result<(), OutOfMemory>
    ensures { OnOk result (found.new.items ≡ found.old.items ++ tests.methods_of heap.now (name.now, v)) }
{
    let Some(object) = class_at(object_in(heap, v)) else {
        return Ok(());
    };
    let class = TestClass {
        name: copied(alloc, name)?,
        object: v,
    };
    push_tests(alloc, found, heap, Some(&class), &object.names)
}

/// Pushes what a name of a module gives: itself, or the methods of its class.
fn push_under(
    alloc: Global,
    found: &mut Vec<TestFunction>,
    heap: &Heap,
    name: &PyText,
    v: Value,
) -> Result<(), OutOfMemory>
    ensures { OnOk result (found.new.items ≡ found.old.items ++ tests.tests_under heap.now (name.now, v)) }
{
    if is_test_function(heap, name, v) {
        return push_function(alloc, found, None, name, v);
    }
    if is_class_node(alloc, heap, name, v)? {
        return push_methods(alloc, found, heap, name, v);
    }
    Ok(())
}

/// The test functions of a module, of its names in order of first binding; those of a class stand in its place.
#[tactic(auto, unfolding(crate::specs::Found::test_functions))]
pub fn test_functions(
    alloc: Global,
    heap: &Heap,
    names: &Names,
) -> Result<Vec<TestFunction>, OutOfMemory>
    ensures { IfOk result (λ t. t.items ≡ tests.test_functions heap.now names.now) }
{
    let mut found = Vec::new(alloc);
    for at in 0..usize::MAX {
        let Some((name, v)) = names.entry(at) else {
            return Ok(found);
        };
        push_under(alloc, &mut found, heap, name.text(), *v)?;
    }
    // No memory holds so many names.
    Err(OutOfMemory)
}

/// Pushes a name, where it is bound to a class of tests.
fn push_class(
    alloc: Global,
    classes: &mut Vec<PyText>,
    heap: &Heap,
    name: &PyText,
    v: Value,
) -> Result<(), OutOfMemory>
    ensures { OnOk result (classes.new.items ≡ classes.old.items ++ tests.class_nodes heap.now ((name.now, v) ∷ [])) }
{
    if is_class_node(alloc, heap, name, v)? {
        let name = copied(alloc, name)?;
        classes.push(name)?;
    }
    Ok(())
}

/// The classes of tests of a module, by name, those without tests too.
pub fn class_nodes(alloc: Global, heap: &Heap, names: &Names) -> Result<Vec<PyText>, OutOfMemory>
    ensures { IfOk result (λ t. t.items ≡ tests.class_nodes heap.now names.now) }
{
    let mut classes = Vec::new(alloc);
    for at in 0..usize::MAX {
        let Some((name, v)) = names.entry(at) else {
            return Ok(classes);
        };
        push_class(alloc, &mut classes, heap, name.text(), *v)?;
    }
    // No memory holds so many names.
    Err(OutOfMemory)
}
