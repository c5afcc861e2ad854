// The objects of an item: the instance of its class, and what hooks get.

ghost use Rattle.std.specs.Prelude.{◌≡◌, IfOk, option_copied};
ghost use Rattle.py_values.specs.declared.value.Value.TheVariants as val;
ghost use Rattle.tracebacks.specs.runner_values.Given as given;
ghost use Rattle.fixture_calls.specs.Failing as failing;
ghost use Rattle.runtest_rules.specs.Objects as objects;

use collect_names::found::TestClass;
use collect_names::objects::class_at;
use py_kinds::classes::root_of;
use py_values::class::{ClassForm, ClassRef};
use py_values::heap::Heap;
use py_values::object::ClassObj;
use py_values::value::{ObjId, Value};
use seq::{OutOfMemory, PyText};
use std::alloc::Global;
use test_suite::Item;
use tracebacks::{New, World, heap, make};

fn is_source_class(class: Option<&ClassObj>) -> bool
    ensures { result ≡ objects.is_source_class (option_copied class.entry) }
{
    let Some(class) = class else {
        return false;
    };
    match class.form {
        ClassForm::Source => true,
        ClassForm::Exception(_) | ClassForm::Kind(_) => false,
    }
}

/// Whether a class of the heap is a class of the sources and no class of exceptions.
fn has_instances(heap: &Heap, id: ObjId) -> bool
    ensures { result ≡ objects.has_instances heap.now id }
{
    is_source_class(class_at(heap.get(id))) && !root_of(heap, ClassRef::Defined(id)).is_some()
}

fn new_instance(world: &mut World, id: ObjId) -> Result<Value, OutOfMemory>
    requires { objects.has_instances world.old.heap id ≡ true }
    ensures { IfOk result (λ v. (v, world.new) ≡ failing.in_heap (given.added_object (given.instance id) world.old.heap) world.old) }
{
    make(world, &New::Instance(Value::Ref(id)))
}

ghost use Rattle.std.specs.Prelude.{true};

fn instance_of(world: &mut World, id: ObjId) -> Result<Option<Value>, OutOfMemory>
    ensures { IfOk result (λ own. (own, world.new) ≡ objects.instance_of_value (val.Ref id) world.old) }
{
    if has_instances(heap(world), id) {
        return Ok(Some(new_instance(world, id)?));
    }
    Ok(None)
}

fn instance_of_value(world: &mut World, class: Value) -> Result<Option<Value>, OutOfMemory>
    ensures { IfOk result (λ own. (own, world.new) ≡ objects.instance_of_value class world.old) }
{
    match class {
        Value::Ref(id) => instance_of(world, id),
        Value::None | Value::Bool(_) | Value::Int(_) => Ok(None),
    }
}

fn instance_of_class(
    world: &mut World,
    class: &Option<TestClass>,
) -> Result<Option<Value>, OutOfMemory>
    ensures { IfOk result (λ own. (own, world.new) ≡ objects.instance_of_class class.now world.old) }
{
    match class {
        Some(class) => instance_of_value(world, class.object),
        None => Ok(None),
    }
}

/// A new instance of the item's class, where that is a class of the sources and no class of exceptions. Behind want of memory the world
/// is spent.
#[tactic(auto, unfolding(crate::specs::Objects::instance_of_item))]
pub fn make_instance(world: &mut World, item: &Item) -> Result<Option<Value>, OutOfMemory>
    ensures { IfOk result (λ own. (own, world.new) ≡ objects.instance_of_item item.now world.old) }
{
    instance_of_class(world, &item.test.class)
}

fn new_object(world: &mut World, name: PyText, node_id: PyText) -> Result<Value, OutOfMemory>
    ensures { IfOk result (λ v. (v, world.new) ≡ failing.in_heap (given.added_object (given.test_item name node_id) world.old.heap) world.old) }
{
    make(
        world,
        &New::Item {
            name,
            nodeid: node_id,
        },
    )
}

/// The object that hooks get for an item (pytest's reference, `Item`). Behind want of memory the world is spent.
#[tactic(auto, unfolding(crate::specs::Objects::item_object))]
pub fn make_item(alloc: Global, world: &mut World, item: &Item) -> Result<Value, OutOfMemory>
    ensures { IfOk result (λ v. (v, world.new) ≡ objects.item_object item.now world.old) }
{
    let name = PyText::from_chars(alloc, item.name.chars())?;
    let node_id = PyText::from_str(alloc, item.node_id.text())?;
    new_object(world, name, node_id)
}
