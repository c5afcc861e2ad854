// An item is opened: the instance of its class, and the objects that hooks get.

ghost use Rattle.std.specs.Prelude.{◌≡◌, IfOk, OnOk, map, option_map};
ghost use Rattle.runtest_reports.specs.fixture_sessions.FixtureSession.{item_opened, only_object, with_own_object};
ghost use Rattle.fixture_world.specs.Items.{item_in_session};
ghost use Rattle.hook_phases.specs.Steps.{IsKnownWhere, item_where};
ghost use Rattle.run_items.specs.Stands.{IsPlannedItem, object_noted, plan_rules, stand_state};
ghost use Rattle.fixture_world.specs.runtest_rules.Language.{python};
ghost use Rattle.session_rules.specs.Session.{node_of, object_made, object_of, object_of_next, ready, with_item_object, with_new_instance, with_nextitem};

use crate::acts::{make_instance, make_item, memory};
use crate::plan::Plan;
use crate::stand::{ItemObject, Stand};
use py_values::value::Value;
use seq::{OutOfMemory, Seq};
use std::alloc::Global;
use test_suite::Item;

/// The object of a node, where it was made.
fn object_of(objects: &[ItemObject], node: u32) -> Option<Value>
    ensures { result ≡ object_of {L = python} node (map object_noted objects.now) }
{
    let mut rest = objects;
    'objects: while let Some((one, others)) = rest.split_first() {
        if node == one.node {
            return Some(one.object);
        }
        rest = others;
    }
    None
}

/// The object of an item, where it was made.
pub(crate) fn own_object(stand: &Stand, item: &Item) -> Option<Value>
    ensures { result ≡ object_of item.now.node (stand_state stand.now).objects }
{
    object_of(stand.objects.items(), item.node)
}

/// The object of the next item, where there is one and it was made.
pub(crate) fn next_object(stand: &Stand, plan: &Plan, next: Option<&Item>) -> Option<Value>
    ensures { result ≡ object_of_next (node_of (item_where (item_in_session plan.now.table) (option_map (λ item. item.now) next.entry))) (stand_state stand.now).objects }
{
    match next {
        Some(next) => own_object(stand, next),
        None => None,
    }
}

/// The object of a node alone, where there is one.
fn only_object(
    alloc: Global,
    node: u32,
    object: Option<Value>,
) -> Result<Seq<ItemObject>, OutOfMemory>
    ensures { IfOk result (λ objects. map object_noted objects ≡ only_object {L = python} node object) }
{
    let mut objects = Seq::new(alloc);
    if let Some(object) = object {
        objects.push(ItemObject { node, object })?;
    }
    Ok(objects)
}

/// Keeps of the objects that of a node alone.
fn keep_own(stand: &mut Stand, node: u32) -> Result<(), OutOfMemory>
    ensures { OnOk result (stand_state stand.new ≡ with_own_object node (stand_state stand.old)) }
{
    let alloc = memory(&stand.world);
    let object = object_of(stand.objects.items(), node);
    let objects = only_object(alloc, node, object)?;
    stand.objects = objects;
    Ok(())
}

/// Makes the instance of an item's class, where it has one.
fn make_own(stand: &mut Stand, plan: &Plan, item: &Item) -> Result<(), OutOfMemory>
    requires item { IsPlannedItem plan.now item.now }
    ensures { OnOk result (stand_state stand.new ≡ with_new_instance (plan_rules plan.now) (item_in_session plan.now.table item.now) (stand_state stand.old)) }
{
    let own = make_instance(&mut stand.world, item)?;
    stand.stack.stack.own = own;
    Ok(())
}

/// Makes the instance of an item's class, where it has one, and keeps of the objects that hooks get the item's own.
pub(crate) fn open(stand: &mut Stand, plan: &Plan, item: &Item) -> Result<(), OutOfMemory>
    requires item { IsPlannedItem plan.now item.now }
    ensures { OnOk result (stand_state stand.new ≡ item_opened (plan_rules plan.now) (item_in_session plan.now.table item.now) (stand_state stand.old)) }
{
    make_own(stand, plan, item)?;
    keep_own(stand, item.node)?;
    Ok(())
}

/// Makes the object that hooks get for an item.
fn new_object(stand: &mut Stand, plan: &Plan, item: &Item) -> Result<(), OutOfMemory>
    requires item { IsPlannedItem plan.now item.now }
    ensures { OnOk result (stand_state stand.new ≡ object_made item.now.node ((plan_rules plan.now).make_item item.now.node (stand_state stand.old).world) (stand_state stand.old)) }
{
    let object = make_item(&mut stand.world, item)?;
    let node = item.node;
    stand.objects.push(ItemObject { node, object })?;
    Ok(())
}

/// Makes the object that hooks get for an item, where it wasn't made before.
fn make_object(stand: &mut Stand, plan: &Plan, item: &Item) -> Result<(), OutOfMemory>
    requires item { IsPlannedItem plan.now item.now }
    ensures { OnOk result (stand_state stand.new ≡ with_item_object (plan_rules plan.now) item.now.node (stand_state stand.old)) }
{
    let object = object_of(stand.objects.items(), item.node);
    match object {
        Some(_) => Ok(()),
        None => {
            new_object(stand, plan, item)?;
            Ok(())
        }
    }
}

fn make_next(stand: &mut Stand, plan: &Plan, next: Option<&Item>) -> Result<(), OutOfMemory>
    requires next { IsKnownWhere (IsPlannedItem plan.now) (option_map (λ item. item.now) next) }
    ensures { OnOk result (stand_state stand.new ≡ with_nextitem (plan_rules plan.now) (node_of (item_where (item_in_session plan.now.table) (option_map (λ item. item.now) next.entry))) (stand_state stand.old)) }
{
    match next {
        Some(next) => {
            make_object(stand, plan, next)?;
            Ok(())
        }
        None => Ok(()),
    }
}

/// Makes the objects that hooks get for an item and the next, where they weren't made before; no value is gathered.
pub(crate) fn make_ready(
    stand: &mut Stand,
    plan: &Plan,
    item: &Item,
    next: Option<&Item>,
) -> Result<(), OutOfMemory>
    requires item { IsPlannedItem plan.now item.now }
    requires next { IsKnownWhere (IsPlannedItem plan.now) (option_map (λ item. item.now) next) }
    ensures { OnOk result (stand_state stand.new ≡ ready (plan_rules plan.now) (item_in_session plan.now.table item.now) (node_of (item_where (item_in_session plan.now.table) (option_map (λ item. item.now) next.entry))) (stand_state stand.old)) }
{
    make_object(stand, plan, item)?;
    make_next(stand, plan, next)?;
    stand.values = Seq::new(memory(&stand.world));
    Ok(())
}
