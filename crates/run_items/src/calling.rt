// The call of an item's test.

ghost use Rattle.std.specs.Prelude.{◌≡◌, [], IfOk, None, OnOk, Some};
ghost use Rattle.std.specs.Option.{option_to_list};
ghost use Rattle.runtest_reports.specs.fixture_sessions.FixtureSession.{fixture_call};
ghost use Rattle.fixture_world.specs.Items.{item_in_session};
ghost use Rattle.run_items.specs.Stands.{IsPlan, IsPlannedItem, plan_rules, stand_state};
ghost use Rattle.session_rules.specs.Demand.{numbers_of};
ghost use Rattle.session_rules.specs.Frames.{StandsWith};
ghost use Rattle.fixture_world.specs.runtest_rules.py_world.Resuming.{is_out};
ghost use Rattle.session_rules.specs.Session.{in_hooks, pyfunc_call, test_with};
ghost use Rattle.session_rules.specs.Teardown.{emit, session_step};
ghost use Rattle.session_rules.specs.World.{Call};
ghost use Rattle.session_types.specs.declared.journal.Event.TheVariants.{CallBegins, CallEnds};

use crate::acts::{ask_test, call_test, memory, wrong_arguments};
use crate::plan::Plan;
use crate::raised::at_most_one;
use crate::stand::Stand;
use fixture_world::Failure;
use hook_phases::HookPhase;
use item_stack::{plain_item, values_given};
use py_values::value::Value;
use seq::{OutOfMemory, Seq};
use test_suite::Item;

/// Calls a test with these values.
fn call_with(
    stand: &mut Stand,
    plan: &Plan,
    item: &Item,
    values: &[Value],
) -> Result<Option<Failure>, OutOfMemory>
    requires item { IsPlannedItem plan.now item.now }
    ensures { IfOk result (λ failure. session_step (option_to_list failure) (stand_state stand.new) ≡ test_with (plan_rules plan.now) (item_in_session plan.now.table item.now) (Some values.now) (stand_state stand.old)) }
{
    let request = ask_test(&mut stand.world, item)?;
    stand.stack.request = request;
    let own = stand.stack.stack.own;
    let failure = call_test(&mut stand.world, item, own, values, request, plan.run.limit)?;
    Ok(failure)
}

/// Raises that an argument has no value.
fn fail_arguments(
    stand: &mut Stand,
    plan: &Plan,
    item: &Item,
) -> Result<Option<Failure>, OutOfMemory>
    requires item { IsPlannedItem plan.now item.now }
    ensures { IfOk result (λ failure. session_step (option_to_list failure) (stand_state stand.new) ≡ test_with (plan_rules plan.now) (item_in_session plan.now.table item.now) None (stand_state stand.old)) }
{
    let failure = wrong_arguments(&mut stand.world, item)?;
    Ok(Some(failure))
}

fn call_where(
    stand: &mut Stand,
    plan: &Plan,
    item: &Item,
    values: Option<Seq<Value>>,
) -> Result<Option<Failure>, OutOfMemory>
    requires item { IsPlannedItem plan.now item.now }
    ensures { IfOk result (λ failure. session_step (option_to_list failure) (stand_state stand.new) ≡ test_with (plan_rules plan.now) (item_in_session plan.now.table item.now) values (stand_state stand.old)) }
{
    match values {
        Some(values) => {
            let failure = call_with(stand, plan, item, values.items())?;
            Ok(failure)
        }
        None => {
            let failure = fail_arguments(stand, plan, item)?;
            Ok(failure)
        }
    }
}

/// Calls a test with the values that its set-up was given.
pub(crate) fn call_asked(
    stand: &mut Stand,
    plan: &Plan,
    item: &Item,
) -> Result<Seq<Failure>, OutOfMemory>
    requires item { IsPlannedItem plan.now item.now }
    ensures { IfOk result (λ raised. session_step raised (stand_state stand.new) ≡ pyfunc_call (plan_rules plan.now) (item_in_session plan.now.table item.now) (stand_state stand.old)) }
{
    let alloc = memory(&stand.world);
    let given = stand.stack.stack.given.items();
    let asked = item.asked.items();
    let values = values_given(alloc, given, asked)?;
    let failure = call_where(stand, plan, item, values)?;
    let raised = at_most_one(alloc, failure)?;
    Ok(raised)
}

/// Notes that the test of the item of a node is called, and what its set-up was given.
fn begin_call(stand: &mut Stand, node: u32) -> Result<(), OutOfMemory>
    ensures { OnOk result (stand_state stand.new ≡ emit (CallBegins node (numbers_of (stand_state stand.old).given [])) (stand_state stand.old)) }
{
    let alloc = memory(&stand.world);
    let at = plain_item(alloc, node, None);
    stand.stack.stack.call_begins(alloc, &at)?;
    Ok(())
}

/// Notes that the call of the test of the item of a node ended.
fn end_call(stand: &mut Stand, node: u32) -> Result<(), OutOfMemory>
    ensures { OnOk result (stand_state stand.new ≡ emit (CallEnds node) (stand_state stand.old)) }
{
    let at = plain_item(memory(&stand.world), node, None);
    stand.stack.stack.call_ends(&at)?;
    Ok(())
}

/// The hook call around an item's test.
fn call_hooked(stand: &mut Stand, plan: &Plan, item: &Item) -> Result<Seq<Failure>, OutOfMemory>
    requires plan { IsPlan plan.now }
    requires item { IsPlannedItem plan.now item.now }
    requires frames { StandsWith (stand_state stand.old) is_out [] }
    ensures state { IfOk result (λ raised. session_step raised (stand_state stand.new) ≡ in_hooks (plan_rules plan.now) Call (item_in_session plan.now.table item.now) None (pyfunc_call (plan_rules plan.now) (item_in_session plan.now.table item.now)) (stand_state stand.old)) }
    ensures frames { OnOk result (StandsWith (stand_state stand.new) is_out []) }
{
    let alloc = memory(&stand.world);
    let raised = hook_phases::in_hooks(alloc, stand, plan, HookPhase::Call, item, None)?;
    Ok(raised)
}

/// Calls an item's test, with its hooks, with the values that it was given.
pub(crate) fn call(stand: &mut Stand, plan: &Plan, item: &Item) -> Result<Seq<Failure>, OutOfMemory>
    requires plan { IsPlan plan.now }
    requires item { IsPlannedItem plan.now item.now }
    requires frames { StandsWith (stand_state stand.old) is_out [] }
    ensures state { IfOk result (λ raised. session_step raised (stand_state stand.new) ≡ fixture_call (plan_rules plan.now) (item_in_session plan.now.table item.now) (stand_state stand.old)) }
    ensures frames { OnOk result (StandsWith (stand_state stand.new) is_out []) }
{
    begin_call(stand, item.node)?;
    let raised = call_hooked(stand, plan, item)?;
    match end_call(stand, item.node) {
        Ok(()) => Ok(raised),
        Err(fault) => {
            drop(raised);
            Err(fault)
        }
    }
}
