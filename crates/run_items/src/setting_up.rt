// The set-up of an item.

ghost use Rattle.std.specs.Prelude.{◌≡◌, [], IfOk, None, OnOk, Some};
ghost use Rattle.runtest_reports.specs.fixture_sessions.FixtureSession.{fixture_set_up};
ghost use Rattle.fixture_world.specs.Items.{closure_of, item_in_session};
ghost use Rattle.run_items.specs.Stands.{IsPlan, IsPlannedItem, plan_rules, stand_state};
ghost use Rattle.session_rules.specs.Frames.{StandsWith};
ghost use Rattle.fixture_world.specs.runtest_rules.py_world.Resuming.{is_out};
ghost use Rattle.session_rules.specs.Session.{demand_closure, set_up_item};
ghost use Rattle.session_rules.specs.Teardown.{session_step};

use crate::acts::{fixture_fault, memory};
use crate::plan::Plan;
use crate::raised::one;
use crate::stand::Stand;
use fixture_world::{Failure, demanding};
use hook_phases::{HookPhase, in_hooks};
use item_stack::demand_all;
use seq::{OutOfMemory, Seq};
use session_types::DefId;
use test_suite::{Item, ItemClosure};

/// Demands the definitions of an item's closure in order, up to the first fault.
fn demand(
    stand: &mut Stand,
    plan: &Plan,
    item: &Item,
    defs: &[DefId],
) -> Result<Seq<Failure>, OutOfMemory>
    requires plan { IsPlan plan.now }
    requires item { IsPlannedItem plan.now item.now }
    requires closure { closure_of item.now.closure ≡ Some defs.now }
    requires frames { StandsWith (stand_state stand.old) is_out [] }
    ensures { IfOk result (λ raised. session_step raised (stand_state stand.new) ≡ demand_closure (plan_rules plan.now) (item_in_session plan.now.table item.now) defs.now (stand_state stand.old)) }
{
    let alloc = memory(&stand.world);
    let at = demanding(alloc, item, stand.stack.stack.own)?;
    let raised = demand_all(
        alloc,
        &mut stand.stack,
        &mut stand.world,
        &plan.run,
        &plan.table,
        &at,
        defs,
    )?;
    Ok(raised)
}

/// Raises the fault of an item's closure.
fn fault(stand: &mut Stand, plan: &Plan, item: &Item) -> Result<Seq<Failure>, OutOfMemory>
    requires item { IsPlannedItem plan.now item.now }
    requires closure { closure_of item.now.closure ≡ None }
    ensures { IfOk result (λ raised. session_step raised (stand_state stand.new) ≡ set_up_item (plan_rules plan.now) (item_in_session plan.now.table item.now) (stand_state stand.old)) }
{
    let failure = fixture_fault(&mut stand.world, item)?;
    let raised = one(memory(&stand.world), failure)?;
    Ok(raised)
}

/// Demands an item's closure, or raises its fault.
pub(crate) fn demand_or_fault(
    stand: &mut Stand,
    plan: &Plan,
    item: &Item,
) -> Result<Seq<Failure>, OutOfMemory>
    requires plan { IsPlan plan.now }
    requires item { IsPlannedItem plan.now item.now }
    requires frames { StandsWith (stand_state stand.old) is_out [] }
    ensures { IfOk result (λ raised. session_step raised (stand_state stand.new) ≡ set_up_item (plan_rules plan.now) (item_in_session plan.now.table item.now) (stand_state stand.old)) }
{
    match &item.closure {
        ItemClosure::Whole(defs) => {
            let raised = demand(stand, plan, item, defs.items())?;
            Ok(raised)
        }
        ItemClosure::Fault(_) => {
            let raised = fault(stand, plan, item)?;
            Ok(raised)
        }
    }
}

/// Sets an item up, with its hooks: skips it, or demands its closure, or raises its fault.
pub(crate) fn set_up(
    stand: &mut Stand,
    plan: &Plan,
    item: &Item,
) -> Result<Seq<Failure>, OutOfMemory>
    requires plan { IsPlan plan.now }
    requires item { IsPlannedItem plan.now item.now }
    requires frames { StandsWith (stand_state stand.old) is_out [] }
    ensures state { IfOk result (λ raised. session_step raised (stand_state stand.new) ≡ fixture_set_up (plan_rules plan.now) (item_in_session plan.now.table item.now) (stand_state stand.old)) }
    ensures frames { OnOk result (StandsWith (stand_state stand.new) is_out []) }
{
    let alloc = memory(&stand.world);
    let raised = in_hooks(alloc, stand, plan, HookPhase::SetUp, item, None)?;
    Ok(raised)
}
