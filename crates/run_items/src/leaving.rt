// The teardown of an item.

ghost use Rattle.std.specs.Prelude.{◌≡◌, [], IfOk, OnOk, option_map};
ghost use Rattle.runtest_reports.specs.fixture_sessions.FixtureSession.{fixture_leave};
ghost use Rattle.fixture_world.specs.Items.{item_in_session};
ghost use Rattle.hook_phases.specs.Steps.{IsKnownWhere, item_where};
ghost use Rattle.run_items.specs.Stands.{IsPlan, IsPlannedItem, node_of, plan_rules, planned, stand_state};
ghost use Rattle.runtest_reports.specs.Stages.{IsKnownItem, session_item};
ghost use Rattle.session_rules.specs.Frames.{StandsWith};
ghost use Rattle.fixture_world.specs.runtest_rules.py_world.Resuming.{is_out};
ghost use Rattle.session_rules.specs.Session.{leave};
ghost use Rattle.session_rules.specs.Teardown.{down_all, session_step};

use crate::acts::memory;
use crate::plan::Plan;
use crate::stand::Stand;
use fixture_world::Failure;
use seq::{OutOfMemory, Seq};
use test_suite::Item;

fn node_of(next: Option<&Item>) -> Option<u32>
    ensures { result ≡ node_of (option_map (λ item. item.now) next.entry) }
{
    match next {
        Some(next) => Some(next.node),
        None => None,
    }
}

/// Calls the finalizers of the test's own `request`, and takes down what isn't for the next item.
pub(crate) fn leave(
    stand: &mut Stand,
    plan: &Plan,
    next: Option<&Item>,
) -> Result<Seq<Failure>, OutOfMemory>
    requires plan { IsPlan plan.now }
    requires next { IsKnownWhere (IsPlannedItem plan.now) (option_map (λ item. item.now) next) }
    requires frames { StandsWith (stand_state stand.old) is_out [] }
    ensures { IfOk result (λ raised. session_step raised (stand_state stand.new) ≡ leave (plan_rules plan.now) (item_where (item_in_session plan.now.table) (option_map (λ item. item.now) next.entry)) (stand_state stand.old)) }
{
    let alloc = memory(&stand.world);
    let node = node_of(next);
    stand.left = true;
    let raised = item_stack::leave(
        alloc,
        &mut stand.stack,
        &mut stand.world,
        &plan.run,
        &plan.table,
        node,
    )?;
    Ok(raised)
}

/// Leaves an item, with its hooks.
pub(crate) fn tear_down(
    stand: &mut Stand,
    plan: &Plan,
    item: &Item,
    next: Option<&Item>,
) -> Result<Seq<Failure>, OutOfMemory>
    requires plan { IsPlan plan.now }
    requires item { IsPlannedItem plan.now item.now }
    requires next { IsKnownItem (IsPlannedItem plan.now) (option_map (λ item. item.now) next) }
    requires frames { StandsWith (stand_state stand.old) is_out [] }
    ensures state { IfOk result (λ raised. session_step raised (stand_state stand.new) ≡ fixture_leave (plan_rules plan.now) (item_in_session plan.now.table item.now) (session_item (planned plan.now) (option_map (λ item. item.now) next.entry)) (stand_state stand.old)) }
    ensures frames { OnOk result (StandsWith (stand_state stand.new) is_out []) }
{
    let alloc = memory(&stand.world);
    let raised = hook_phases::leave(alloc, stand, plan, item, next)?;
    Ok(raised)
}

/// Takes down all that lives, where no item is at hand.
pub(crate) fn all_down(stand: &mut Stand, plan: &Plan) -> Result<Seq<Failure>, OutOfMemory>
    requires plan { IsPlan plan.now }
    requires left { (stand_state stand.old).given ≡ [] }
    requires frames { StandsWith (stand_state stand.old) is_out [] }
    ensures state { IfOk result (λ raised. session_step raised (stand_state stand.new) ≡ down_all (plan_rules plan.now) (stand_state stand.old).live (stand_state stand.old)) }
    ensures frames { OnOk result (StandsWith (stand_state stand.new) is_out []) }
{
    let alloc = memory(&stand.world);
    let raised = item_stack::all_down(
        alloc,
        &mut stand.stack,
        &mut stand.world,
        &plan.run,
        &plan.table,
    )?;
    Ok(raised)
}
