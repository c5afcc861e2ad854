// The ends of phases.

ghost use Rattle.std.specs.Prelude.{◌≡◌, IfOk, OnOk};
ghost use Rattle.fixture_world.specs.Items.{item_in_session};
ghost use Rattle.report_parts.specs.Outcomes.{is_raised};
ghost use Rattle.run_items.specs.Stands.{IsPlannedItem, plan_rules, stand_state};
ghost use Rattle.runtest_reports.specs.Kept.{reported_ending, session_phase};
ghost use Rattle.session_rules.specs.Session.{telling};
ghost use Rattle.session_rules.specs.Teardown.{in_world, session_step};
ghost use Rattle.session_rules.specs.World.{Teardown};

use crate::acts;
use crate::plan::Plan;
use crate::stand::Stand;
use fixture_world::{Ending, Failure};
use report_parts::Phase;
use runtest_reports::PhaseEnding;
use seq::{OutOfMemory, Seq};
use test_suite::Item;

/// Whether a teardown that raised these is an error.
pub(crate) fn is_error(
    stand: &Stand,
    plan: &Plan,
    item: &Item,
    raised: &[Failure],
) -> Result<bool, OutOfMemory>
    requires item { IsPlannedItem plan.now item.now }
    ensures { IfOk result (λ error. error ≡ is_raised (telling (plan_rules plan.now) Teardown (item_in_session plan.now.table item.now) (session_step raised.now (stand_state stand.now))).told.end) }
{
    let error = acts::fails_in_teardown(&stand.world, item, raised)?;
    Ok(error)
}

fn ending_of(ending: Ending) -> PhaseEnding
    ensures { reported_ending result ≡ ending }
{
    let Ending { end, captured } = ending;
    PhaseEnding { end, captured }
}

/// The end of a phase that raised these.
fn end_of(
    stand: &mut Stand,
    plan: &Plan,
    phase: Phase,
    item: &Item,
    raised: &[Failure],
) -> Result<PhaseEnding, OutOfMemory>
    requires item { IsPlannedItem plan.now item.now }
    ensures told { IfOk result (λ ending. reported_ending ending ≡ (telling (plan_rules plan.now) (session_phase phase) (item_in_session plan.now.table item.now) (session_step raised.now (stand_state stand.old))).told) }
    ensures state { OnOk result (stand_state stand.new ≡ in_world (telling (plan_rules plan.now) (session_phase phase) (item_in_session plan.now.table item.now) (session_step raised.now (stand_state stand.old))).world (stand_state stand.old)) }
{
    let ending = acts::end_phase(&mut stand.world, phase, item, raised)?;
    Ok(ending_of(ending))
}

/// The end of a phase that raised these, which are given up.
pub(crate) fn end_phase(
    stand: &mut Stand,
    plan: &Plan,
    phase: Phase,
    item: &Item,
    raised: Seq<Failure>,
) -> Result<PhaseEnding, OutOfMemory>
    requires item { IsPlannedItem plan.now item.now }
    ensures told { IfOk result (λ ending. reported_ending ending ≡ (telling (plan_rules plan.now) (session_phase phase) (item_in_session plan.now.table item.now) (session_step raised (stand_state stand.old))).told) }
    ensures state { OnOk result (stand_state stand.new ≡ in_world (telling (plan_rules plan.now) (session_phase phase) (item_in_session plan.now.table item.now) (session_step raised (stand_state stand.old))).world (stand_state stand.old)) }
{
    let ending = end_of(stand, plan, phase, item, raised.items());
    drop(raised);
    ending
}
