// The hooks of the phases of an item.

ghost use Rattle.std.specs.Prelude.{◌≡◌, ◌++◌, [], IfOk, OnOk, option_map};
ghost use Rattle.fixture_world.specs.fixture_calls.Hooks.{hook_called};
ghost use Rattle.fixture_world.specs.Items.{item_in_session};
ghost use Rattle.hook_order.specs.HookOrder.{InHookOrder};
ghost use Rattle.hook_phases.specs.Phases.{phase_of};
ghost use Rattle.hook_phases.specs.Steps.{IsKnownWhere, behind_implement, item_where};
ghost use Rattle.hook_phases.specs.Views.{implement_answer};
ghost use Rattle.run_items.specs.Hooking.{implemented_at};
ghost use Rattle.run_items.specs.Stands.{IsPlan, IsPlannedItem, plan_rules, stand_state};
ghost use Rattle.fixture_world.specs.runtest_rules.Language.{python};
ghost use Rattle.fixture_world.specs.runtest_rules.Rules.{call_answer, call_end_of, hook_answer, implemented_for, impls_of};
ghost use Rattle.fixture_world.specs.runtest_rules.py_world.Resuming.{is_out};
ghost use Rattle.session_rules.specs.Frames.{StandsWith};
ghost use Rattle.session_rules.specs.Session.{answered, built_of, gathered, one_raised};
ghost use Rattle.session_rules.specs.Teardown.{session_step};
ghost use Rattle.test_suite.specs.Hooks.{hook_at};

use crate::acts::{memory, skip};
use crate::opening::{next_object, own_object};
use crate::plan::Plan;
use crate::stand::Stand;
use crate::{acts, calling, leaving, setting_up};
use fixture_world::{CallEnd, Failure, RunSetting, RunWorld, hooks_for, not_none};
use hook_order::Impl;
use hook_phases::{HookPhase, ImplementEnd};
use py_values::value::Value;
use seq::{OutOfMemory, Seq};
use std::alloc::Global;
use test_suite::{Hook, HookTable, Item};

/// The implementations of the hook of a phase, in hook order.
fn impls_of(table: &HookTable, phase: HookPhase) -> &[Impl]
    ensures { result.now ≡ impls_of table.now (phase_of phase) }
{
    match phase {
        HookPhase::SetUp => table.set_up.items(),
        HookPhase::Call => table.call.items(),
        HookPhase::Teardown => table.teardown.items(),
    }
}

/// The implementations of a phase that serve an item, in hook order.
pub(crate) fn hooks_of(
    alloc: Global,
    plan: &Plan,
    phase: HookPhase,
    item: &Item,
) -> Result<Seq<Impl>, OutOfMemory>
    requires plan { IsPlan plan.now }
    requires item { IsPlannedItem plan.now item.now }
    ensures hooks { IfOk result (λ hooks. hooks ≡ (plan_rules plan.now).hooks (phase_of phase) item.now.node) }
    ensures order { IfOk result (λ hooks. InHookOrder hooks) }
{
    let table = &plan.run.suite.hooks;
    let hooks = hooks_for(alloc, table, item, impls_of(table, phase))?;
    Ok(hooks)
}

/// What an implementation that skips answers.
fn skip_end(failure: Option<Failure>) -> ImplementEnd<Value, Failure>
    ensures { implement_answer python result ≡ hook_answer failure }
{
    match failure {
        Some(failure) => ImplementEnd::Raised(failure),
        None => ImplementEnd::Gave(None),
    }
}

/// What a hook whose call has ended so answers.
fn call_end(end: CallEnd) -> ImplementEnd<Value, Failure>
    ensures { implement_answer python result ≡ call_answer end }
{
    match end {
        CallEnd::Returned(value) => ImplementEnd::Gave(not_none(value)),
        CallEnd::Raised(failure) => ImplementEnd::Raised(failure),
    }
}

/// Calls a hook of a conftest with these objects.
fn implement_hook(
    world: &mut RunWorld,
    run: &RunSetting,
    given: Option<Value>,
    next: Option<Value>,
    which: &Impl,
) -> Result<ImplementEnd<Value, Failure>, OutOfMemory>
    ensures { IfOk result (λ end. answered {L = python} (implement_answer python end) world.new ≡ call_end_of (hook_called run.now.limit (hook_at run.now.suite.hooks which.now.code) given next world.old)) }
{
    let none = Hook::none(memory(world));
    let hook = run.suite.hooks.hook_or(which.code, &none);
    let end = acts::call_hook(world, hook, given, next, run.limit)?;
    Ok(call_end(end))
}

/// Calls an implementation beside those of the phases with these objects: the one with the number 0 skips, where the marks of the item say
/// so, and others are hooks of conftests.
fn implement_with(
    world: &mut RunWorld,
    run: &RunSetting,
    item: &Item,
    given: Option<Value>,
    next: Option<Value>,
    which: &Impl,
) -> Result<ImplementEnd<Value, Failure>, OutOfMemory>
    ensures { IfOk result (λ end. answered {L = python} (implement_answer python end) world.new ≡ implemented_for run.now.limit run.now.suite.hooks item.now (record { item = given; next = next }) which.now world.old) }
{
    if which.registered == 0 {
        let failure = skip(world, item)?;
        return Ok(skip_end(failure));
    }
    implement_hook(world, run, given, next, which)
}

/// The value that was given, unless it is None, is gathered.
fn gather(values: &mut Seq<Value>, end: &ImplementEnd<Value, Failure>) -> Result<(), OutOfMemory>
    ensures { OnOk result (values.new ≡ values.old ++ gathered (one_raised {L = python} (implement_answer python end.now))) }
{
    match end {
        ImplementEnd::Gave(Some(value)) => values.push(*value),
        ImplementEnd::Gave(None) | ImplementEnd::Raised(_) => Ok(()),
    }
}

/// Calls an implementation beside those of the phases; the value that it gives is gathered.
pub(crate) fn implement(
    stand: &mut Stand,
    plan: &Plan,
    item: &Item,
    next: Option<&Item>,
    which: &Impl,
) -> Result<ImplementEnd<Value, Failure>, OutOfMemory>
    requires item { IsPlannedItem plan.now item.now }
    ensures answer { IfOk result (λ end. implement_answer python end ≡ (implemented_at plan.now item.now (option_map (λ item. item.now) next.entry) which.now (stand_state stand.old)).answer) }
    ensures state { OnOk result (stand_state stand.new ≡ behind_implement (implemented_at plan.now item.now (option_map (λ item. item.now) next.entry) which.now (stand_state stand.old)) (stand_state stand.old)) }
{
    let given = own_object(stand, item);
    let behind = next_object(stand, plan, next);
    let end = implement_with(&mut stand.world, &plan.run, item, given, behind, which)?;
    match gather(&mut stand.values, &end) {
        Ok(()) => Ok(end),
        Err(fault) => {
            drop(end);
            Err(fault)
        }
    }
}

/// The built-in implementation of a phase; the exceptions in order.
pub(crate) fn built(
    stand: &mut Stand,
    plan: &Plan,
    phase: HookPhase,
    item: &Item,
    next: Option<&Item>,
) -> Result<Seq<Failure>, OutOfMemory>
    requires plan { IsPlan plan.now }
    requires item { IsPlannedItem plan.now item.now }
    requires next { IsKnownWhere (IsPlannedItem plan.now) (option_map (λ item. item.now) next) }
    requires frames { StandsWith (stand_state stand.old) is_out [] }
    ensures { IfOk result (λ raised. session_step raised (stand_state stand.new) ≡ built_of (plan_rules plan.now) (phase_of phase) (item_in_session plan.now.table item.now) (item_where (item_in_session plan.now.table) (option_map (λ item. item.now) next.entry)) (stand_state stand.old)) }
{
    match phase {
        HookPhase::SetUp => setting_up::demand_or_fault(stand, plan, item),
        HookPhase::Call => calling::call_asked(stand, plan, item),
        HookPhase::Teardown => leaving::leave(stand, plan, next),
    }
}
