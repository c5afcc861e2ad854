// The wrappers of a phase's hook.

ghost use Rattle.std.specs.Prelude.{◌≡◌, IfOk, OnOk, codes, option_map, true};
ghost use Rattle.fixture_world.specs.fixture_calls.Hooks.{hook_begun, resumed_by, resumed_with_value, resumed_with_values};
ghost use Rattle.fixture_world.specs.runtest_rules.Language.{python};
ghost use Rattle.fixture_world.specs.runtest_rules.Rules.{body_end_of, wrapper_fault};
ghost use Rattle.fixture_world.specs.runtest_rules.py_world.Resuming.{is_out};
ghost use Rattle.hook_phases.specs.Views.{wrapper_end};
ghost use Rattle.run_items.specs.Hooking.{opened_at};
ghost use Rattle.run_items.specs.Stands.{stand_state};
ghost use Rattle.session_rules.specs.Teardown.{in_world};
ghost use Rattle.test_suite.specs.Hooks.{hook_at};

use crate::acts;
use crate::acts::memory;
use crate::opening::{next_object, own_object};
use crate::plan::Plan;
use crate::stand::Stand;
use fixture_world::{Failure, FixtureEnd, Frozen, RunSetting, RunWorld};
use hook_order::Impl;
use hook_phases::WrapperEnd;
use py_values::value::Value;
use seq::OutOfMemory;
use test_suite::{Hook, HookTable, Item};

/// How the body of a wrapper has ended.
fn wrapper_end(end: FixtureEnd) -> WrapperEnd<Value, Failure, Frozen>
    ensures { wrapper_end python result ≡ body_end_of end }
{
    match end {
        FixtureEnd::Returned(value) => WrapperEnd::Returned(value),
        FixtureEnd::Yielded(value, rest) => WrapperEnd::Yielded(value, rest),
        FixtureEnd::Raised(failure) => WrapperEnd::Raised(failure),
    }
}

/// Runs a wrapper of a conftest with these objects up to its `yield`.
fn open_with(
    world: &mut RunWorld,
    run: &RunSetting,
    given: Option<Value>,
    next: Option<Value>,
    which: &Impl,
) -> Result<FixtureEnd, OutOfMemory>
    ensures { IfOk result (λ end. (end, world.new) ≡ hook_begun run.now.limit (hook_at run.now.suite.hooks which.now.code) given next world.old) }
{
    let none = Hook::none(memory(world));
    let hook = run.suite.hooks.hook_or(which.code, &none);
    let end = acts::begin_hook(world, hook, given, next, run.limit)?;
    Ok(end)
}

/// Runs a wrapper up to its `yield`.
pub(crate) fn open_wrapper(
    stand: &mut Stand,
    plan: &Plan,
    item: &Item,
    next: Option<&Item>,
    which: &Impl,
) -> Result<WrapperEnd<Value, Failure, Frozen>, OutOfMemory>
    ensures how { IfOk result (λ end. wrapper_end python end ≡ (opened_at plan.now item.now (option_map (λ item. item.now) next.entry) which.now (stand_state stand.old)).how) }
    ensures state { OnOk result (stand_state stand.new ≡ in_world (opened_at plan.now item.now (option_map (λ item. item.now) next.entry) which.now (stand_state stand.old)).world (stand_state stand.old)) }
{
    let given = own_object(stand, item);
    let behind = next_object(stand, plan, next);
    let end = open_with(&mut stand.world, &plan.run, given, behind, which)?;
    Ok(wrapper_end(end))
}

/// What remains of a wrapper goes on with the values that were gathered.
pub(crate) fn resume_with_values(
    stand: &mut Stand,
    limit: u64,
    rest: Frozen,
) -> Result<WrapperEnd<Value, Failure, Frozen>, OutOfMemory>
    requires out { is_out rest (stand_state stand.old).world ≡ true }
    ensures how { IfOk result (λ end. wrapper_end python end ≡ body_end_of (resumed_with_values limit rest (stand_state stand.old).values (stand_state stand.old).world).0) }
    ensures state { OnOk result (stand_state stand.new ≡ in_world (resumed_with_values limit rest (stand_state stand.old).values (stand_state stand.old).world).1 (stand_state stand.old)) }
{
    let end = acts::resume_with_values(&mut stand.world, rest, stand.values.items(), limit)?;
    Ok(wrapper_end(end))
}

/// What remains of a wrapper goes on with a value, or else None.
pub(crate) fn resume_with_value(
    stand: &mut Stand,
    limit: u64,
    rest: Frozen,
    value: Option<Value>,
) -> Result<WrapperEnd<Value, Failure, Frozen>, OutOfMemory>
    requires out { is_out rest (stand_state stand.old).world ≡ true }
    ensures how { IfOk result (λ end. wrapper_end python end ≡ body_end_of (resumed_with_value limit rest value (stand_state stand.old).world).0) }
    ensures state { OnOk result (stand_state stand.new ≡ in_world (resumed_with_value limit rest value (stand_state stand.old).world).1 (stand_state stand.old)) }
{
    let end = acts::resume_with_value(&mut stand.world, rest, value, limit)?;
    Ok(wrapper_end(end))
}

/// What remains of a wrapper goes on by the exception of a failure.
pub(crate) fn resume_by(
    stand: &mut Stand,
    limit: u64,
    rest: Frozen,
    failure: &Failure,
) -> Result<WrapperEnd<Value, Failure, Frozen>, OutOfMemory>
    requires out { is_out rest (stand_state stand.old).world ≡ true }
    ensures how { IfOk result (λ end. wrapper_end python end ≡ body_end_of (resumed_by limit rest failure.now (stand_state stand.old).world).0) }
    ensures state { OnOk result (stand_state stand.new ≡ in_world (resumed_by limit rest failure.now (stand_state stand.old).world).1 (stand_state stand.old)) }
{
    let end = acts::resume_by(&mut stand.world, rest, failure, limit)?;
    Ok(wrapper_end(end))
}

/// The exception of a wrapper that ended without yielding.
pub(crate) fn wrapper_did_not_yield(
    world: &mut RunWorld,
    table: &HookTable,
    which: &Impl,
) -> Result<Failure, OutOfMemory>
    ensures { IfOk result (λ failure. (failure, world.new) ≡ wrapper_fault (hook_at table.now which.now.code) (codes "hook wrapper did not yield") world.old) }
{
    let none = Hook::none(memory(world));
    let failure = acts::wrapper_did_not_yield(world, table.hook_or(which.code, &none))?;
    Ok(failure)
}

/// The exception of a wrapper that yields again.
pub(crate) fn wrapper_yielded_again(
    world: &mut RunWorld,
    table: &HookTable,
    which: &Impl,
) -> Result<Failure, OutOfMemory>
    ensures { IfOk result (λ failure. (failure, world.new) ≡ wrapper_fault (hook_at table.now which.now.code) (codes "hook wrapper yielded twice") world.old) }
{
    let none = Hook::none(memory(world));
    let failure = acts::wrapper_yielded_again(world, table.hook_or(which.code, &none))?;
    Ok(failure)
}
