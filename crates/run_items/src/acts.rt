// What is done in the world of a run, by the rules of sources.

ghost use Rattle.std.specs.Prelude.{◌≡◌, IfOk, codes, true};
ghost use Rattle.fixture_world.specs.fixture_calls.Asking.{test_request};
ghost use Rattle.fixture_world.specs.fixture_calls.Calls.{test_called};
ghost use Rattle.fixture_world.specs.fixture_calls.Hooks.{hook_begun, hook_called, resumed_by, resumed_with_value, resumed_with_values};
ghost use Rattle.fixture_world.specs.fixture_calls.Yields.{fixture_abandoned, fixture_given_up};
ghost use Rattle.fixture_world.specs.runtest_rules.Rules.{wrapper_fault};
ghost use Rattle.fixture_world.specs.runtest_rules.py_world.Resuming.{is_out};
ghost use Rattle.runtest_reports.specs.report_rules.Collected.{ends_badly};
ghost use Rattle.fixture_world.specs.runtest_rules.Failures as failures;
ghost use Rattle.fixture_world.specs.runtest_rules.Objects as objects;
ghost use Rattle.fixture_world.specs.runtest_rules.Phases as phases;
ghost use Rattle.session_rules.specs.World.{Teardown};

use fixture_world::{CallEnd, Ending, Failure, FixtureEnd, Frozen, RunWorld};
use py_values::value::Value;
use report_parts::Phase;
use seq::OutOfMemory;
use std::alloc::Global;
use test_suite::{Hook, Item};

/// Where a world takes memory.
pub(crate) fn memory(world: &RunWorld) -> Global {
    world.alloc
}

/// A new instance of an item's class, where it has one.
pub(crate) fn make_instance(world: &mut RunWorld, item: &Item) -> Result<Option<Value>, OutOfMemory>
    ensures { IfOk result (λ own. (own, world.new) ≡ objects.instance_of_item item.now world.old) }
{
    let own = fixture_world::make_instance(&mut world.world, item)?;
    Ok(own)
}

/// The object that hooks get for an item.
pub(crate) fn make_item(world: &mut RunWorld, item: &Item) -> Result<Value, OutOfMemory>
    ensures { IfOk result (λ object. (object, world.new) ≡ objects.item_object item.now world.old) }
{
    let object = fixture_world::make_item(world.alloc, &mut world.world, item)?;
    Ok(object)
}

/// The skip of an item, where its marks say so.
pub(crate) fn skip(world: &mut RunWorld, item: &Item) -> Result<Option<Failure>, OutOfMemory>
    ensures { IfOk result (λ failure. (failure, world.new) ≡ failures.skipped item.now world.old) }
{
    let failure = fixture_world::skip(world.alloc, &mut world.world, item)?;
    Ok(failure)
}

/// The fault of an item's fixtures.
pub(crate) fn fixture_fault(world: &mut RunWorld, item: &Item) -> Result<Failure, OutOfMemory>
    ensures { IfOk result (λ failure. (failure, world.new) ≡ failures.fixture_fault item.now world.old) }
{
    let failure = fixture_world::fixture_fault(world.alloc, &mut world.world, item)?;
    Ok(failure)
}

/// The exception of a test without a value for one of its arguments.
pub(crate) fn wrong_arguments(world: &mut RunWorld, item: &Item) -> Result<Failure, OutOfMemory>
    ensures { IfOk result (λ failure. (failure, world.new) ≡ failures.wrong_arguments item.now world.old) }
{
    let failure = fixture_world::wrong_arguments(world.alloc, &mut world.world, item)?;
    Ok(failure)
}

/// The `request` of a test, where it takes one.
pub(crate) fn ask_test(world: &mut RunWorld, item: &Item) -> Result<Option<Value>, OutOfMemory>
    ensures { IfOk result (λ request. (request, world.new) ≡ test_request item.now world.old) }
{
    let request = fixture_world::ask_test(world.alloc, &mut world.world, item)?;
    Ok(request)
}

/// Calls an item's test with the instance of its class, these values and this `request`: why it failed, if it did.
pub(crate) fn call_test(
    world: &mut RunWorld,
    item: &Item,
    own: Option<Value>,
    values: &[Value],
    request: Option<Value>,
    limit: u64,
) -> Result<Option<Failure>, OutOfMemory>
    ensures { IfOk result (λ failure. (failure, world.new) ≡ test_called limit item.now own values.now request world.old) }
{
    let failure = fixture_world::call_test(
        world.alloc,
        &mut world.world,
        item,
        own,
        values,
        request,
        limit,
    )?;
    Ok(failure)
}

/// Ends a phase of an item that raised these.
pub(crate) fn end_phase(
    world: &mut RunWorld,
    phase: Phase,
    item: &Item,
    raised: &[Failure],
) -> Result<Ending, OutOfMemory>
    ensures { IfOk result (λ ending. (ending, world.new) ≡ phases.phase_ended (phases.phase_of phase) item.now raised.now world.old) }
{
    let ending = fixture_world::end_phase(world.alloc, &mut world.world, phase, item, raised)?;
    Ok(ending)
}

/// Whether a teardown that raised these is an error.
pub(crate) fn fails_in_teardown(
    world: &RunWorld,
    item: &Item,
    raised: &[Failure],
) -> Result<bool, OutOfMemory>
    ensures { IfOk result (λ error. error ≡ ends_badly Teardown (phases.phase_ended Teardown item.now raised.now world.now).0) }
{
    let error = fixture_world::fails_in_teardown(world.alloc, &world.world, item, raised)?;
    Ok(error)
}

/// Gives up what remains of a wrapper, and is out. Takes no memory.
pub(crate) fn abandon(world: &mut RunWorld, rest: Frozen)
    requires out { is_out rest world.old ≡ true }
    ensures { world.new ≡ fixture_abandoned rest world.old }
{
    fixture_world::abandon(&mut world.world, rest);
}

/// Lets go what remains of a wrapper behind want of memory. Takes no memory.
pub(crate) fn give_up(world: &mut RunWorld, rest: Frozen)
    ensures { world.new ≡ fixture_given_up rest world.old }
{
    fixture_world::give_up(&mut world.world, rest);
}

/// Calls the function of a hook with these objects.
pub(crate) fn call_hook(
    world: &mut RunWorld,
    hook: &Hook,
    item: Option<Value>,
    next: Option<Value>,
    limit: u64,
) -> Result<CallEnd, OutOfMemory>
    ensures { IfOk result (λ end. (end, world.new) ≡ hook_called limit hook.now item next world.old) }
{
    let end = fixture_world::call_hook(world.alloc, &mut world.world, hook, item, next, limit)?;
    Ok(end)
}

/// Calls the function of a wrapper with these objects; one that yields stops there.
pub(crate) fn begin_hook(
    world: &mut RunWorld,
    hook: &Hook,
    item: Option<Value>,
    next: Option<Value>,
    limit: u64,
) -> Result<FixtureEnd, OutOfMemory>
    ensures { IfOk result (λ end. (end, world.new) ≡ hook_begun limit hook.now item next world.old) }
{
    let end = fixture_world::begin_hook(world.alloc, &mut world.world, hook, item, next, limit)?;
    Ok(end)
}

/// What remains of a wrapper goes on with these values as a new list.
pub(crate) fn resume_with_values(
    world: &mut RunWorld,
    rest: Frozen,
    values: &[Value],
    limit: u64,
) -> Result<FixtureEnd, OutOfMemory>
    requires out { is_out rest world.old ≡ true }
    ensures { IfOk result (λ end. (end, world.new) ≡ resumed_with_values limit rest values.now world.old) }
{
    let alloc = world.alloc;
    let end = fixture_world::resume_hook_with_values(alloc, &mut world.world, rest, values, limit)?;
    Ok(end)
}

/// What remains of a wrapper goes on with a value, or else None.
pub(crate) fn resume_with_value(
    world: &mut RunWorld,
    rest: Frozen,
    value: Option<Value>,
    limit: u64,
) -> Result<FixtureEnd, OutOfMemory>
    requires out { is_out rest world.old ≡ true }
    ensures { IfOk result (λ end. (end, world.new) ≡ resumed_with_value limit rest value world.old) }
{
    let alloc = world.alloc;
    let end = fixture_world::resume_hook_with_value(alloc, &mut world.world, rest, value, limit)?;
    Ok(end)
}

/// What remains of a wrapper goes on by the exception of a failure.
pub(crate) fn resume_by(
    world: &mut RunWorld,
    rest: Frozen,
    failure: &Failure,
    limit: u64,
) -> Result<FixtureEnd, OutOfMemory>
    requires out { is_out rest world.old ≡ true }
    ensures { IfOk result (λ end. (end, world.new) ≡ resumed_by limit rest failure.now world.old) }
{
    let end = fixture_world::resume_hook_by(world.alloc, &mut world.world, rest, failure, limit)?;
    Ok(end)
}

/// The exception of a wrapper that ended without yielding.
pub(crate) fn wrapper_did_not_yield(
    world: &mut RunWorld,
    hook: &Hook,
) -> Result<Failure, OutOfMemory>
    ensures { IfOk result (λ failure. (failure, world.new) ≡ wrapper_fault hook.now (codes "hook wrapper did not yield") world.old) }
{
    let failure = fixture_world::wrapper_did_not_yield(world.alloc, &mut world.world, hook)?;
    Ok(failure)
}

/// The exception of a wrapper that yields again.
pub(crate) fn wrapper_yielded_again(
    world: &mut RunWorld,
    hook: &Hook,
) -> Result<Failure, OutOfMemory>
    ensures { IfOk result (λ failure. (failure, world.new) ≡ wrapper_fault hook.now (codes "hook wrapper yielded twice") world.old) }
{
    let failure = fixture_world::wrapper_yielded_again(world.alloc, &mut world.world, hook)?;
    Ok(failure)
}
