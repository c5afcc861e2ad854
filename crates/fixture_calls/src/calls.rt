// Calls of tests and finalizers.

ghost use Rattle.std.specs.Prelude.{◌≡◌, IfOk};
ghost use Rattle.fixture_calls.specs.Calls as calls;

use crate::arguments::positional;
use crate::exceptions::exhausted;
use crate::failure::Failure;
use py_machine::{World, call};
use py_values::value::Value;
use py_world::Outcome;
use seq::OutOfMemory;
use std::alloc::Global;
use test_suite::Item;

/// How a call has ended; an exhausted one has raised `StepLimit`.
fn call_failure(
    alloc: Global,
    world: &mut World,
    limit: u64,
    out: Outcome,
) -> Result<Option<Failure>, OutOfMemory>
    ensures { IfOk result (λ f. (f, world.new) ≡ calls.call_failure limit out world.old) }
{
    match out {
        Outcome::Value(_) => Ok(None),
        Outcome::Raised(thrown) => Ok(Some(Failure::Exception(thrown))),
        Outcome::Exhausted(trace) => Ok(Some(exhausted(alloc, world, limit, trace)?)),
    }
}

/// Calls an item's test within a limit of steps, with the instance of its class where it has one, then with this request, what its row
/// binds and these values in the order of its arguments: why it failed, if it did. Behind want of memory the world is spent.
#[tactic(auto, unfolding(crate::specs::Calls::test_called))]
pub fn call_test(
    alloc: Global,
    world: &mut World,
    item: &Item,
    own: Option<Value>,
    values: &[Value],
    request: Option<Value>,
    limit: u64,
) -> Result<Option<Failure>, OutOfMemory>
    ensures { IfOk result (λ f. (f, world.new) ≡ calls.test_called limit item.now own values.now request world.old) }
{
    let bound = item.bound.items();
    let args = positional(alloc, own, bound, item.arguments.items(), request, values)?;
    let ended = call(world, item.test.function, &args, limit)?;
    call_failure(alloc, world, limit, ended.out)
}

/// Calls a finalizer within a limit of steps: why it failed, if it did. Behind want of memory the world is spent.
#[tactic(auto, unfolding(crate::specs::Calls::finalizer_called))]
pub fn call_finalizer(
    alloc: Global,
    world: &mut World,
    finalizer: Value,
    limit: u64,
) -> Result<Option<Failure>, OutOfMemory>
    ensures { IfOk result (λ f. (f, world.new) ≡ calls.finalizer_called limit finalizer world.old) }
{
    let ended = call(world, finalizer, &[], limit)?;
    call_failure(alloc, world, limit, ended.out)
}
