// The functions of hooks.

ghost use Rattle.std.specs.Prelude.{◌≡◌, IfOk, map, true};
ghost use Rattle.py_machine.specs.Yields.{sent_of};
ghost use Rattle.py_machine.specs.runner_values.Given.{added_object};
ghost use Rattle.py_values.specs.declared.object.Obj.TheVariants as obj;
ghost use Rattle.py_world.specs.Resuming.{is_out};
ghost use Rattle.fixture_calls.specs.Failing as failing;
ghost use Rattle.fixture_calls.specs.Hooks as hooks;

use crate::exceptions::exhausted;
use crate::failure::{Failure, copied_thrown};
use crate::yields::{FixtureEnd, body_end, give_up};
use py_machine::{Begun, Frozen, New, Sent, World, call, make};
use py_values::value::Value;
use py_world::{Outcome, Thrown, Trace};
use seq::OutOfMemory;
use std::alloc::Global;
use test_suite::{Hook, HookArgument};

/// How the call of a hook's function has ended.
#[derive(Drop)]
pub enum CallEnd {
    Returned(Value),
    Raised(Failure),
}

fn or_none(value: Option<Value>) -> Value
    ensures { result ≡ hooks.or_none value }
{
    match value {
        Some(value) => value,
        None => Value::None,
    }
}

fn argument_value(argument: HookArgument, first: Option<Value>, second: Option<Value>) -> Value
    ensures { result ≡ hooks.argument_value first second argument }
{
    match argument {
        HookArgument::First => or_none(first),
        HookArgument::Second => or_none(second),
    }
}

fn argument_values(
    alloc: Global,
    arguments: &[HookArgument],
    first: Option<Value>,
    second: Option<Value>,
) -> Result<Vec<Value>, OutOfMemory>
    ensures { IfOk result (λ values. values.items ≡ map (hooks.argument_value first second) arguments.now) }
{
    let mut values = Vec::new(alloc);
    for argument in arguments {
        values.push(argument_value(*argument, first, second))?;
    }
    Ok(values)
}

/// An exhausted call has raised `StepLimit`.
fn exhausted_call(
    alloc: Global,
    world: &mut World,
    limit: u64,
    trace: Trace,
) -> Result<CallEnd, OutOfMemory>
    ensures { IfOk result (λ e. (e, world.new) ≡ hooks.raised_call (failing.exhausted limit trace world.old)) }
{
    let failure = exhausted(alloc, world, limit, trace)?;
    Ok(CallEnd::Raised(failure))
}

fn call_end(
    alloc: Global,
    world: &mut World,
    limit: u64,
    out: Outcome,
) -> Result<CallEnd, OutOfMemory>
    ensures { IfOk result (λ e. (e, world.new) ≡ hooks.call_end limit out world.old) }
{
    match out {
        Outcome::Value(value) => Ok(CallEnd::Returned(value)),
        Outcome::Raised(thrown) => Ok(CallEnd::Raised(Failure::Exception(thrown))),
        Outcome::Exhausted(trace) => exhausted_call(alloc, world, limit, trace),
    }
}

/// Calls the function of a hook within a limit of steps, with those of these two that it takes; None stands for one that isn't there. Behind
/// want of memory the world is spent.
#[tactic(auto, unfolding(crate::specs::Hooks::hook_called))]
pub fn call_hook(
    alloc: Global,
    world: &mut World,
    hook: &Hook,
    first: Option<Value>,
    second: Option<Value>,
    limit: u64,
) -> Result<CallEnd, OutOfMemory>
    ensures { IfOk result (λ e. (e, world.new) ≡ hooks.hook_called limit hook.now first second world.old) }
{
    let args = argument_values(alloc, hook.arguments.items(), first, second)?;
    let ended = call(world, hook.function, &args, limit)?;
    call_end(alloc, world, limit, ended.out)
}

/// Calls the function of a wrapper likewise; one that yields stops there. Behind want of memory the world is spent.
#[tactic(auto, unfolding(crate::specs::Hooks::hook_begun))]
pub fn begin_hook(
    alloc: Global,
    world: &mut World,
    hook: &Hook,
    first: Option<Value>,
    second: Option<Value>,
    limit: u64,
) -> Result<FixtureEnd, OutOfMemory>
    ensures { IfOk result (λ e. (e, world.new) ≡ hooks.hook_begun limit hook.now first second world.old) }
{
    let args = argument_values(alloc, hook.arguments.items(), first, second)?;
    let Begun { out, steps: _ } = py_machine::begin(world, hook.function, &args, limit)?;
    body_end(alloc, world, limit, out)
}

#[tactic(auto, unfolding(crate::specs::Hooks::hook_resumed))]
fn resume_sent(
    alloc: Global,
    world: &mut World,
    rest: Frozen,
    sent: Sent,
    limit: u64,
) -> Result<FixtureEnd, OutOfMemory>
    requires out { is_out rest world.old ≡ true }
    ensures { IfOk result (λ e. (e, world.new) ≡ hooks.hook_resumed limit rest (sent_of sent) world.old) }
{
    let Begun { out, steps: _ } = py_machine::resume(world, rest, sent, limit)?;
    body_end(alloc, world, limit, out)
}

fn new_list(alloc: Global, world: &mut World, values: &[Value]) -> Result<Value, OutOfMemory>
    ensures { IfOk result (λ v. (v, world.new) ≡ failing.in_heap (added_object (obj.List values.now) world.old.heap) world.old) }
{
    let values = Vec::from_slice(alloc, values)?;
    make(world, &New::List(values))
}

/// What remains of a wrapper, and is out, goes on within a limit of steps, with these values as a new list. It is spent, whatever is answered;
/// behind want of memory the world is too.
pub fn resume_hook_with_values(
    alloc: Global,
    world: &mut World,
    rest: Frozen,
    values: &[Value],
    limit: u64,
) -> Result<FixtureEnd, OutOfMemory>
    requires out { is_out rest world.old ≡ true }
    ensures { IfOk result (λ e. (e, world.new) ≡ hooks.resumed_with_values limit rest values.now world.old) }
{
    match new_list(alloc, world, values) {
        Ok(list) => resume_sent(alloc, world, rest, Sent::Value(list), limit),
        Err(fault) => {
            give_up(world, rest);
            Err(fault)
        }
    }
}

/// What remains of a wrapper goes on likewise, with a value, or else None.
pub fn resume_hook_with_value(
    alloc: Global,
    world: &mut World,
    rest: Frozen,
    value: Option<Value>,
    limit: u64,
) -> Result<FixtureEnd, OutOfMemory>
    requires out { is_out rest world.old ≡ true }
    ensures { IfOk result (λ e. (e, world.new) ≡ hooks.resumed_with_value limit rest value world.old) }
{
    resume_sent(alloc, world, rest, Sent::Value(or_none(value)), limit)
}

fn thrown_of<'f>(failure: &'f Failure) -> &'f Thrown
    ensures { result.now ≡ hooks.failure_thrown failure.now }
{
    match failure {
        Failure::Exception(thrown) => thrown,
        Failure::FixtureFault(thrown, _) => thrown,
    }
}

/// What remains of a wrapper goes on likewise, by the exception of a failure, which is raised at its `yield`.
pub fn resume_hook_by(
    alloc: Global,
    world: &mut World,
    rest: Frozen,
    failure: &Failure,
    limit: u64,
) -> Result<FixtureEnd, OutOfMemory>
    requires out { is_out rest world.old ≡ true }
    ensures { IfOk result (λ e. (e, world.new) ≡ hooks.resumed_by limit rest failure.now world.old) }
{
    match copied_thrown(alloc, thrown_of(failure)) {
        Ok(thrown) => resume_sent(alloc, world, rest, Sent::Throw(thrown), limit),
        Err(fault) => {
            give_up(world, rest);
            Err(fault)
        }
    }
}
