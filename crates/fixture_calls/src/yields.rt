// The functions of fixtures, which may stop at a `yield`.

ghost use Rattle.std.specs.Prelude.{◌≡◌, IfOk, true};
ghost use Rattle.py_machine.specs.Yields.{told_out};
ghost use Rattle.py_world.specs.Resuming.{is_out};
ghost use Rattle.fixture_calls.specs.Failing as failing;
ghost use Rattle.fixture_calls.specs.Yields as yields;

use crate::arguments::positional;
use crate::exceptions::{exception_for, exhausted};
use crate::failure::Failure;
use py_machine::{Begun, BegunOut, Frozen, Sent, World};
use py_values::class::ExcClass;
use py_values::end::push_ascii;
use py_values::value::Value;
use py_world::{Outcome, Trace};
use seq::{OutOfMemory, PyText};
use std::alloc::Global;
use test_suite::{BoundArgument, Fixture};

/// How a fixture's function ended, or what remained of it.
pub enum FixtureEnd {
    Returned(Value),
    /// It stands at its `yield`, with this value; what remains must be resumed or given up.
    Yielded(Value, Frozen),
    Raised(Failure),
}

/// An exhausted body has raised `StepLimit`.
fn exhausted_end(
    alloc: Global,
    world: &mut World,
    limit: u64,
    trace: Trace,
) -> Result<FixtureEnd, OutOfMemory>
    ensures { IfOk result (λ e. (e, world.new) ≡ yields.raised_end (failing.exhausted limit trace world.old)) }
{
    let failure = exhausted(alloc, world, limit, trace)?;
    Ok(FixtureEnd::Raised(failure))
}

fn over_end(
    alloc: Global,
    world: &mut World,
    limit: u64,
    out: Outcome,
) -> Result<FixtureEnd, OutOfMemory>
    ensures { IfOk result (λ e. (e, world.new) ≡ yields.over_end limit out world.old) }
{
    match out {
        Outcome::Value(value) => Ok(FixtureEnd::Returned(value)),
        Outcome::Raised(thrown) => Ok(FixtureEnd::Raised(Failure::Exception(thrown))),
        Outcome::Exhausted(trace) => exhausted_end(alloc, world, limit, trace),
    }
}

pub(crate) fn body_end(
    alloc: Global,
    world: &mut World,
    limit: u64,
    out: BegunOut,
) -> Result<FixtureEnd, OutOfMemory>
    ensures { IfOk result (λ e. (e, world.new) ≡ yields.body_end limit (told_out out) world.old) }
{
    match out {
        BegunOut::Yielded(value, frozen) => Ok(FixtureEnd::Yielded(value, frozen)),
        BegunOut::Over(out) => over_end(alloc, world, limit, out),
    }
}

fn own_if(in_class: bool, own: Option<Value>) -> Option<Value>
    ensures { result ≡ yields.own_if in_class own }
{
    if in_class { own } else { None }
}

/// Calls a fixture's function within a limit of steps, with this instance where it stands in a class, then with this request, what the row
/// of the item binds and these values in the order of its arguments; one that yields stops there. Behind want of memory the world is spent.
#[tactic(auto, unfolding(crate::specs::Yields::fixture_begun))]
pub fn begin(
    alloc: Global,
    world: &mut World,
    fixture: &Fixture,
    bound: &[BoundArgument],
    own: Option<Value>,
    values: &[Value],
    request: Option<Value>,
    limit: u64,
) -> Result<FixtureEnd, OutOfMemory>
    ensures { IfOk result (λ e. (e, world.new) ≡ yields.fixture_begun limit fixture.now bound.now own values.now request world.old) }
{
    let own = own_if(fixture.in_class, own);
    let args = positional(
        alloc,
        own,
        bound,
        fixture.arguments.items(),
        request,
        values,
    )?;
    let Begun { out, steps: _ } = py_machine::begin(world, fixture.function, &args, limit)?;
    body_end(alloc, world, limit, out)
}

/// What remains behind a `yield`, and is out, goes on within a limit of steps, with the sent value None. Behind want of memory the world is spent.
#[tactic(auto, unfolding(crate::specs::Yields::fixture_resumed))]
pub fn resume(
    alloc: Global,
    world: &mut World,
    rest: Frozen,
    limit: u64,
) -> Result<FixtureEnd, OutOfMemory>
    requires out { is_out rest world.old ≡ true }
    ensures { IfOk result (λ e. (e, world.new) ≡ yields.fixture_resumed limit rest world.old) }
{
    let Begun { out, steps: _ } = py_machine::resume(world, rest, Sent::Value(Value::None), limit)?;
    body_end(alloc, world, limit, out)
}

/// Gives up what remains behind a `yield`, and is out. Takes no memory.
#[tactic(auto, unfolding(crate::specs::Yields::fixture_abandoned))]
pub fn abandon(world: &mut World, rest: Frozen)
    requires out { is_out rest world.old ≡ true }
    ensures { world.new ≡ yields.fixture_abandoned rest world.old }
{
    py_machine::abandon(world, rest);
}

/// Lets go what remains behind a `yield` behind want of memory: the world is spent. Takes no memory.
pub fn give_up(world: &mut World, rest: Frozen)
    ensures { world.new ≡ yields.fixture_given_up rest world.old }
{
    py_machine::give_up(world, rest);
}

fn did_not_yield_text(alloc: Global, name: &[char]) -> Result<PyText, OutOfMemory>
    ensures { IfOk result (λ t. t ≡ yields.did_not_yield_text name.now) }
{
    let mut text = Vec::new(alloc);
    push_ascii(&mut text, "fixture '")?;
    text.extend_from_slice(name)?;
    push_ascii(&mut text, "' did not yield")?;
    Ok(PyText::from_vec(text))
}

/// The exception of a yield fixture that ended without yielding: `ValueError`. Behind want of memory the world is spent.
#[tactic(auto, unfolding(crate::specs::Yields::did_not_yield))]
pub fn did_not_yield(
    alloc: Global,
    world: &mut World,
    fixture: &Fixture,
) -> Result<Failure, OutOfMemory>
    ensures { IfOk result (λ f. (f, world.new) ≡ yields.did_not_yield fixture.now world.old) }
{
    let text = did_not_yield_text(alloc, fixture.name.chars())?;
    let thrown = exception_for(alloc, world, &fixture.defined, ExcClass::ValueError, text)?;
    Ok(Failure::Exception(thrown))
}

/// The exception of a fixture that yields again: `Failed`. Behind want of memory the world is spent.
#[tactic(auto, unfolding(crate::specs::Yields::yielded_again))]
pub fn yielded_again(
    alloc: Global,
    world: &mut World,
    fixture: &Fixture,
) -> Result<Failure, OutOfMemory>
    ensures { IfOk result (λ f. (f, world.new) ≡ yields.yielded_again fixture.now world.old) }
{
    let mut text = Vec::new(alloc);
    push_ascii(&mut text, "fixture function has more than one 'yield'")?;
    let text = PyText::from_vec(text);
    let thrown = exception_for(alloc, world, &fixture.defined, ExcClass::Failed, text)?;
    Ok(Failure::Exception(thrown))
}
