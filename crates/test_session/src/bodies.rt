// Bodies that stop at a `yield`.

ghost use Rattle.std.specs.Prelude.{◌≡◌, ◌≤◌, IfOk, true};
ghost use Rattle.py_world.specs.Resuming.{is_out};
ghost use Rattle.py_machine.specs.Yields.{sent_of, told_begun, told_out};
ghost use Rattle.py_machine.specs.source_meaning.Meaning.{source_begin, source_resume};
ghost use Rattle.test_session.specs.Bodies.{begun_told, out_told};

use py_machine::{Frozen, Sent, World};
use py_values::value::Value;
use py_world::{Outcome, Thrown, Trace};
use seq::OutOfMemory;

/// How a begin or a resumption ends.
pub enum BegunOut {
    /// The body has stopped at a `yield` that gives this value. What remains must be spent, by [`resume`] or by `abandon`.
    Yielded(Value, Frozen),
    Value(Value),
    Raised(Thrown),
    /// The next step would have been one above the budget; the trace is that of the statement at which this came.
    Exhausted(Trace),
}

/// How a begin or a resumption ends, and the steps that it took.
pub struct Begun {
    pub out: BegunOut,
    pub steps: u64,
}

fn over(out: Outcome) -> BegunOut
    ensures { out_told result ≡ Over out }
{
    match out {
        Outcome::Value(value) => BegunOut::Value(value),
        Outcome::Raised(thrown) => BegunOut::Raised(thrown),
        Outcome::Exhausted(trace) => BegunOut::Exhausted(trace),
    }
}

ghost use Rattle.py_world.specs.Resuming.{Over};

fn out_of(out: py_machine::BegunOut) -> BegunOut
    ensures { out_told result ≡ told_out out }
{
    match out {
        py_machine::BegunOut::Yielded(value, frozen) => BegunOut::Yielded(value, frozen),
        py_machine::BegunOut::Over(out) => over(out),
    }
}

fn begun_of(begun: py_machine::Begun) -> Begun
    ensures told { begun_told result ≡ told_begun begun }
    ensures steps { result.steps ≡ begun.steps }
{
    let py_machine::Begun { out, steps } = begun;
    Begun {
        out: out_of(out),
        steps,
    }
}

/// Calls a function within a budget of steps; a body that yields stops there. Behind want of memory the world is spent.
pub fn begin(world: &mut World, f: Value, args: &[Value], budget: u64) -> Result<Begun, OutOfMemory>
    ensures told { IfOk result (λ b. (begun_told b, world.new) ≡ source_begin f args.now budget world.old) }
    ensures steps { IfOk result (λ b. b.steps ≤ budget) }
{
    let begun = py_machine::begin(world, f, args, budget)?;
    Ok(begun_of(begun))
}

/// A body that is out goes on behind its `yield`, with a value or by an exception, within a budget of steps of its own. What remained is
/// spent. Behind want of memory the world is spent.
pub fn resume(
    world: &mut World,
    frozen: Frozen,
    with: Sent,
    budget: u64,
) -> Result<Begun, OutOfMemory>
    requires out { is_out frozen world.old ≡ true }
    ensures told { IfOk result (λ b. (begun_told b, world.new) ≡ source_resume frozen (sent_of with) budget world.old) }
    ensures steps { IfOk result (λ b. b.steps ≤ budget) }
{
    let begun = py_machine::resume(world, frozen, with, budget)?;
    Ok(begun_of(begun))
}
