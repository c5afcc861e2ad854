// Calls by the runner.

ghost use Rattle.std.specs.Prelude.{◌≡◌, [], IfOk};
ghost use Rattle.lower_law.specs.py_world.Runs as runs;
ghost use Rattle.lower_law.specs.core_meaning.Meaning.{core_call};
ghost use Rattle.lower_law.specs.core_meaning.Statements.{entry};
ghost use Rattle.machine_state.specs.Places.{ends};
ghost use Rattle.machine_state.specs.Frames.{world_of};
ghost use Rattle.machine_stmt.specs.Stops.{stopped};
ghost use Rattle.lower_law.specs.py_world.Site.{no_call};
ghost use Rattle.machine_state.specs.Frames.{ending, state_of, todo};

use crate::end::finish;
use machine_load::Ended;
use machine_runner::misfit::{find_misfit, plain_arguments, refuse, reset};
use machine_state::machine::{Entry, Machine, Origin, TurnEnd};
use machine_stmt::invoke;
use machine_stmt::run::{Stop, enter, run};
use py_values::value::Value;
use seq::OutOfMemory;

/// Enters a body, and goes on until the run stops. Each body that is entered has a frame that waits for its end, so that memory is used
/// up long before the count of entries is.
fn run_entry(m: &mut Machine, entry: Entry) -> Result<Stop, OutOfMemory>
    ensures { IfOk result (λ stop. ends m.old.left (todo_entry entry m.old) ≡ stopped stop m.new) }
{
    let mut entry = entry;
    for _ in 0..u64::MAX {
        match enter(m, entry)? {
            TurnEnd::Go(doing) => return run(m, doing),
            TurnEnd::Enter(next) => entry = next,
            TurnEnd::Over(end) => return Ok(Stop::Over(end)),
            TurnEnd::Exhausted(trace) => return Ok(Stop::Exhausted(trace)),
            TurnEnd::Frozen(v) => return Ok(Stop::Frozen(v)),
        }
    }
    Err(OutOfMemory)
}

ghost use Rattle.machine_state.specs.Frames.{todo_entry};

/// Goes on until the run stops.
fn go_on(m: &mut Machine, turned: TurnEnd) -> Result<Stop, OutOfMemory>
    ensures { IfOk result (λ stop. ending turned m.old ≡ stopped stop m.new) }
{
    match turned {
        TurnEnd::Go(doing) => run(m, doing),
        TurnEnd::Enter(entry) => run_entry(m, entry),
        TurnEnd::Over(end) => Ok(Stop::Over(end)),
        TurnEnd::Exhausted(trace) => Ok(Stop::Exhausted(trace)),
        TurnEnd::Frozen(v) => Ok(Stop::Frozen(v)),
    }
}

/// Runs a call where nothing is open.
pub fn run_call(m: &mut Machine, f: Value, args: &[Value]) -> Result<Stop, OutOfMemory>
    requires { m.old.stack.own ≡ [] }
    ensures { IfOk result (λ stop. ends m.old.left (calls.invoke entry f (positional_arguments args.now) no_call (state_of m.old) (λ o. Done (call_end (state_of m.old) o))) ≡ stopped stop m.new) }
{
    let args = plain_arguments(m.alloc, args)?;
    let turned = invoke(m, f, &args, Origin::Runner)?;
    let stop = go_on(m, turned)?;
    Ok(stop)
}

/// Calls what the arguments fit, where nothing is open.
fn call_fitting(
    m: &mut Machine,
    f: Value,
    args: &[Value],
    budget: u64,
) -> Result<Ended, OutOfMemory>
    requires stack { m.old.stack.own ≡ [] }
    requires left { m.old.left ≡ budget }
    ensures { IfOk result (λ e. runs.told_by budget (ends budget (calls.invoke entry f (positional_arguments args.now) no_call (state_of m.old) (λ o. Done (call_end (state_of m.old) o)))) ≡ (e, world_of m.new)) }
{
    let stop = run_call(m, f, args)?;
    let ended = finish(m, stop, budget)?;
    Ok(ended)
}

ghost use Rattle.run_tree.specs.Todo.{Done};
ghost use Rattle.lower_law.specs.py_world.Calls as calls;
ghost use Rattle.lower_law.specs.py_world.Outcome.{call_end};
ghost use Rattle.lower_law.specs.py_world.Arguments.{positional_arguments};

/// A call by the runner.
pub fn call(m: &mut Machine, f: Value, args: &[Value], budget: u64) -> Result<Ended, OutOfMemory>
    ensures { IfOk result (λ e. core_call f args.now budget (world_of m.old) ≡ (e, world_of m.new)) }
{
    reset(m, budget);
    match find_misfit(m, f, args)? {
        Some(misfit) => refuse(m, misfit),
        None => call_fitting(m, f, args, budget),
    }
}
