// Bodies that stop at a `yield`: they begin and go on.

ghost use Rattle.std.specs.Prelude.{◌≡◌, [], IfOk, Ok};
ghost use Rattle.run_tree.specs.Todo.{Done};
ghost use Rattle.lower_law.specs.py_world.Calls as calls;
ghost use Rattle.lower_law.specs.py_world.Outcome.{call_end};
ghost use Rattle.lower_law.specs.py_world.Resuming as resuming;
ghost use Rattle.lower_law.specs.py_world.Runs as runs;
ghost use Rattle.lower_law.specs.py_world.Site.{no_call};
ghost use Rattle.lower_law.specs.core_meaning.Meaning.{core, core_begin, core_resume};
ghost use Rattle.lower_law.specs.core_meaning.Statements.{entry};
ghost use Rattle.machine_state.specs.Places.{CoreState, ends, outcome};
ghost use Rattle.machine_state.specs.Frames.{state_of, world_of};
ghost use Rattle.machine_stmt.specs.Stops.{stopped};
ghost use Rattle.py_machine.specs.Yields.{sent_of, told_begun};

use crate::calls::run_call;
use crate::end::finish;
use crate::resuming::{Begun, BegunOut, Frozen, Sent};
use machine_frames::frozen::freeze;
use machine_frames::wake::wake;
use machine_load::{Ended, Outcome, Thrown};
use machine_runner::misfit::{Misfit, find_misfit, refuse, reset};
use machine_runner::openings::{Opening, find_opening};
use machine_state::code::Code;
use machine_state::frame::End;
use machine_state::locals::Locals;
use machine_state::machine::{Machine, NextAction, Origin};
use machine_stmt::call_fitting;
use machine_stmt::run::{Stop, run};
use py_values::value::Value;
use seq::OutOfMemory;

/// What ends as a call.
fn over(ended: Ended) -> Begun
    ensures { told_begun result ≡ resuming.begun_with (resuming.Over ended.out) ended.steps }
{
    let Ended { out, steps } = ended;
    Begun {
        out: BegunOut::Over(out),
        steps,
    }
}

/// What is told of a body that has stopped at a `yield`, which is out from then on.
fn yielded(m: &mut Machine, v: Value, steps: u64) -> Result<Begun, OutOfMemory>
    ensures { IfOk result (λ b. resuming.begun_yielded (paused_at v m.old) steps ≡ (told_begun b, world_of m.new)) }
{
    let number = freeze(m)?;
    Ok(Begun {
        out: BegunOut::Yielded(v, Frozen::new(number)),
        steps,
    })
}

ghost use Rattle.machine_state.specs.Frames.{paused_at};

/// What is told of where a run stops that is not at a `yield`.
fn tell_over(m: &mut Machine, stop: Stop, budget: u64) -> Result<Begun, OutOfMemory>
    ensures { IfOk result (λ b. resuming.begun_over (runs.told_by budget (stopped stop m.old)) ≡ (told_begun b, world_of m.new)) }
{
    let ended = finish(m, stop, budget)?;
    Ok(over(ended))
}

/// What is told of where a run stops.
fn tell(m: &mut Machine, stop: Stop, budget: u64) -> Result<Begun, OutOfMemory>
    ensures { IfOk result (λ b. resuming.begun_by budget (stopped stop m.old) ≡ (told_begun b, world_of m.new)) }
{
    match stop {
        Stop::Over(end) => tell_over(m, Stop::Over(end), budget),
        Stop::Exhausted(trace) => tell_over(m, Stop::Exhausted(trace), budget),
        Stop::Frozen(v) => {
            let steps = budget.saturating_sub(m.left);
            yielded(m, v, steps)
        }
    }
}

/// Runs the body of a yield function with its names, where nothing is open.
fn run_body(m: &mut Machine, code: Code, names: Locals) -> Result<Stop, OutOfMemory>
    requires { m.old.stack.own ≡ [] }
    ensures { IfOk result (λ stop. ends m.old.left (calls.entered entry code (Ok names) no_call (state_of m.old) (λ o. Done (call_end (state_of m.old) o))) ≡ stopped stop m.new) }
{
    let doing = call_fitting(m, code, names, Origin::Runner)?;
    let stop = run(m, doing)?;
    Ok(stop)
}

/// Begins the body of a yield function, where nothing is open.
fn begin_body(m: &mut Machine, code: Code, names: Locals, budget: u64) -> Result<Begun, OutOfMemory>
    requires stack { m.old.stack.own ≡ [] }
    requires left { m.old.left ≡ budget }
    ensures { IfOk result (λ b. resuming.begun_by budget (ends budget (calls.entered entry code (Ok names) no_call (state_of m.old) (λ o. Done (call_end (state_of m.old) o)))) ≡ (told_begun b, world_of m.new)) }
{
    let stop = run_body(m, code, names)?;
    let begun = tell(m, stop, budget)?;
    Ok(begun)
}

/// Calls what the arguments fit, where nothing is open.
fn begin_call(m: &mut Machine, f: Value, args: &[Value], budget: u64) -> Result<Begun, OutOfMemory>
    requires stack { m.old.stack.own ≡ [] }
    requires left { m.old.left ≡ budget }
    ensures { IfOk result (λ b. resuming.begun_by budget (ends budget (calls.invoke entry f (positional_arguments args.now) no_call (state_of m.old) (λ o. Done (call_end (state_of m.old) o)))) ≡ (told_begun b, world_of m.new)) }
{
    let stop = run_call(m, f, args)?;
    let begun = tell(m, stop, budget)?;
    Ok(begun)
}

ghost use Rattle.lower_law.specs.py_world.Arguments.{positional_arguments};

/// Refuses what the arguments don't fit.
fn begin_refused(m: &mut Machine, misfit: Misfit) -> Result<Begun, OutOfMemory>
    ensures { IfOk result (λ b. resuming.begun_over (runs.ended_by (raised misfit.raise misfit.trace (state_of m.old)) 0) ≡ (told_begun b, world_of m.new)) }
{
    let ended = refuse(m, misfit)?;
    Ok(over(ended))
}

ghost use Rattle.lower_law.specs.py_world.Outcome.{raised};

/// Begins what is called, where nothing is open.
fn begin_called(
    m: &mut Machine,
    f: Value,
    args: &[Value],
    budget: u64,
) -> Result<Begun, OutOfMemory>
    requires stack { m.old.stack.own ≡ [] }
    requires left { m.old.left ≡ budget }
    requires state { state_of m.old ≡ runs.start (world_of m.old) }
    ensures { IfOk result (λ b. resuming.begun_by budget (ends budget (runs.begun_by_runner core f args.now (state_of m.old))) ≡ (told_begun b, world_of m.new)) }
{
    match find_misfit(m, f, args)? {
        Some(misfit) => begin_refused(m, misfit),
        None => begin_call(m, f, args, budget),
    }
}

/// A begin by the runner.
pub fn begin(m: &mut Machine, f: Value, args: &[Value], budget: u64) -> Result<Begun, OutOfMemory>
    ensures { IfOk result (λ b. core_begin f args.now budget (world_of m.old) ≡ (told_begun b, world_of m.new)) }
{
    reset(m, budget);
    let opening = find_opening(m, f, args)?;
    match opening {
        Opening::Body(code, names) => begin_body(m, code, names, budget),
        Opening::Refused(misfit) => begin_refused(m, misfit),
        Opening::Call => begin_called(m, f, args, budget),
    }
}

/// The end of the `yield` at which a body goes on.
fn end_of(sent: Sent) -> End
    ensures { (s : CoreState) → outcome result s ≡ resuming.sent_end (sent_of sent) s }
{
    match sent {
        Sent::Value(v) => End::Value(v),
        Sent::Throw(thrown) => {
            let Thrown { exc, trace } = thrown;
            End::Raised(exc, trace)
        }
    }
}

/// Runs what remains of the body of a number, which is out, with what it is given.
fn run_frame(m: &mut Machine, number: usize, sent: Sent, budget: u64) -> Result<Stop, OutOfMemory>
    requires { resuming.is_out number (world_of m.old) ≡ true }
    ensures { IfOk result (λ stop. (f : CoreFrozen) → resuming.frozen_at number (world_of m.old) ≡ Some f
        → ends budget (resuming.resumed core f (sent_of sent) (resuming.abandon_of number (world_of m.old))) ≡ stopped stop m.new) }
{
    let end = end_of(sent);
    wake(m, number, budget)?;
    let stop = run(m, NextAction::Back(end))?;
    Ok(stop)
}

ghost use Rattle.std.specs.Prelude.{true, Some};
ghost use Rattle.machine_frames.specs.Remaining.{CoreFrozen};

/// A resumption of a frozen frame that is out, by its number.
pub fn resume(m: &mut Machine, number: usize, sent: Sent, budget: u64) -> Result<Begun, OutOfMemory>
    requires { resuming.is_out number (world_of m.old) ≡ true }
    ensures { IfOk result (λ b. core_resume number (sent_of sent) budget (world_of m.old) ≡ (told_begun b, world_of m.new)) }
{
    let stop = run_frame(m, number, sent, budget)?;
    let begun = tell(m, stop, budget)?;
    Ok(begun)
}
