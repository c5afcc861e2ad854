// How the phases of an item end.

ghost use Rattle.std.specs.Prelude.{◌≡◌, IfOk, map, option_copied};
ghost use Rattle.std.specs.Str.Lossy.{utf8_lossy};
ghost use Rattle.py_world.specs.World.{world_with_printed};
ghost use Rattle.fixture_calls.specs.Failing as failing;
ghost use Rattle.runtest_rules.specs.Failures as failures;
ghost use Rattle.runtest_rules.specs.Phases as phases;

use crate::ending::Ending;
use collect_marks::says::xfail_of;
use collect_marks::verdict::{Verdict, call_verdict, set_up_verdict, teardown_verdict};
use collect_marks::xfail::Xfail;
use fixture_calls::Failure;
use py_values::heap::Heap;
use py_values::value::Value;
use py_world::Trace;
use report_parts::{Phase, PhaseEnd, Text, Told, Tolds};
use seq::{OutOfMemory, PyText};
use std::alloc::Global;
use test_suite::Item;
use tracebacks::{World, exception_text, frame_told, heap, take_printed, told};

pub(crate) fn exception_of(failure: &Failure) -> Value
    ensures { result ≡ failing.exception_of failure.now }
{
    match failure {
        Failure::Exception(thrown) => thrown.exc,
        Failure::FixtureFault(thrown, _) => thrown.exc,
    }
}

fn exceptions_of(alloc: Global, raised: &[Failure]) -> Result<Vec<Value>, OutOfMemory>
    ensures { IfOk result (λ vs. vs.items ≡ map failing.exception_of raised.now) }
{
    let mut values = Vec::new(alloc);
    for failure in raised {
        values.push(exception_of(failure))?;
    }
    Ok(values)
}

fn verdict_of(heap: &Heap, phase: Phase, xfail: Option<&Xfail>, raised: &[Value]) -> Verdict
    ensures { result ≡ phases.verdict_of (phases.phase_of phase) heap.now (option_copied xfail.entry) raised.now }
{
    match phase {
        Phase::Setup => set_up_verdict(heap, xfail, raised),
        Phase::Call => call_verdict(heap, xfail, raised),
        Phase::Teardown => teardown_verdict(heap, raised),
    }
}

/// The text of a failure: of an exception its class and message, of a fixture fault its own text alone.
fn failure_text(alloc: Global, heap: &Heap, failure: &Failure) -> Result<PyText, OutOfMemory>
    ensures { IfOk result (λ t. t ≡ failures.failure_text heap.now failure.now) }
{
    match failure {
        Failure::Exception(thrown) => exception_text(alloc, heap, thrown.exc),
        Failure::FixtureFault(_, text) => PyText::from_chars(alloc, text.chars()),
    }
}

fn trace_of<'a>(failure: &'a Failure) -> &'a Trace
    ensures { result.now ≡ failing.failure_trace failure.now }
{
    match failure {
        Failure::Exception(thrown) => &thrown.trace,
        Failure::FixtureFault(thrown, _) => &thrown.trace,
    }
}

fn failure_told(alloc: Global, world: &World, failure: &Failure) -> Result<Told, OutOfMemory>
    ensures { IfOk result (λ t. t ≡ failures.failure_told world.now failure.now) }
{
    let text = failure_text(alloc, heap(world), failure)?;
    told(alloc, world, trace_of(failure), text)
}

fn failures_told(alloc: Global, world: &World, raised: &[Failure]) -> Result<PhaseEnd, OutOfMemory>
    ensures { IfOk result (λ e. e ≡ end.Raised (map (failures.failure_told world.now) raised.now)) }
{
    let mut tolds = Vec::new(alloc);
    for failure in raised {
        tolds.push(failure_told(alloc, world, failure)?)?;
    }
    Ok(PhaseEnd::Raised(Tolds::from_vec(tolds)))
}

ghost use Rattle.report_parts.specs.declared.report.PhaseEnd.TheVariants as end;

fn reason_of(alloc: Global, xfail: Option<&Xfail>) -> Result<PyText, OutOfMemory>
    ensures { IfOk result (λ t. t ≡ phases.reason_of (option_copied xfail.entry)) }
{
    match xfail {
        Some(xfail) => PyText::from_chars(alloc, xfail.reason.chars()),
        None => Ok(PyText::from_vec(Vec::new(alloc))),
    }
}

/// The end of a call that passed under a strict xfail.
fn strict_end(
    alloc: Global,
    world: &World,
    xfail: Option<&Xfail>,
    item: &Item,
) -> Result<PhaseEnd, OutOfMemory>
    ensures { IfOk result (λ e. e ≡ end.StrictXpassed (frames.frame_told world.now.sources item.now.defined) (phases.reason_of (option_copied xfail.entry))) }
{
    let reason = reason_of(alloc, xfail)?;
    let frame = frame_told(alloc, world, &item.defined)?;
    Ok(PhaseEnd::StrictXpassed(frame, reason))
}

ghost use Rattle.tracebacks.specs.Frames as frames;

/// The end of a phase with this verdict.
fn end_by(
    alloc: Global,
    world: &World,
    verdict: Verdict,
    xfail: Option<&Xfail>,
    item: &Item,
    raised: &[Failure],
) -> Result<PhaseEnd, OutOfMemory>
    ensures { IfOk result (λ e. e ≡ phases.end_by verdict (option_copied xfail.entry) item.now raised.now world.now) }
{
    match verdict {
        Verdict::Passed => Ok(PhaseEnd::Passed),
        Verdict::Skipped => Ok(PhaseEnd::Skipped),
        Verdict::Xfailed => Ok(PhaseEnd::Xfailed),
        Verdict::Xpassed => Ok(PhaseEnd::Xpassed),
        Verdict::StrictXpassed => strict_end(alloc, world, xfail, item),
        Verdict::Raised => failures_told(alloc, world, raised),
    }
}

fn end_under(
    alloc: Global,
    world: &World,
    xfail: Option<&Xfail>,
    phase: Phase,
    item: &Item,
    raised: &[Failure],
) -> Result<PhaseEnd, OutOfMemory>
    ensures { IfOk result (λ e. e ≡ phases.end_under (option_copied xfail.entry) (phases.phase_of phase) item.now raised.now world.now) }
{
    let values = exceptions_of(alloc, raised)?;
    let verdict = verdict_of(heap(world), phase, xfail, &values);
    end_by(alloc, world, verdict, xfail, item, raised)
}

fn end_of_phase(
    alloc: Global,
    world: &World,
    phase: Phase,
    item: &Item,
    raised: &[Failure],
) -> Result<PhaseEnd, OutOfMemory>
    ensures { IfOk result (λ e. e ≡ phases.end_of_phase (phases.phase_of phase) item.now raised.now world.now) }
{
    let xfail = xfail_of(alloc, heap(world), item.marks.items())?;
    end_under(alloc, world, xfail.as_ref(), phase, item, raised)
}

/// What was printed, which is taken.
fn captured(alloc: Global, world: &mut World) -> Result<Text, OutOfMemory>
    ensures text { IfOk result (λ t. t ≡ utf8_lossy world.old.printed) }
    ensures taken { world.new ≡ world_with_printed [] world.old }
{
    let bytes = take_printed(world);
    Ok(Text::from_string(String::from_utf8_lossy(alloc, &bytes)?))
}

ghost use Rattle.std.specs.Prelude.{[]};

/// Ends a phase of an item that raised these: how it ended, by the marks, with what is told of each exception; and what was printed in it,
/// which is taken. Behind want of memory the world is as it was, or nothing of what was printed is left.
#[tactic(auto, unfolding(crate::specs::Phases::phase_ended))]
pub fn end_phase(
    alloc: Global,
    world: &mut World,
    phase: Phase,
    item: &Item,
    raised: &[Failure],
) -> Result<Ending, OutOfMemory>
    ensures { IfOk result (λ e. (e, world.new) ≡ phases.phase_ended (phases.phase_of phase) item.now raised.now world.old) }
{
    let end = end_of_phase(alloc, world, phase, item, raised)?;
    match captured(alloc, world) {
        Ok(captured) => Ok(Ending { end, captured }),
        Err(fault) => {
            drop(end);
            Err(fault)
        }
    }
}

fn is_raised(verdict: Verdict) -> bool
    ensures { result ≡ phases.verdict_raises verdict }
{
    match verdict {
        Verdict::Raised => true,
        Verdict::Passed
        | Verdict::Skipped
        | Verdict::Xfailed
        | Verdict::Xpassed
        | Verdict::StrictXpassed => false,
    }
}

/// Whether a teardown that raised these is an error.
#[tactic(auto, using(crate::proofs::Teardown::fails_by))]
pub fn fails_in_teardown(
    alloc: Global,
    world: &World,
    item: &Item,
    raised: &[Failure],
) -> Result<bool, OutOfMemory>
    ensures { IfOk result (λ b. b ≡ ends_badly session.Teardown (phases.phase_ended session.Teardown item.now raised.now world.now).0) }
{
    let values = exceptions_of(alloc, raised)?;
    Ok(is_raised(teardown_verdict(heap(world), &values)))
}

ghost use Rattle.report_rules.specs.Collected.{ends_badly};
ghost use Rattle.session_rules.specs.World as session;
