// A `try` begins, and goes on behind its parts (Language Reference, the try statement).

ghost use Rattle.std.specs.Prelude.{◌≡◌, ◌+◌, ◌<◌, IfOk, Some, drop};
ghost use Rattle.std.specs.List.{sum_by};
ghost use Rattle.py_core.specs.Blocks.{handlers_in, last_in, other_in, stmts_in};
ghost use Rattle.machine_state.specs.py_world.Exceptions as world;
ghost use Rattle.machine_state.specs.py_world.Outcome.{changing, on_next, on_value, route};
ghost use Rattle.machine_state.specs.py_world.Names.{unbound};
ghost use Rattle.machine_state.specs.core_meaning.Statements as meaning;
ghost use Rattle.machine_state.specs.core_meaning.Statements.{core_block_body, handlings};
ghost use Rattle.machine_state.specs.Places.{CoreState, CoreThen, outcome, site_of};
ghost use Rattle.machine_state.specs.Frames.{after_stack, handled_exception, here_unwind, layers_of, on_caught, on_unwind, outer_of, machine_rest, site_now, state_of, todo};
ghost use Rattle.machine_state.specs.Work.{block_work, catch_work, doing_work, handler_work, last_work, stack_work, unwind_work};

use crate::handlers::{next_handler, take_class};
use machine_items::{Thrown, Trace};
use machine_state::frame::{End, Frame, UnwindFrame};
use machine_state::machine::{Machine, NextAction};
use machine_state::traces::copy_trace;
use machine_turns::begin::begin_block;
use machine_turns::names::unbind;
use py_core::{CoreBlock, CoreGuard, SrcText};
use py_values::value::Value;
use seq::OutOfMemory;
use std::rc::Rc;

/// The block behind `else`.
fn other_of(guard: &CoreGuard) -> Result<Rc<CoreBlock>, OutOfMemory>
    ensures { IfOk result (λ b. b.value ≡ other_in guard.now) }
{
    let other = guard.other.clone()?;
    Ok(other)
}

/// The block behind `finally`.
fn last_of(guard: &CoreGuard) -> Result<Rc<CoreBlock>, OutOfMemory>
    ensures { IfOk result (λ b. b.value ≡ last_in guard.now) }
{
    let last = guard.last.clone()?;
    Ok(last)
}

/// Begins a `try` with its block.
pub fn begin_try(
    m: &mut Machine,
    body: &Rc<CoreBlock>,
    guard: &Rc<CoreGuard>,
) -> Result<NextAction, OutOfMemory>
    ensures next { IfOk result (λ d. todo d m.new ≡ meaning.try_at (layers_of m.old.stack.own) body.now.value guard.now.value (site_now m.old) (state_of m.old) (machine_rest m.old)) }
    ensures left { m.new.left ≡ m.old.left }
{
    let block = body.clone()?;
    let again = guard.clone()?;
    let frame = UnwindFrame::Guarded(again, m.here.line);
    m.stack.push(Frame::Unwind(frame))?;
    begin_block(m, block)
}

/// Handles an exception that the block of a `try` has raised.
#[tactic(auto, using(crate::proofs::Catching::none_handles))]
fn handle(
    m: &mut Machine,
    guard: Rc<CoreGuard>,
    exc: Value,
    trace: Trace,
) -> Result<NextAction, OutOfMemory>
    ensures next { IfOk result (λ d. todo d m.new ≡ world.handlers_on (handlings (layers_of m.old.stack.own) (handlers_in guard.value)) exc trace (site_handling exc trace (site_now m.old)) (state_of m.old) (machine_rest m.old)) }
    ensures left { m.new.left ≡ m.old.left }
    ensures work { IfOk result (λ d. doing_work d + stack_work m.new < sum_by handler_work (handlers_in guard.value) + 2 + stack_work m.old) }
{
    if guard.len() == 0 {
        return Ok(NextAction::Back(End::Raised(exc, trace)));
    }
    let kept = copy_trace(m.alloc, &trace)?;
    m.stack
        .push(Frame::Unwind(UnwindFrame::Handling(exc, kept)))?;
    next_handler(m, guard, 0, Thrown { exc, trace })
}

ghost use Rattle.machine_state.specs.py_world.Site.{site_handling};

/// Goes on behind the block of a `try`, over the block behind `finally`.
fn guarded(m: &mut Machine, guard: Rc<CoreGuard>, end: End) -> Result<NextAction, OutOfMemory>
    ensures next { IfOk result (λ d. todo d m.new ≡ world.guarded_by (handlings (layers_of m.old.stack.own) (handlers_in guard.value)) (core_block_body (layers_of m.old.stack.own) (other_in guard.value)) (site_now m.old) (outcome end (state_of m.old)) (machine_rest m.old)) }
    ensures left { m.new.left ≡ m.old.left }
    ensures work { IfOk result (λ d. doing_work d + stack_work m.new < sum_by handler_work (handlers_in guard.value) + block_work (stmts_in (other_in guard.value)) + 2 + stack_work m.old) }
{
    match end {
        End::Raised(exc, trace) => handle(m, guard, exc, trace),
        End::Next => {
            let other = other_of(&guard)?;
            begin_block(m, other)
        }
        End::Value(v) => Ok(NextAction::Back(End::Value(v))),
        End::Returned(v) => Ok(NextAction::Back(End::Returned(v))),
        End::Broke => Ok(NextAction::Back(End::Broke)),
        End::Continued => Ok(NextAction::Back(End::Continued)),
    }
}

/// Goes on behind the block of a `try`.
fn take_guarded(m: &mut Machine, guard: Rc<CoreGuard>, end: End) -> Result<NextAction, OutOfMemory>
    ensures next { IfOk result (λ d. todo d m.new ≡ meaning.guard (layers_of m.old.stack.own) guard.value (site_now m.old) (outcome end (state_of m.old)) (machine_rest m.old)) }
    ensures left { m.new.left ≡ m.old.left }
    ensures work { IfOk result (λ d. doing_work d + stack_work m.new < unwind_work (UnwindFrame.Guarded guard 0) + stack_work m.old) }
{
    let again = guard.clone()?;
    m.stack.push(Frame::Unwind(UnwindFrame::Last(again)))?;
    guarded(m, guard, end)
}

/// Goes on behind what a handler takes.
fn take_catch(
    m: &mut Machine,
    guard: Rc<CoreGuard>,
    at: usize,
    end: End,
) -> Result<NextAction, OutOfMemory>
    ensures next { IfOk result (λ d. todo d m.new ≡ on_value (outcome end (state_of m.old)) (machine_rest m.old) (λ c s. on_caught (handlings (layers_of m.old.stack.own) (drop at (handlers_in guard.value))) (handled_exception m.old.stack.own) (site_now m.old) c s (machine_rest m.old))) }
    ensures left { m.new.left ≡ m.old.left }
    ensures work { IfOk result (λ d. doing_work d + stack_work m.new < catch_work (drop at (handlers_in guard.value)) + stack_work m.old) }
{
    match end {
        End::Value(class) => take_class(m, guard, at, class),
        End::Next => Ok(NextAction::Back(End::Next)),
        End::Returned(v) => Ok(NextAction::Back(End::Returned(v))),
        End::Broke => Ok(NextAction::Back(End::Broke)),
        End::Continued => Ok(NextAction::Back(End::Continued)),
        End::Raised(exc, trace) => Ok(NextAction::Back(End::Raised(exc, trace))),
    }
}

/// Goes on behind the block of a handler whose name is unbound there.
#[tactic(auto, using(crate::proofs::Ends::changed))]
fn take_named(m: &mut Machine, name: &SrcText, end: End) -> Result<NextAction, OutOfMemory>
    ensures next { IfOk result (λ d. todo d m.new ≡ route (changing (unbound name.now (site_now m.old).scene) (machine_rest m.old)) (outcome end (state_of m.old))) }
    ensures left { m.new.left ≡ m.old.left }
    ensures work { IfOk result (λ d. doing_work d + stack_work m.new ≡ stack_work m.old) }
{
    unbind(m, name)?;
    Ok(NextAction::Back(end))
}

/// Begins the block behind `finally`; the end before it comes again behind it.
fn begin_last(m: &mut Machine, guard: &CoreGuard, end: End) -> Result<NextAction, OutOfMemory>
    ensures next { IfOk result (λ d. todo d m.new ≡ world.finally_on (core_block_body (layers_of m.old.stack.own) (last_in guard.now)) (site_now m.old) (outcome end (state_of m.old)) (machine_rest m.old)) }
    ensures left { m.new.left ≡ m.old.left }
    ensures work { IfOk result (λ d. doing_work d + stack_work m.new < last_work guard.now + stack_work m.old) }
{
    let last = last_of(guard)?;
    if last.len() == 0 {
        return Ok(NextAction::Back(end));
    }
    m.stack.push(Frame::Unwind(UnwindFrame::Again(end)))?;
    begin_block(m, last)
}

/// The end behind the block behind `finally`: the one before it, unless the block has one of its own.
fn end_of(kept: End, own: End) -> End
    ensures { (s : CoreState) (k : CoreThen) → on_next (outcome own s) k (λ s. k (outcome kept s)) ≡ k (outcome result s) }
{
    match own {
        End::Next => kept,
        End::Value(v) => End::Value(v),
        End::Returned(v) => End::Returned(v),
        End::Broke => End::Broke,
        End::Continued => End::Continued,
        End::Raised(exc, trace) => End::Raised(exc, trace),
    }
}

/// Goes on behind a part of a `try`.
pub fn take_unwind(m: &mut Machine, frame: UnwindFrame, end: End) -> Result<NextAction, OutOfMemory>
    ensures next { IfOk result (λ d. todo d m.new
        ≡ on_unwind frame (layers_of m.old.stack.own) (site_of (here_unwind frame m.old.here) (outer_of m.old.stack.own) (handled_exception m.old.stack.own)) (outcome end (state_of m.old)) (after_stack m.old.stack.own (here_unwind frame m.old.here))) }
    ensures left { m.new.left ≡ m.old.left }
    ensures work { IfOk result (λ d. doing_work d + stack_work m.new < unwind_work frame + stack_work m.old) }
{
    match frame {
        UnwindFrame::Guarded(guard, line) => {
            m.here.line = line;
            take_guarded(m, guard, end)
        }
        UnwindFrame::Catch(guard, at) => take_catch(m, guard, at, end),
        UnwindFrame::Handling(_, _) => Ok(NextAction::Back(end)),
        UnwindFrame::Named(name) => take_named(m, &name, end),
        UnwindFrame::Last(guard) => begin_last(m, &guard, end),
        UnwindFrame::Again(kept) => Ok(NextAction::Back(end_of(kept, end))),
    }
}
