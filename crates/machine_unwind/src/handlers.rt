// The handlers of a `try` (Language Reference, the try statement).

ghost use Rattle.std.specs.Prelude.{◌≡◌, ◌+◌, ◌≤◌, ◌<◌, IfOk, Some, drop};
ghost use Rattle.std.specs.List.{sum_by};
ghost use Rattle.py_core.specs.Blocks.{handlers_in, stmts_in};
ghost use Rattle.py_core.specs.declared.stmt.CoreHandler.{out-CoreHandler};
ghost use Rattle.machine_state.specs.py_world.Exceptions as world;
ghost use Rattle.machine_state.specs.core_meaning.Statements.{core_block_body, handlings};
ghost use Rattle.machine_state.specs.Frames.{handled_exception, layers_of, on_caught, on_class, machine_rest, site_now, state_of, todo};
ghost use Rattle.machine_state.specs.Work.{block_work, catch_work, doing_work, handler_work, stack_work};

use crate::raise::refuse;
use machine_items::Thrown;
use machine_items::exceptions::takes_exception;
use machine_state::frame::{End, Frame, UnwindFrame};
use machine_state::machine::{Machine, NextAction};
use machine_turns::begin::{begin_block, descend};
use machine_turns::names::bind;
use py_core::{CoreBlock, CoreGuard, CoreHandler, SrcText};
use py_values::value::Value;
use seq::OutOfMemory;
use std::rc::Rc;

/// Begins the block of a handler that has a name: it is the exception, and is unbound behind the block.
#[tactic(auto, using(crate::proofs::Catching::named_begins))]
fn begin_named(
    m: &mut Machine,
    name: &SrcText,
    body: Rc<CoreBlock>,
    thrown: Thrown,
) -> Result<NextAction, OutOfMemory>
    ensures next { IfOk result (λ d. todo d m.new ≡ world.handler_block (Some name.now) (core_block_body (layers_of m.old.stack.own) body.value) thrown.exc thrown.trace (site_now m.old) (state_of m.old) (machine_rest m.old)) }
    ensures left { m.new.left ≡ m.old.left }
    ensures work { IfOk result (λ d. doing_work d + stack_work m.new ≡ block_work (stmts_in body.value) + 1 + stack_work m.old) }
{
    m.keep_trace(thrown.exc, thrown.trace)?;
    bind(m, name, thrown.exc)?;
    let frame = UnwindFrame::Named(name.clone()?);
    m.stack.push(Frame::Unwind(frame))?;
    begin_block(m, body)
}

/// Begins the block of a handler that takes the exception.
fn begin_caught(
    m: &mut Machine,
    handler: &CoreHandler,
    thrown: Thrown,
) -> Result<NextAction, OutOfMemory>
    ensures next { IfOk result (λ d. todo d m.new ≡ world.handler_block (out-CoreHandler handler.now).name (core_block_body (layers_of m.old.stack.own) (out-CoreHandler handler.now).body.value) thrown.exc thrown.trace (site_now m.old) (state_of m.old) (machine_rest m.old)) }
    ensures left { m.new.left ≡ m.old.left }
    ensures work { IfOk result (λ d. doing_work d + stack_work m.new ≤ block_work (stmts_in (out-CoreHandler handler.now).body.value) + 1 + stack_work m.old) }
{
    let body = handler.body.clone()?;
    match &handler.name {
        Some(name) => begin_named(m, name, body, thrown),
        None => begin_block(m, body),
    }
}

/// Goes on with the handlers from a place on, for the exception that is being handled.
pub fn next_handler(
    m: &mut Machine,
    guard: Rc<CoreGuard>,
    at: usize,
    thrown: Thrown,
) -> Result<NextAction, OutOfMemory>
    requires { handled_exception m.old.stack.own ≡ Some thrown }
    ensures next { IfOk result (λ d. todo d m.new ≡ world.handlers_on (handlings (layers_of m.old.stack.own) (drop at (handlers_in guard.value))) thrown.exc thrown.trace (site_now m.old) (state_of m.old) (machine_rest m.old)) }
    ensures left { m.new.left ≡ m.old.left }
    ensures work { IfOk result (λ d. doing_work d + stack_work m.new ≤ sum_by handler_work (drop at (handlers_in guard.value)) + stack_work m.old) }
{
    if at >= guard.len() {
        return Ok(NextAction::Back(End::Raised(thrown.exc, thrown.trace)));
    }
    let again = guard.clone()?;
    let handler = guard.handler(at);
    match &handler.class {
        Some(class) => {
            let frame = UnwindFrame::Catch(again, at);
            descend(m, Frame::Unwind(frame), class)
        }
        None => begin_caught(m, handler, thrown),
    }
}

/// Goes on behind what a handler takes, for this exception.
fn catch(
    m: &mut Machine,
    guard: Rc<CoreGuard>,
    at: usize,
    class: Value,
    thrown: Thrown,
) -> Result<NextAction, OutOfMemory>
    requires { handled_exception m.old.stack.own ≡ Some thrown }
    ensures next { IfOk result (λ d. todo d m.new ≡ on_class (handlings (layers_of m.old.stack.own) (drop at (handlers_in guard.value))) thrown.exc thrown.trace (site_now m.old) class (state_of m.old) (machine_rest m.old)) }
    ensures left { m.new.left ≡ m.old.left }
    ensures work { IfOk result (λ d. doing_work d + stack_work m.new < catch_work (drop at (handlers_in guard.value)) + stack_work m.old) }
{
    if at >= guard.len() {
        return Ok(NextAction::Back(End::Raised(thrown.exc, thrown.trace)));
    }
    match takes_exception(&m.heap, thrown.exc, class) {
        Some(true) => begin_caught(m, guard.handler(at), thrown),
        Some(false) => next_handler(m, guard, at + 1, thrown),
        None => refuse(m),
    }
}

/// Goes on behind what a handler takes.
pub fn take_class(
    m: &mut Machine,
    guard: Rc<CoreGuard>,
    at: usize,
    class: Value,
) -> Result<NextAction, OutOfMemory>
    ensures next { IfOk result (λ d. todo d m.new ≡ on_caught (handlings (layers_of m.old.stack.own) (drop at (handlers_in guard.value))) (handled_exception m.old.stack.own) (site_now m.old) class (state_of m.old) (machine_rest m.old)) }
    ensures left { m.new.left ≡ m.old.left }
    ensures work { IfOk result (λ d. doing_work d + stack_work m.new < catch_work (drop at (handlers_in guard.value)) + stack_work m.old) }
{
    match m.stack.handled(m.alloc)? {
        Some(thrown) => catch(m, guard, at, class, thrown),
        None => Ok(NextAction::Back(End::Next)),
    }
}
