// Loops (Language Reference, the while statement).

ghost use Rattle.std.specs.Prelude.{◌≡◌, ◌+◌, ℕ, IfOk};
ghost use Rattle.py_kinds.specs.Truth.{truth};
ghost use Rattle.py_world.specs.Outcome.{Next, if_true};
ghost use Rattle.py_world.specs.Statements as world;
ghost use Rattle.machine_state.specs.core_meaning.Requests.{TurnOf};
ghost use Rattle.machine_state.specs.core_meaning.Expressions.{eval};
ghost use Rattle.machine_state.specs.Places.{outcome};
ghost use Rattle.machine_state.specs.Frames.{layers_of, on_flow, machine_rest, site_now, state_of, todo, Follows};
ghost use Rattle.machine_state.specs.Work.{doing_work, flow_work, stack_work, weight, Falls};

use machine_assign::{begin_block, descend};
use machine_immediate::immediate::at_once;
use machine_state::frame::{End, FlowFrame, Frame};
use machine_state::machine::{Machine, NextAction, Origin, TurnEnd};
use py_core::{CoreBlock, CoreExpr};
use py_kinds::truth::truth;
use py_values::value::Value;
use seq::OutOfMemory;
use std::rc::Rc;

/// Begins a loop from its condition on.
pub fn begin_loop(
    m: &mut Machine,
    test: &Rc<CoreExpr>,
    body: &Rc<CoreBlock>,
) -> Result<NextAction, OutOfMemory>
    ensures next { IfOk result (λ d. todo d m.new ≡ world.loop (TurnOf test.now.value body.now.value) (eval test.now.value) (site_now m.old) (state_of m.old) (machine_rest m.old)) }
    ensures left { m.new.left ≡ m.old.left }
    ensures work { IfOk result (λ d. doing_work d + stack_work m.new ≡ weight test.now.value + 1 + stack_work m.old) }
{
    let frame = FlowFrame::Test(test.clone()?, body.clone()?);
    descend(m, Frame::Flow(frame), test)
}

/// Goes on with a loop from its condition on.
fn go_round(
    m: &mut Machine,
    test: Rc<CoreExpr>,
    body: Rc<CoreBlock>,
) -> Result<TurnEnd, OutOfMemory>
    ensures next { IfOk result (λ t. Follows t m.new m.old.left (world.loop (TurnOf test.value body.value) (eval test.value) (site_now m.old) (state_of m.old) (machine_rest m.old))) }
    ensures work { IfOk result (λ t. Falls t m.new m.old.left (weight test.value + 2 + stack_work m.old)) }
{
    match at_once(m, &test)? {
        Some(there) => {
            m.left = there.left;
            if truth(&m.heap, there.value) {
                begin_turn(m, test, body)
            } else {
                Ok(TurnEnd::Go(NextAction::Back(End::Next)))
            }
        }
        None => Ok(TurnEnd::Go(begin_loop(m, &test, &body)?)),
    }
}

/// A turn of a loop begins, which takes a step.
fn begin_turn(
    m: &mut Machine,
    test: Rc<CoreExpr>,
    body: Rc<CoreBlock>,
) -> Result<TurnEnd, OutOfMemory>
    ensures next { IfOk result (λ t. Follows t m.new m.old.left (world.asked (TurnOf test.value body.value) (site_now m.old) (state_of m.old) (machine_rest m.old))) }
    ensures work { IfOk result (λ t. (work : ℕ) → Falls t m.new m.old.left work) }
{
    if !m.spend() {
        return Ok(TurnEnd::Exhausted(m.trace(Origin::Code)?));
    }
    let again = body.clone()?;
    let frame = FlowFrame::Turn(test, again, m.here.line);
    m.stack.push(Frame::Flow(frame))?;
    Ok(TurnEnd::Go(begin_block(m, body)?))
}

/// Goes on behind the value of a loop's condition.
fn take_value(
    m: &mut Machine,
    test: Rc<CoreExpr>,
    body: Rc<CoreBlock>,
    v: Value,
) -> Result<TurnEnd, OutOfMemory>
    ensures next { IfOk result (λ t. Follows t m.new m.old.left (if_true (truth m.old.heap v) (world.asked (TurnOf test.value body.value) (site_now m.old) (state_of m.old) (machine_rest m.old)) (machine_rest m.old (Next (state_of m.old))))) }
    ensures work { IfOk result (λ t. Falls t m.new m.old.left (1 + stack_work m.old)) }
{
    if truth(&m.heap, v) {
        begin_turn(m, test, body)
    } else {
        Ok(TurnEnd::Go(NextAction::Back(End::Next)))
    }
}

/// Goes on behind a loop's condition.
pub fn take_test(
    m: &mut Machine,
    test: Rc<CoreExpr>,
    body: Rc<CoreBlock>,
    end: End,
) -> Result<TurnEnd, OutOfMemory>
    ensures next { IfOk result (λ t. Follows t m.new m.old.left (on_flow (FlowFrame.Test test body) (layers_of m.old.stack.own) (site_now m.old) (outcome end (state_of m.old)) (machine_rest m.old))) }
    ensures work { IfOk result (λ t. Falls t m.new m.old.left (flow_work (FlowFrame.Test test body) + stack_work m.old)) }
{
    match end {
        End::Value(v) => take_value(m, test, body, v),
        End::Next => Ok(TurnEnd::Go(NextAction::Back(End::Next))),
        End::Returned(v) => Ok(TurnEnd::Go(NextAction::Back(End::Returned(v)))),
        End::Broke => Ok(TurnEnd::Go(NextAction::Back(End::Broke))),
        End::Continued => Ok(TurnEnd::Go(NextAction::Back(End::Continued))),
        End::Raised(e, trace) => Ok(TurnEnd::Go(NextAction::Back(End::Raised(e, trace)))),
    }
}

/// Goes on behind a turn of a loop.
pub fn take_turn(
    m: &mut Machine,
    test: Rc<CoreExpr>,
    body: Rc<CoreBlock>,
    end: End,
) -> Result<TurnEnd, OutOfMemory>
    ensures next { IfOk result (λ t. Follows t m.new m.old.left (on_flow (FlowFrame.Turn test body 0) (layers_of m.old.stack.own) (site_now m.old) (outcome end (state_of m.old)) (machine_rest m.old))) }
    ensures work { IfOk result (λ t. Falls t m.new m.old.left (flow_work (FlowFrame.Turn test body 0) + stack_work m.old)) }
{
    match end {
        End::Next => go_round(m, test, body),
        End::Continued => go_round(m, test, body),
        End::Broke => Ok(TurnEnd::Go(NextAction::Back(End::Next))),
        End::Value(v) => Ok(TurnEnd::Go(NextAction::Back(End::Value(v)))),
        End::Returned(v) => Ok(TurnEnd::Go(NextAction::Back(End::Returned(v)))),
        End::Raised(e, trace) => Ok(TurnEnd::Go(NextAction::Back(End::Raised(e, trace)))),
    }
}
