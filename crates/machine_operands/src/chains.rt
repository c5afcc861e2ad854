// The values of operands of chains.

ghost use Rattle.std.specs.Prelude.{◌≡◌, ◌+◌, ◌≤◌, IfOk, drop};
ghost use Rattle.machine_state.specs.py_world.Expressions.{and_on, compare_on, or_on};
ghost use Rattle.machine_state.specs.py_world.Outcome.{Gave};
ghost use Rattle.machine_state.specs.Places.{parts_from};
ghost use Rattle.machine_state.specs.Frames.{on_chain, machine_rest, site_now, state_of, todo, Follows};
ghost use Rattle.machine_state.specs.Work.{chain_work, doing_work, stack_work, weight_from, Falls};

use crate::operate::compare;
use machine_immediate::part::{op_at, part_at};
use machine_state::frame::{ChainFrame, End, Frame};
use machine_state::machine::{Machine, NextAction, TurnEnd};
use py_core::{CmpOp, CoreExpr};
use py_kinds::truth::truth;
use py_values::value::Value;
use seq::OutOfMemory;
use std::rc::Rc;

fn next_and(
    m: &mut Machine,
    es: Rc<Vec<Rc<CoreExpr>>>,
    at: usize,
    v: Value,
) -> Result<NextAction, OutOfMemory>
    ensures next { IfOk result (λ d. todo d m.new ≡ and_on (parts_from at es) (site_now m.old) (Gave v (state_of m.old)) (machine_rest m.old)) }
    ensures left { m.new.left ≡ m.old.left }
    ensures work { IfOk result (λ d. doing_work d + stack_work m.new ≤ weight_from at es + stack_work m.old) }
{
    match part_at(&es, at)? {
        Some(e) => {
            if !truth(&m.heap, v) {
                return Ok(NextAction::Back(End::Value(v)));
            }
            m.stack.push(Frame::Chain(ChainFrame::And(es, at + 1)))?;
            Ok(NextAction::Evaluate(e))
        }
        None => Ok(NextAction::Back(End::Value(v))),
    }
}

fn next_or(
    m: &mut Machine,
    es: Rc<Vec<Rc<CoreExpr>>>,
    at: usize,
    v: Value,
) -> Result<NextAction, OutOfMemory>
    ensures next { IfOk result (λ d. todo d m.new ≡ or_on (parts_from at es) (site_now m.old) (Gave v (state_of m.old)) (machine_rest m.old)) }
    ensures left { m.new.left ≡ m.old.left }
    ensures work { IfOk result (λ d. doing_work d + stack_work m.new ≤ weight_from at es + stack_work m.old) }
{
    match part_at(&es, at)? {
        Some(e) => {
            if truth(&m.heap, v) {
                return Ok(NextAction::Back(End::Value(v)));
            }
            m.stack.push(Frame::Chain(ChainFrame::Or(es, at + 1)))?;
            Ok(NextAction::Evaluate(e))
        }
        None => Ok(NextAction::Back(End::Value(v))),
    }
}

/// Goes on with a comparison whose left operand is there.
fn next_compare(
    m: &mut Machine,
    x: Value,
    ops: Rc<Vec<CmpOp>>,
    es: Rc<Vec<Rc<CoreExpr>>>,
    at: usize,
) -> Result<NextAction, OutOfMemory>
    ensures next { IfOk result (λ d. todo d m.new ≡ compare_on (drop at ops.value.items) (parts_from at es) x (site_now m.old) (state_of m.old) (machine_rest m.old)) }
    ensures left { m.new.left ≡ m.old.left }
    ensures work { IfOk result (λ d. doing_work d + stack_work m.new ≤ weight_from at es + stack_work m.old) }
{
    let Some(op) = op_at(&ops, at) else {
        return Ok(NextAction::Back(End::Value(x)));
    };
    match part_at(&es, at)? {
        Some(e) => {
            let frame = ChainFrame::Compare(x, op, ops, es, at + 1);
            m.stack.push(Frame::Chain(frame))?;
            Ok(NextAction::Evaluate(e))
        }
        None => Ok(NextAction::Back(End::Value(x))),
    }
}

/// Goes on behind a comparison whose value is there.
fn take_compared(
    m: &mut Machine,
    y: Value,
    ops: Rc<Vec<CmpOp>>,
    es: Rc<Vec<Rc<CoreExpr>>>,
    at: usize,
    v: Value,
) -> Result<NextAction, OutOfMemory>
    ensures next { IfOk result (λ d. todo d m.new ≡ on_chain (ChainFrame.Compared y ops es at) (site_now m.old) (Gave v (state_of m.old)) (machine_rest m.old)) }
    ensures left { m.new.left ≡ m.old.left }
    ensures work { IfOk result (λ d. doing_work d + stack_work m.new ≤ weight_from at es + stack_work m.old) }
{
    match part_at(&es, at)? {
        Some(_) => {
            if truth(&m.heap, v) {
                return next_compare(m, y, ops, es, at);
            }
            Ok(NextAction::Back(End::Value(v)))
        }
        None => Ok(NextAction::Back(End::Value(v))),
    }
}

/// Goes on with the value of an operand of a chain.
pub fn take_chain(m: &mut Machine, frame: ChainFrame, v: Value) -> Result<TurnEnd, OutOfMemory>
    ensures next { IfOk result (λ t. Follows t m.new m.old.left (on_chain frame (site_now m.old) (Gave v (state_of m.old)) (machine_rest m.old))) }
    ensures work { IfOk result (λ t. Falls t m.new m.old.left (chain_work frame + stack_work m.old)) }
{
    match frame {
        ChainFrame::And(es, at) => Ok(TurnEnd::Go(next_and(m, es, at, v)?)),
        ChainFrame::Or(es, at) => Ok(TurnEnd::Go(next_or(m, es, at, v)?)),
        ChainFrame::First(ops, es) => Ok(TurnEnd::Go(next_compare(m, v, ops, es, 0)?)),
        ChainFrame::Compare(x, op, ops, es, next) => {
            let frame = ChainFrame::Compared(v, ops, es, next);
            m.stack.push(Frame::Chain(frame))?;
            compare(m, op, x, v)
        }
        ChainFrame::Compared(y, ops, es, at) => {
            Ok(TurnEnd::Go(take_compared(m, y, ops, es, at, v)?))
        }
    }
}
