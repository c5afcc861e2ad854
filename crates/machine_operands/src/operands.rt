// The values of operands, and of the parts of calls.

ghost use Rattle.std.specs.Prelude.{◌≡◌, ◌+◌, IfOk, OnOk};
ghost use Rattle.machine_state.specs.py_world.Expressions as world;
ghost use Rattle.machine_state.specs.py_world.World.{set_at};
ghost use Rattle.machine_state.specs.core_meaning.Expressions.{eval};
ghost use Rattle.machine_state.specs.Frames.{on_call, on_operand, machine_rest, site_now, state_of, Follows};
ghost use Rattle.machine_state.specs.Work.{call_work, operand_work, stack_work, weight, Falls};

use crate::operate::{operate, operate_before};
use machine_expr::evaluate::{arguments, begin_right};
use machine_immediate::immediate::at_once;
use machine_state::frame::{CallFrame, End, OperandFrame};
use machine_state::machine::{Machine, NextAction, TurnEnd};
use py_core::{BinOp, CoreExpr};
use py_kinds::truth::truth;
use py_values::value::Value;
use seq::OutOfMemory;
use std::rc::Rc;

/// Goes on with the right operand of an operator, whose left one is there.
fn take_right(
    m: &mut Machine,
    x: Value,
    op: BinOp,
    b: &Rc<CoreExpr>,
) -> Result<TurnEnd, OutOfMemory>
    ensures next { IfOk result (λ t. Follows t m.new m.old.left (world.right_operand x op (eval b.now.value) (site_now m.old) (state_of m.old) (machine_rest m.old))) }
    ensures work { IfOk result (λ t. Falls t m.new m.old.left (weight b.now.value + 2 + stack_work m.old)) }
{
    match at_once(m, b)? {
        Some(there) => {
            m.left = there.left;
            operate(m, op, x, there.value)
        }
        None => Ok(TurnEnd::Go(begin_right(m, x, op, b)?)),
    }
}

/// Sets a temporary.
#[tactic(auto, using(crate::proofs::Temps::set_grown, crate::proofs::Temps::set_within))]
fn set_temp(temps: &mut Vec<Option<Value>>, t: u32, v: Value) -> Result<(), OutOfMemory>
    ensures { OnOk result (temps.new.items ≡ set_at t v temps.old.items) }
{
    let at = t as usize;
    'grow: while temps.len() <= at {
        temps.push(None)?;
    }
    temps[at] = Some(v);
    Ok(())
}

/// Goes on with the value of an operand.
pub fn take_operand(m: &mut Machine, frame: OperandFrame, v: Value) -> Result<TurnEnd, OutOfMemory>
    ensures next { IfOk result (λ t. Follows t m.new m.old.left (on_operand frame (site_now m.old) v (state_of m.old) (machine_rest m.old))) }
    ensures work { IfOk result (λ t. Falls t m.new m.old.left (operand_work frame + stack_work m.old)) }
{
    match frame {
        OperandFrame::Unary(op) => operate_before(m, op, v),
        OperandFrame::Right(op, b) => take_right(m, v, op, &b),
        OperandFrame::Binary(x, op) => operate(m, op, x, v),
        OperandFrame::Not => {
            let answer = !truth(&m.heap, v);
            Ok(TurnEnd::Go(NextAction::Back(End::Value(Value::Bool(answer)))))
        }
        OperandFrame::Choice(a, b) => {
            if truth(&m.heap, v) {
                Ok(TurnEnd::Go(NextAction::Evaluate(a)))
            } else {
                Ok(TurnEnd::Go(NextAction::Evaluate(b)))
            }
        }
        OperandFrame::Keep(t) => {
            set_temp(&mut m.temps, t, v)?;
            Ok(TurnEnd::Go(NextAction::Back(End::Value(v))))
        }
    }
}

/// Goes on with the value of a part of a call.
pub fn take_call(m: &mut Machine, frame: CallFrame, v: Value) -> Result<TurnEnd, OutOfMemory>
    ensures next { IfOk result (λ t. Follows t m.new m.old.left (on_call frame (site_now m.old) v (state_of m.old) (machine_rest m.old))) }
    ensures work { IfOk result (λ t. Falls t m.new m.old.left (call_work frame + stack_work m.old)) }
{
    match frame {
        CallFrame::Callee(es, names) => {
            let none = Vec::new(m.alloc);
            Ok(TurnEnd::Go(arguments(m, v, names, none, es)?))
        }
        CallFrame::Argument(callee, names, so_far, es) => {
            let mut so_far = so_far;
            so_far.push(v)?;
            Ok(TurnEnd::Go(arguments(m, callee, names, so_far, es)?))
        }
    }
}
