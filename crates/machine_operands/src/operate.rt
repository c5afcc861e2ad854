// Operators.

ghost use Rattle.std.specs.Prelude.{◌≡◌, ◌≤◌, ◌+◌, ℕ, IfOk};
ghost use Rattle.py_ops.specs.Binary.{binary_of};
ghost use Rattle.py_ops.specs.Compare.{compare_of};
ghost use Rattle.py_ops.specs.Unary.{unary_of};
ghost use Rattle.machine_state.specs.py_world.Outcome.{costing, operated};
ghost use Rattle.machine_state.specs.py_world.Site.{trace_of};
ghost use Rattle.py_values.specs.declared.end.Effect.{Effect};
ghost use Rattle.machine_state.specs.Frames.{machine_rest, site_now, state_of, Follows};
ghost use Rattle.machine_state.specs.Work.{stack_work, Falls};
ghost use Rattle.py_values.specs.Ends.{payable};

use machine_immediate::whole::{answer_by, value_by};
use machine_state::frame::End;
use machine_state::machine::{Machine, NextAction, Origin, TurnEnd};
use py_core::{BinOp, CmpOp, UnOp};
use py_ops::binary::binary_made;
use py_ops::compare::compare_made;
use py_ops::unary::unary_made;
use py_values::end::{Effect, made_within};
use py_values::heap::Heap;
use py_values::value::Value;
use seq::OutOfMemory;
use std::alloc::Global;

/// An operator whose value is not told at once: its cost, and its end.
#[inline(never)]
fn operate_made(m: &mut Machine, op: BinOp, x: Value, y: Value) -> Result<TurnEnd, OutOfMemory>
    ensures next { IfOk result (λ t. Follows t m.new m.old.left (costing (binary_of op m.old.heap x y) (trace_of (site_now m.old)) (state_of m.old) (machine_rest m.old))) }
    ensures left { m.new.left ≤ m.old.left }
    ensures work { IfOk result (λ t. Falls t m.new m.old.left (1 + stack_work m.old)) }
{
    let made = binary_made(m.alloc, &m.heap, op, x, y, m.left)?;
    m.pay(made, Origin::Code)
}

/// An operator between two values: its step, its cost, and its end.
#[tactic(auto, using(crate::proofs::Operators::operator_told, crate::proofs::Operators::operator_made))]
pub fn operate(m: &mut Machine, op: BinOp, x: Value, y: Value) -> Result<TurnEnd, OutOfMemory>
    ensures next { IfOk result (λ t. Follows t m.new m.old.left (operated (binary_of op m.old.heap x y) (site_now m.old) (state_of m.old) (machine_rest m.old))) }
    ensures work { IfOk result (λ t. (work : ℕ) → Falls t m.new m.old.left work) }
{
    if !m.spend() {
        return Ok(TurnEnd::Exhausted(m.trace(Origin::Code)?));
    }
    match value_by(op, x, y) {
        Some(v) => Ok(TurnEnd::Go(NextAction::Back(End::Value(v)))),
        None => operate_made(m, op, x, y),
    }
}

/// What an operator makes of a value, under a budget.
fn unary_within(
    alloc: Global,
    heap: &Heap,
    op: UnOp,
    x: Value,
    budget: u64,
) -> Result<Option<Effect>, OutOfMemory>
    ensures { IfOk result (λ m. m ≡ payable budget (unary_of op heap.now x)) }
{
    let made = unary_made(alloc, heap, op, x)?;
    Ok(made_within(made, budget))
}

/// An operator before a value.
pub fn operate_before(m: &mut Machine, op: UnOp, x: Value) -> Result<TurnEnd, OutOfMemory>
    ensures next { IfOk result (λ t. Follows t m.new m.old.left (operated (unary_of op m.old.heap x) (site_now m.old) (state_of m.old) (machine_rest m.old))) }
    ensures work { IfOk result (λ t. (work : ℕ) → Falls t m.new m.old.left work) }
{
    if !m.spend() {
        return Ok(TurnEnd::Exhausted(m.trace(Origin::Code)?));
    }
    let made = unary_within(m.alloc, &m.heap, op, x, m.left)?;
    m.pay(made, Origin::Code)
}

/// A comparison that is not told at once: its cost, and its end.
#[inline(never)]
fn compare_judged(m: &mut Machine, op: CmpOp, x: Value, y: Value) -> Result<TurnEnd, OutOfMemory>
    ensures next { IfOk result (λ t. Follows t m.new m.old.left (costing (compare_of op m.old.heap x y) (trace_of (site_now m.old)) (state_of m.old) (machine_rest m.old))) }
    ensures left { m.new.left ≤ m.old.left }
    ensures work { IfOk result (λ t. Falls t m.new m.old.left (1 + stack_work m.old)) }
{
    let made = compare_made(m.alloc, &m.heap, op, x, y, m.left)?;
    m.pay(made, Origin::Code)
}

/// A comparison of two values.
#[tactic(auto, using(crate::proofs::Operators::comparison_told, crate::proofs::Operators::comparison_made))]
pub fn compare(m: &mut Machine, op: CmpOp, x: Value, y: Value) -> Result<TurnEnd, OutOfMemory>
    ensures next { IfOk result (λ t. Follows t m.new m.old.left (operated (compare_of op m.old.heap x y) (site_now m.old) (state_of m.old) (machine_rest m.old))) }
    ensures work { IfOk result (λ t. (work : ℕ) → Falls t m.new m.old.left work) }
{
    if !m.spend() {
        return Ok(TurnEnd::Exhausted(m.trace(Origin::Code)?));
    }
    match answer_by(&m.heap, op, x, y) {
        Some(answer) => Ok(TurnEnd::Go(NextAction::Back(End::Value(Value::Bool(answer))))),
        None => compare_judged(m, op, x, y),
    }
}

/// Pays for what is made without a step of its own, and goes on with it.
#[tactic(auto, using(machine_state::proofs::Costs::paid, machine_state::proofs::Costs::unpaid))]
pub fn settle(m: &mut Machine, made: Option<Effect>) -> Result<TurnEnd, OutOfMemory>
    ensures next { IfOk result (λ t. (x : Effect) → made ≡ payable m.old.left x → Follows t m.new m.old.left (costing x (trace_of (site_now m.old)) (state_of m.old) (machine_rest m.old))) }
    ensures work { IfOk result (λ t. Falls t m.new m.old.left (1 + stack_work m.old)) }
{
    match made {
        Some(made) => {
            m.left = m.left.saturating_sub(made.cost());
            Ok(TurnEnd::Go(m.make(made, Origin::Code)?))
        }
        None => Ok(TurnEnd::Exhausted(m.trace(Origin::Code)?)),
    }
}
