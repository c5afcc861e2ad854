// The parts of an expression by their places, and temporaries.

ghost use Rattle.std.specs.Prelude.{◌≡◌, IfOk, length};
ghost use Rattle.machine_state.specs.py_world.Expressions as world;
ghost use Rattle.machine_state.specs.py_world.Outcome.{Gave};
ghost use Rattle.machine_state.specs.py_world.World.{temp};
ghost use Rattle.machine_state.specs.Frames.{state_of};
ghost use Rattle.machine_state.specs.Places.{CoreState};
ghost use Rattle.machine_immediate.specs.Parts.{IsNext, IsNextOp};

use machine_state::machine::Machine;
use py_core::{CmpOp, CoreExpr};
use py_values::value::Value;
use seq::OutOfMemory;
use std::rc::Rc;

/// The part at a place, where there is one.
#[tactic(auto, using(crate::proofs::Parts::next_some, crate::proofs::Parts::next_none))]
pub fn part_at(es: &Rc<Vec<Rc<CoreExpr>>>, at: usize) -> Result<Option<Rc<CoreExpr>>, OutOfMemory>
    ensures { IfOk result (λ e. IsNext e at es.now) }
{
    if at >= es.len() {
        return Ok(None);
    }
    let e = es[at].clone()?;
    Ok(Some(e))
}

/// The operator at a place, where there is one.
#[tactic(auto, using(crate::proofs::Parts::next_op_some, crate::proofs::Parts::next_op_none))]
pub fn op_at(ops: &Rc<Vec<CmpOp>>, at: usize) -> Option<CmpOp>
    ensures { IsNextOp result at ops.now.value.items }
{
    if at >= ops.len() {
        return None;
    }
    Some(ops[at])
}

/// The argument behind those whose values are there.
pub fn next_argument(
    es: &Rc<Vec<Rc<CoreExpr>>>,
    so_far: &Vec<Value>,
) -> Result<Option<Rc<CoreExpr>>, OutOfMemory>
    ensures { IfOk result (λ e. IsNext e (length so_far.now.items) es.now) }
{
    part_at(es, so_far.len())
}

/// The value of a temporary among others.
pub fn temp_in(temps: &[Option<Value>], t: u32) -> Value
    ensures { (s : CoreState) → s.temps ≡ temps.now → Gave result s ≡ world.temp_found (temp t s) s }
{
    match temps.get(t as usize) {
        Some(Some(v)) => *v,
        _ => Value::None,
    }
}

/// The value of a temporary of the machine.
pub fn temp_value(m: &Machine, t: u32) -> Value
    ensures { Gave result (state_of m.now) ≡ world.temp_found (temp t (state_of m.now)) (state_of m.now) }
{
    temp_in(&m.temps, t)
}
