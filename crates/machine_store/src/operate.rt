// What targets ask of objects: each its step, its cost, and its end.

ghost use Rattle.std.specs.Prelude.{◌≡◌, ℕ, IfOk};
ghost use Rattle.py_items.specs.Items.{delete_of, store_of};
ghost use Rattle.py_ops.specs.Binary.{augmented_of};
ghost use Rattle.machine_assign.specs.py_world.Outcome.{operated};
ghost use Rattle.machine_assign.specs.machine_state.Frames.{machine_rest, site_now, state_of, Follows};
ghost use Rattle.machine_assign.specs.machine_state.Work.{Falls};

use machine_assign::{Machine, Origin, TurnEnd};
use py_core::BinOp;
use py_items::store::{delete_made, store_made};
use py_ops::binary::augmented_made;
use py_values::value::Value;
use seq::OutOfMemory;

/// The store of an item.
pub fn put(m: &mut Machine, x: Value, i: Value, v: Value) -> Result<TurnEnd, OutOfMemory>
    ensures next { IfOk result (λ t. Follows t m.new m.old.left (operated (store_of m.old.heap x i v) (site_now m.old) (state_of m.old) (machine_rest m.old))) }
    ensures work { IfOk result (λ t. (work : ℕ) → Falls t m.new m.old.left work) }
{
    if !m.spend() {
        return Ok(TurnEnd::Exhausted(m.trace(Origin::Code)?));
    }
    let made = store_made(m.alloc, &m.heap, x, i, v, m.left)?;
    m.pay(made, Origin::Code)
}

/// The deletion of an item.
pub fn take_away(m: &mut Machine, x: Value, i: Value) -> Result<TurnEnd, OutOfMemory>
    ensures next { IfOk result (λ t. Follows t m.new m.old.left (operated (delete_of m.old.heap x i) (site_now m.old) (state_of m.old) (machine_rest m.old))) }
    ensures work { IfOk result (λ t. (work : ℕ) → Falls t m.new m.old.left work) }
{
    if !m.spend() {
        return Ok(TurnEnd::Exhausted(m.trace(Origin::Code)?));
    }
    let made = delete_made(m.alloc, &m.heap, x, i, m.left)?;
    m.pay(made, Origin::Code)
}

/// The operator of an augmented assignment, which changes a list in place.
pub fn augment(m: &mut Machine, op: BinOp, x: Value, y: Value) -> Result<TurnEnd, OutOfMemory>
    ensures next { IfOk result (λ t. Follows t m.new m.old.left (operated (augmented_of op m.old.heap x y) (site_now m.old) (state_of m.old) (machine_rest m.old))) }
    ensures work { IfOk result (λ t. (work : ℕ) → Falls t m.new m.old.left work) }
{
    if !m.spend() {
        return Ok(TurnEnd::Exhausted(m.trace(Origin::Code)?));
    }
    let made = augmented_made(m.alloc, &m.heap, op, x, y, m.left)?;
    m.pay(made, Origin::Code)
}
