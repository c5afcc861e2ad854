// Operators and comparisons whose value is there at once: that of a number, a boolean or what was there before.

ghost use Rattle.std.specs.Prelude.{◌≡◌, ◌≢◌, IfOk, IfSome, Some};
ghost use Rattle.py_ops.specs.Binary.{binary_of};
ghost use Rattle.py_ops.specs.Compare.{compare_of};
ghost use Rattle.py_ops.specs.Unary.{unary_of};
ghost use Rattle.machine_state.specs.Found.{OnTrue};
ghost use Rattle.machine_immediate.specs.AtOnce.{IsMadeWithin, IsOperated, PutIn};
ghost use Rattle.py_values.specs.declared.value.Value.TheVariants.{Int};

use crate::immediate::Immediate;
use crate::whole::{answer_by, number_by};
use machine_state::machine::Machine;
use py_core::{BinOp, CmpOp, UnOp};
use py_ops::binary::binary_made;
use py_ops::compare::compare_made;
use py_ops::unary::unary_made;
use py_values::end::{Effect, made_within};
use py_values::value::Value;
use seq::OutOfMemory;

/// The value that an operator gives, where it gives one that was there before.
fn given(made: Option<Effect>, left: u64) -> Option<Immediate>
    ensures { IfSome result (IsMadeWithin made left) }
{
    match made {
        Some(made) => given_by(made, left),
        None => None,
    }
}

fn given_by(made: Effect, left: u64) -> Option<Immediate>
    ensures { IfSome result (IsMadeWithin (Some made) left) }
{
    if let Effect::Give(value, cost) = made {
        let left = left.saturating_sub(cost);
        return Some(Immediate { value, left });
    }
    None
}

/// An operator whose value is not told at once.
#[inline(never)]
fn made_now(
    m: &Machine,
    op: BinOp,
    x: Value,
    y: Value,
    left: u64,
) -> Result<Option<Immediate>, OutOfMemory>
    requires { left ≢ 0 }
    ensures { IfOk result (λ r. IfSome r (IsOperated (binary_of op m.now.heap x y) left)) }
{
    let made = binary_made(m.alloc, &m.heap, op, x, y, left - 1)?;
    Ok(given(made, left - 1))
}

/// Puts what an operator gives in the place of its last operand, where it gives something that is there at once.
fn put(found: &mut Immediate, given: Option<Immediate>) -> bool
    ensures { PutIn given result found.new }
{
    match given {
        Some(d) => {
            *found = d;
            true
        }
        None => false,
    }
}

/// An operator between two whole numbers.
#[tactic(auto, using(crate::proofs::Operators::told_whole))]
fn whole_now(
    m: &Machine,
    op: BinOp,
    x: i128,
    y: i128,
    found: &mut Immediate,
) -> Result<bool, OutOfMemory>
    requires { found.old.left ≢ 0 }
    ensures { IfOk result (λ is. OnTrue is (IsOperated (binary_of op m.now.heap (Int x) (Int y)) found.old.left found.new)) }
{
    match number_by(op, x, y) {
        Some(z) => {
            found.value = Value::Int(z);
            found.left -= 1;
            Ok(true)
        }
        None => {
            let given = made_now(m, op, Value::Int(x), Value::Int(y), found.left)?;
            Ok(put(found, given))
        }
    }
}

/// An operator between two values, of which the second was found last.
pub(crate) fn binary_now(
    m: &Machine,
    op: BinOp,
    x: Value,
    found: &mut Immediate,
) -> Result<bool, OutOfMemory>
    ensures { IfOk result (λ is. OnTrue is (IsOperated (binary_of op m.now.heap x found.old.value) found.old.left found.new)) }
{
    if found.left == 0 {
        return Ok(false);
    }
    match (x, found.value) {
        (Value::Int(a), Value::Int(b)) => whole_now(m, op, a, b, found),
        _ => Ok(false),
    }
}

/// A comparison that is not told at once.
#[inline(never)]
fn judged_now(
    m: &Machine,
    op: CmpOp,
    x: Value,
    y: Value,
    left: u64,
) -> Result<Option<Immediate>, OutOfMemory>
    requires { left ≢ 0 }
    ensures { IfOk result (λ r. IfSome r (IsOperated (compare_of op m.now.heap x y) left)) }
{
    let made = compare_made(m.alloc, &m.heap, op, x, y, left - 1)?;
    Ok(given(made, left - 1))
}

/// A comparison of two values, of which the second was found last.
#[tactic(auto, using(crate::proofs::Operators::told_now))]
pub(crate) fn comparison_now(
    m: &Machine,
    op: CmpOp,
    x: Value,
    found: &mut Immediate,
) -> Result<bool, OutOfMemory>
    ensures { IfOk result (λ is. OnTrue is (IsOperated (compare_of op m.now.heap x found.old.value) found.old.left found.new)) }
{
    if found.left == 0 {
        return Ok(false);
    }
    match answer_by(&m.heap, op, x, found.value) {
        Some(answer) => {
            found.value = Value::Bool(answer);
            found.left -= 1;
            Ok(true)
        }
        None => {
            let given = judged_now(m, op, x, found.value, found.left)?;
            Ok(put(found, given))
        }
    }
}

/// An operator before the value that was found last.
pub(crate) fn unary_now(m: &Machine, op: UnOp, found: &mut Immediate) -> Result<bool, OutOfMemory>
    ensures { IfOk result (λ is. OnTrue is (IsOperated (unary_of op m.now.heap found.old.value) found.old.left found.new)) }
{
    if found.left == 0 {
        return Ok(false);
    }
    let left = found.left - 1;
    let made = unary_made(m.alloc, &m.heap, op, found.value)?;
    Ok(put(found, given(made_within(made, left), left)))
}
