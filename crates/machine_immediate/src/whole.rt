// Operators whose value is a number or a boolean that is told of two values alone: nothing is made for it but the value.

ghost use Rattle.std.specs.Prelude.{◌≡◌, IfSome, List};
ghost use Rattle.py_ops.specs.Binary.{numbers_by, binary_of};
ghost use Rattle.py_ops.specs.Compare.{compare_of};
ghost use Rattle.machine_immediate.specs.Numbers as numbers;
ghost use Rattle.py_values.specs.declared.end.Effect.TheVariants.{Give};
ghost use Rattle.py_values.specs.declared.object.Obj.{Obj};
ghost use Rattle.py_values.specs.declared.value.Value.TheVariants.{Bool, Int};

use py_compare::same::is_same;
use py_core::{BinOp, CmpOp};
use py_operands::numbers::{difference, floor_div, floor_mod, product, sum};
use py_values::heap::Heap;
use py_values::value::Value;

/// The number that an operator gives of two others, where it is told at once: a sum, a difference, a product, a quotient or its rest.
#[tactic(auto, using(crate::proofs::Numbers::added, crate::proofs::Numbers::subtracted, crate::proofs::Numbers::multiplied, crate::proofs::Numbers::floored, crate::proofs::Numbers::left_over))]
pub(crate) fn number_by(op: BinOp, x: i128, y: i128) -> Option<i128>
    ensures { IfSome result (λ z. numbers_by op x y ≡ Give (Int z) 0) }
{
    match op {
        BinOp::Add => sum(x, y),
        BinOp::Sub => difference(x, y),
        BinOp::Mul => product(x, y),
        BinOp::FloorDiv => {
            if y == 0 {
                return None;
            }
            floor_div(x, y)
        }
        BinOp::Mod => {
            if y == 0 {
                return None;
            }
            floor_mod(x, y)
        }
        BinOp::Pow | BinOp::LShift | BinOp::RShift | BinOp::BitAnd | BinOp::BitOr | BinOp::BitXor =>
            None,
    }
}

/// The value that an operator gives of two whole numbers, where it is told at once.
fn whole_by(op: BinOp, x: i128, y: i128) -> Option<Value>
    ensures { IfSome result (λ v. (heap : List Obj) → binary_of op heap (Int x) (Int y) ≡ Give v 0) }
{
    match number_by(op, x, y) {
        Some(z) => Some(Value::Int(z)),
        None => None,
    }
}

/// The value that an operator gives of two values, where they are whole numbers and it is told at once.
pub fn value_by(op: BinOp, x: Value, y: Value) -> Option<Value>
    ensures { IfSome result (λ v. (heap : List Obj) → binary_of op heap x y ≡ Give v 0) }
{
    match (x, y) {
        (Value::Int(a), Value::Int(b)) => whole_by(op, a, b),
        _ => None,
    }
}

/// What a comparison tells of two whole numbers by whether the first is less and whether they are the same.
fn told_by(op: CmpOp, less: bool, same: bool) -> Option<bool>
    ensures { result ≡ numbers.told_by op less same }
{
    match op {
        CmpOp::Equal => Some(same),
        CmpOp::NotEqual => Some(!same),
        CmpOp::Less => Some(less),
        CmpOp::LessEqual => Some(less || same),
        CmpOp::Greater => Some(!(less || same)),
        CmpOp::GreaterEqual => Some(!less),
        CmpOp::In | CmpOp::NotIn | CmpOp::Is | CmpOp::IsNot => None,
    }
}

/// What a comparison of two whole numbers tells.
fn compared_by(op: CmpOp, x: i128, y: i128) -> Option<bool>
    ensures { IfSome result (λ b. (heap : List Obj) → compare_of op heap (Int x) (Int y) ≡ Give (Bool b) 0) }
{
    told_by(op, x < y, x == y)
}

/// Whether two values are the same, where that is asked.
#[tactic(auto, unfolding(py_ops::specs::Compare::compare_of))]
fn same_by(heap: &Heap, op: CmpOp, x: Value, y: Value) -> Option<bool>
    ensures { IfSome result (λ b. compare_of op heap.now x y ≡ Give (Bool b) 0) }
{
    match op {
        CmpOp::Is => Some(is_same(heap, x, y)),
        CmpOp::IsNot => Some(!is_same(heap, x, y)),
        CmpOp::Equal
        | CmpOp::NotEqual
        | CmpOp::Less
        | CmpOp::LessEqual
        | CmpOp::Greater
        | CmpOp::GreaterEqual
        | CmpOp::In
        | CmpOp::NotIn => None,
    }
}

/// What a comparison tells at once: one of two whole numbers, or whether two values are the same.
pub fn answer_by(heap: &Heap, op: CmpOp, x: Value, y: Value) -> Option<bool>
    ensures { IfSome result (λ b. compare_of op heap.now x y ≡ Give (Bool b) 0) }
{
    match (x, y) {
        (Value::Int(a), Value::Int(b)) => compared_by(op, a, b),
        _ => same_by(heap, op, x, y),
    }
}
