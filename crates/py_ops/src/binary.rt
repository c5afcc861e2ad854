// Operators between two values.

ghost use Rattle.std.specs.Prelude.{◌≡◌, ◌≤◌, IfOk, slice_get};
ghost use Rattle.py_ops.specs.Binary as binary;
ghost use Rattle.py_operands.specs.Numbers as numbers;
ghost use Rattle.py_operands.specs.Attempts.{attempted};
ghost use Rattle.py_values.specs.Numbers.{int_value};
ghost use Rattle.py_values.specs.Ends.{finished, payable, steps_of};
ghost use Rattle.py_operands.specs.py_kinds.Kinds as kinds;
ghost use Rattle.py_values.specs.declared.value.Value.TheVariants as val;

use py_kinds::kinds::kind_name;
use py_operands::attempt::{Attempt, attempt_within};
use py_operands::faults::{failed, kinds_error};
use py_operands::numbers::{
    difference, floor_div, floor_mod, int_and, int_or, int_xor, itself, number_made, power,
    product, shift_left, shift_right, sum,
};
use py_operands::sequences::{obj_times, objs_added};
use py_tree::BinOp;
use py_values::OutOfMemory;
use py_values::change::Change;
use py_values::class::ExcClass;
use py_values::end::{Effect, OpEnd, finish};
use py_values::heap::Heap;
use py_values::number::number;
use py_values::object::Obj;
use py_values::value::{ObjId, Value};
use std::alloc::Global;

/// The text of an operator.
pub fn binary_text(op: BinOp) -> &'static str
    ensures { result.now ≡ binary.binary_text op }
{
    match op {
        BinOp::Add => "+",
        BinOp::Sub => "-",
        BinOp::Mul => "*",
        BinOp::FloorDiv => "//",
        BinOp::Mod => "%",
        BinOp::Pow => "**",
        BinOp::LShift => "<<",
        BinOp::RShift => ">>",
        BinOp::BitAnd => "&",
        BinOp::BitOr => "|",
        BinOp::BitXor => "^",
    }
}

fn unsupported(
    alloc: Global,
    heap: &Heap,
    op: BinOp,
    a: Value,
    b: Value,
) -> Result<Effect, OutOfMemory>
    ensures { IfOk result (λ m. m ≡ binary.unsupported (binary.binary_text op) (kinds.kind_name heap.now a) (kinds.kind_name heap.now b)) }
{
    let left = kind_name(alloc, heap, a)?;
    let right = kind_name(alloc, heap, b)?;
    let raise = kinds_error(
        alloc,
        "unsupported operand type(s) for ",
        binary_text(op),
        ": '",
        left.chars(),
        right.chars(),
    )?;
    Ok(Effect::Fail(raise, 0))
}

fn whole_part(alloc: Global, x: i128, y: i128) -> Result<Effect, OutOfMemory>
    ensures { IfOk result (λ m. m ≡ numbers.divided y (numbers.floor_div x y)) }
{
    if y == 0 {
        return failed(alloc, ExcClass::ZeroDivisionError, "division by zero");
    }
    number_made(alloc, floor_div(x, y))
}

fn rest(alloc: Global, x: i128, y: i128) -> Result<Effect, OutOfMemory>
    ensures { IfOk result (λ m. m ≡ numbers.divided y (numbers.floor_mod x y)) }
{
    if y == 0 {
        return failed(alloc, ExcClass::ZeroDivisionError, "division by zero");
    }
    number_made(alloc, floor_mod(x, y))
}

fn negative_count(alloc: Global) -> Result<Effect, OutOfMemory>
    ensures { IfOk result (λ m. m ≡ numbers.negative_count) }
{
    failed(alloc, ExcClass::ValueError, "negative count")
}

fn power_made(alloc: Global, x: i128, n: i128) -> Result<Effect, OutOfMemory>
    ensures { IfOk result (λ m. m ≡ numbers.power x n) }
{
    if n < 0 {
        return negative_count(alloc);
    }
    number_made(alloc, power(x, n as u128))
}

fn left_made(alloc: Global, x: i128, n: i128) -> Result<Effect, OutOfMemory>
    ensures { IfOk result (λ m. m ≡ numbers.shift_left x n) }
{
    if n < 0 {
        return negative_count(alloc);
    }
    number_made(alloc, shift_left(x, n as u128))
}

fn right_made(alloc: Global, x: i128, n: i128) -> Result<Effect, OutOfMemory>
    ensures { IfOk result (λ m. m ≡ numbers.shift_right x n) }
{
    if n < 0 {
        return negative_count(alloc);
    }
    number_made(alloc, shift_right(x, n as u128))
}

/// An operator on two numbers.
fn numbers_by(alloc: Global, op: BinOp, x: i128, y: i128) -> Result<Effect, OutOfMemory>
    ensures { IfOk result (λ m. m ≡ binary.numbers_by op x y) }
{
    match op {
        BinOp::Add => number_made(alloc, sum(x, y)),
        BinOp::Sub => number_made(alloc, difference(x, y)),
        BinOp::Mul => number_made(alloc, product(x, y)),
        BinOp::FloorDiv => whole_part(alloc, x, y),
        BinOp::Mod => rest(alloc, x, y),
        BinOp::Pow => power_made(alloc, x, y),
        BinOp::LShift => left_made(alloc, x, y),
        BinOp::RShift => right_made(alloc, x, y),
        BinOp::BitAnd => number_made(alloc, itself(int_and(x, y))),
        BinOp::BitOr => number_made(alloc, itself(int_or(x, y))),
        BinOp::BitXor => number_made(alloc, itself(int_xor(x, y))),
    }
}

/// An operator on two values, where they are numbers.
fn plain_by(
    alloc: Global,
    op: BinOp,
    a: Value,
    b: Value,
    budget: u64,
) -> Result<Attempt, OutOfMemory>
    ensures { IfOk result (λ t. t ≡ attempted budget (binary.plain_by op (int_value a) (int_value b))) }
{
    match (number(a), number(b)) {
        (Some(x), Some(y)) => {
            let made = numbers_by(alloc, op, x, y)?;
            Ok(attempt_within(Some(made), budget))
        }
        _ => Ok(Attempt::Unsupported),
    }
}

/// What `&`, `|` and `^` make of two booleans.
fn bools_by(op: BinOp, a: bool, b: bool) -> Option<bool>
    ensures { result ≡ binary.bools_by op a b }
{
    match op {
        BinOp::BitAnd => Some(a && b),
        BinOp::BitOr => Some(a || b),
        BinOp::BitXor => Some(if a { !b } else { b }),
        BinOp::Add
        | BinOp::Sub
        | BinOp::Mul
        | BinOp::FloorDiv
        | BinOp::Mod
        | BinOp::Pow
        | BinOp::LShift
        | BinOp::RShift => None,
    }
}

/// The boolean that an operator makes of two booleans, where it makes one.
fn bool_by(op: BinOp, a: Value, b: Value) -> Option<bool>
    ensures { result ≡ binary.bool_by op a b }
{
    match (a, b) {
        (Value::Bool(a), Value::Bool(b)) => bools_by(op, a, b),
        _ => None,
    }
}

/// An operator on numbers, or on booleans.
fn values_by(
    alloc: Global,
    op: BinOp,
    a: Value,
    b: Value,
    budget: u64,
) -> Result<Attempt, OutOfMemory>
    ensures { IfOk result (λ t. t ≡ attempted budget (binary.values_by op a b)) }
{
    match bool_by(op, a, b) {
        Some(b) => Ok(Attempt::Made(Effect::Give(Value::Bool(b), 0))),
        None => plain_by(alloc, op, a, b, budget),
    }
}

fn added(
    alloc: Global,
    heap: &Heap,
    a: Value,
    b: Value,
    budget: u64,
) -> Result<Attempt, OutOfMemory>
    ensures { IfOk result (λ t. t ≡ attempted budget (binary.added heap.now a b)) }
{
    match (a, b) {
        (Value::Ref(i), Value::Ref(j)) => objs_added(alloc, heap, i, j, budget),
        _ => plain_by(alloc, BinOp::Add, a, b, budget),
    }
}

fn multiplied(
    alloc: Global,
    heap: &Heap,
    a: Value,
    b: Value,
    budget: u64,
) -> Result<Attempt, OutOfMemory>
    ensures { IfOk result (λ t. t ≡ attempted budget (binary.multiplied heap.now a b)) }
{
    match (a, b) {
        (Value::Ref(i), _) => obj_times(alloc, heap, i, b, budget),
        (_, Value::Ref(j)) => obj_times(alloc, heap, j, a, budget),
        _ => plain_by(alloc, BinOp::Mul, a, b, budget),
    }
}

/// An operator on kinds that may not have it.
fn supported(
    alloc: Global,
    heap: &Heap,
    op: BinOp,
    a: Value,
    b: Value,
    budget: u64,
) -> Result<Attempt, OutOfMemory>
    ensures { IfOk result (λ t. t ≡ attempted budget (binary.supported op heap.now a b)) }
{
    match op {
        BinOp::Add => added(alloc, heap, a, b, budget),
        BinOp::Mul => multiplied(alloc, heap, a, b, budget),
        BinOp::Sub
        | BinOp::FloorDiv
        | BinOp::Mod
        | BinOp::Pow
        | BinOp::LShift
        | BinOp::RShift
        | BinOp::BitAnd
        | BinOp::BitOr
        | BinOp::BitXor => values_by(alloc, op, a, b, budget),
    }
}

/// What an operator makes of two values, under a budget.
#[tactic(auto, using(crate::proofs::Within::or_fail_within), unfolding(crate::specs::Binary::binary_of))]
pub fn binary_made(
    alloc: Global,
    heap: &Heap,
    op: BinOp,
    a: Value,
    b: Value,
    budget: u64,
) -> Result<Option<Effect>, OutOfMemory>
    ensures { IfOk result (λ m. m ≡ payable budget (binary.binary_of op heap.now a b)) }
{
    match supported(alloc, heap, op, a, b, budget)? {
        Attempt::Made(made) => Ok(Some(made)),
        Attempt::Exhausted => Ok(None),
        Attempt::Unsupported => {
            let made = unsupported(alloc, heap, op, a, b)?;
            Ok(Some(made))
        }
    }
}

/// An operator between two values (Language Reference, binary arithmetic operations), within a budget of steps.
#[tactic(auto, using(crate::proofs::Within::within_cost))]
pub fn binary(
    alloc: Global,
    heap: &mut Heap,
    op: BinOp,
    a: Value,
    b: Value,
    budget: u64,
) -> Result<OpEnd, OutOfMemory>
    ensures end { IfOk result (λ e. (e, heap.new) ≡ finished heap.old (payable budget (binary.binary_of op heap.old a b))) }
    ensures cost { IfOk result (λ e. steps_of e ≤ budget) }
{
    let made = binary_made(alloc, heap, op, a, b, budget)?;
    finish(heap, made)
}

/// A new object as the content of one that is there.
fn put_whole(id: ObjId, made: Effect) -> Effect
    ensures { result ≡ binary.put_whole id made }
{
    match made {
        Effect::New(obj, cost) => Effect::Put(id, Change::Whole(obj), Value::Ref(id), cost),
        Effect::Give(v, cost) => Effect::Give(v, cost),
        Effect::Put(at, change, v, cost) => Effect::Put(at, change, v, cost),
        Effect::Fail(raise, cost) => Effect::Fail(raise, cost),
    }
}

/// Whether an operator of an augmented assignment changes an object.
fn changes_list(heap: &Heap, op: BinOp, id: ObjId) -> bool
    ensures { result ≡ binary.changes_list op (slice_get heap.now id.at) }
{
    match (op, heap.get(id)) {
        (BinOp::Add | BinOp::Mul, Some(Obj::List(_))) => true,
        _ => false,
    }
}

#[tactic(auto, using(crate::proofs::Within::put_within))]
fn augmented_at(
    alloc: Global,
    heap: &Heap,
    op: BinOp,
    id: ObjId,
    b: Value,
    budget: u64,
) -> Result<Option<Effect>, OutOfMemory>
    ensures { IfOk result (λ m. m ≡ payable budget (binary.in_place_by (binary.changes_list op (slice_get heap.now id.at)) id (binary.binary_of op heap.now (val.Ref id) b))) }
{
    let made = binary_made(alloc, heap, op, Value::Ref(id), b, budget)?;
    if !changes_list(heap, op, id) {
        return Ok(made);
    }
    match made {
        Some(made) => Ok(Some(put_whole(id, made))),
        None => Ok(None),
    }
}

/// What an operator of an augmented assignment makes, under a budget: a list is changed in place.
pub fn augmented_made(
    alloc: Global,
    heap: &Heap,
    op: BinOp,
    a: Value,
    b: Value,
    budget: u64,
) -> Result<Option<Effect>, OutOfMemory>
    ensures { IfOk result (λ m. m ≡ payable budget (binary.augmented_of op heap.now a b)) }
{
    match a {
        Value::Ref(id) => augmented_at(alloc, heap, op, id, b, budget),
        Value::None | Value::Bool(_) | Value::Int(_) => {
            binary_made(alloc, heap, op, a, b, budget)
        }
    }
}

/// An operator of an augmented assignment (Language Reference, augmented assignment statements), within a budget of steps.
#[tactic(auto, using(crate::proofs::Within::within_cost))]
pub fn augmented(
    alloc: Global,
    heap: &mut Heap,
    op: BinOp,
    a: Value,
    b: Value,
    budget: u64,
) -> Result<OpEnd, OutOfMemory>
    ensures end { IfOk result (λ e. (e, heap.new) ≡ finished heap.old (payable budget (binary.augmented_of op heap.old a b))) }
    ensures cost { IfOk result (λ e. steps_of e ≤ budget) }
{
    let made = augmented_made(alloc, heap, op, a, b, budget)?;
    finish(heap, made)
}
