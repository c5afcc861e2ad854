// Operators before a value.

ghost use Rattle.std.specs.Prelude.{◌≡◌, ◌≤◌, IfOk};
ghost use Rattle.py_ops.specs.Unary as unary;
ghost use Rattle.py_values.specs.Ends.{finished, payable, steps_of};

use py_kinds::kinds::kind_name;
use py_operands::faults::kind_error;
use py_operands::numbers::{inverted, itself, negative, number_made};
use py_tree::UnOp;
use py_values::OutOfMemory;
use py_values::end::{Effect, OpEnd, finish, made_within};
use py_values::heap::Heap;
use py_values::number::number;
use py_values::value::Value;
use std::alloc::Global;

/// The text of an operator.
pub fn unary_text(op: UnOp) -> &'static str
    ensures { result.now ≡ unary.unary_text op }
{
    match op {
        UnOp::Minus => "-",
        UnOp::Plus => "+",
        UnOp::Invert => "~",
    }
}

fn number_unary(alloc: Global, op: UnOp, x: i128) -> Result<Effect, OutOfMemory>
    ensures { IfOk result (λ m. m ≡ unary.number_unary op x) }
{
    match op {
        UnOp::Minus => number_made(alloc, negative(x)),
        UnOp::Plus => number_made(alloc, itself(x)),
        UnOp::Invert => number_made(alloc, inverted(x)),
    }
}

/// What an operator makes before a value.
pub fn unary_made(alloc: Global, heap: &Heap, op: UnOp, a: Value) -> Result<Effect, OutOfMemory>
    ensures { IfOk result (λ m. m ≡ unary.unary_of op heap.now a) }
{
    match number(a) {
        Some(x) => number_unary(alloc, op, x),
        None => {
            let kind = kind_name(alloc, heap, a)?;
            let raise = kind_error(
                alloc,
                "bad operand type for unary ",
                unary_text(op),
                ": '",
                kind.chars(),
            )?;
            Ok(Effect::Fail(raise, 0))
        }
    }
}

/// An operator before a value (Language Reference, unary arithmetic and bitwise operations), within a budget of steps.
#[tactic(auto, using(crate::proofs::Within::within_cost))]
pub fn unary(
    alloc: Global,
    heap: &mut Heap,
    op: UnOp,
    a: Value,
    budget: u64,
) -> Result<OpEnd, OutOfMemory>
    ensures end { IfOk result (λ e. (e, heap.new) ≡ finished heap.old (payable budget (unary.unary_of op heap.old a))) }
    ensures cost { IfOk result (λ e. steps_of e ≤ budget) }
{
    let made = unary_made(alloc, heap, op, a)?;
    let made = made_within(made, budget);
    finish(heap, made)
}
