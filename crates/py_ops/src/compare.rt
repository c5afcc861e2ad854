// Comparisons.

ghost use Rattle.std.specs.Prelude.{◌≡◌, ◌≤◌, IfOk, codes, true, false};
ghost use Rattle.py_compare.specs.Equal.{told, equal_of};
ghost use Rattle.py_compare.specs.Order.{place_within, order_of};
ghost use Rattle.py_ops.specs.Compare as compare;
ghost use Rattle.py_operands.specs.Faults as faults;
ghost use Rattle.py_values.specs.Ends.{finished, payable, steps_of};
ghost use Rattle.py_operands.specs.py_kinds.Kinds as kinds;

use crate::contains::{contains, judge};
use py_compare::equal::equal;
use py_compare::order::order;
use py_compare::same::is_same;
use py_compare::tested::Comparison;
use py_operands::faults::{not_supported, too_deep};
use py_tree::CmpOp;
use py_values::OutOfMemory;
use py_values::end::{Effect, OpEnd, finish};
use py_values::heap::Heap;
use py_values::value::Value;
use std::alloc::Global;

/// The text of an operator.
pub fn compare_text(op: CmpOp) -> &'static str
    ensures { result.now ≡ compare.compare_text op }
{
    match op {
        CmpOp::Equal => "==",
        CmpOp::NotEqual => "!=",
        CmpOp::Less => "<",
        CmpOp::LessEqual => "<=",
        CmpOp::Greater => ">",
        CmpOp::GreaterEqual => ">=",
        CmpOp::In => "in",
        CmpOp::NotIn => "not in",
        CmpOp::Is => "is",
        CmpOp::IsNot => "is not",
    }
}

/// For which places an order holds.
#[derive(Clone, Copy)]
pub struct Places {
    pub less: bool,
    pub same: bool,
    pub more: bool,
}

const LESS: Places = Places {
    less: true,
    same: false,
    more: false,
};

const AT_MOST: Places = Places {
    less: true,
    same: true,
    more: false,
};

const MORE: Places = Places {
    less: false,
    same: false,
    more: true,
};

const AT_LEAST: Places = Places {
    less: false,
    same: true,
    more: true,
};

/// What is made of the place that was told.
fn place_made(
    alloc: Global,
    heap: &Heap,
    op: &str,
    a: Value,
    b: Value,
    holds: Places,
    told: Comparison,
) -> Result<Option<Effect>, OutOfMemory>
    ensures { IfOk result (λ m. m ≡ compare.placed_told (faults.not_supported op.now (kinds.kind_name heap.now a) (kinds.kind_name heap.now b)) holds told) }
{
    match told {
        Comparison::Less(cost) => Ok(Some(Effect::Give(Value::Bool(holds.less), cost))),
        Comparison::Same(cost) => Ok(Some(Effect::Give(Value::Bool(holds.same), cost))),
        Comparison::More(cost) => Ok(Some(Effect::Give(Value::Bool(holds.more), cost))),
        Comparison::TooDeep(cost) => {
            let raise = too_deep(alloc)?;
            Ok(Some(Effect::Fail(raise, cost)))
        }
        Comparison::NotOrdered(cost) => {
            let raise = not_supported(alloc, heap, op, a, b)?;
            Ok(Some(Effect::Fail(raise, cost)))
        }
        Comparison::Exhausted => Ok(None),
    }
}

#[tactic(auto, using(crate::proofs::Judging::placed_within))]
fn order_made(
    alloc: Global,
    heap: &Heap,
    op: &str,
    holds: Places,
    a: Value,
    b: Value,
    budget: u64,
) -> Result<Option<Effect>, OutOfMemory>
    ensures { IfOk result (λ m. m ≡ payable budget (compare.ordered_by (faults.not_supported op.now (kinds.kind_name heap.now a) (kinds.kind_name heap.now b)) holds (order_of heap.now a b))) }
{
    let told = order(heap, a, b, budget);
    place_made(alloc, heap, op, a, b, holds, told)
}

#[tactic(auto, using(crate::proofs::Judging::judged_within))]
fn equal_made(
    alloc: Global,
    heap: &Heap,
    wanted: bool,
    a: Value,
    b: Value,
    budget: u64,
) -> Result<Option<Effect>, OutOfMemory>
    ensures { IfOk result (λ m. m ≡ payable budget (compare.judged_found wanted (equal_of heap.now a b))) }
{
    let told = equal(heap, a, b, budget);
    judge(alloc, wanted, told)
}

/// What a comparison makes, under a budget.
#[tactic(auto, unfolding(crate::specs::Compare::compare_of))]
pub fn compare_made(
    alloc: Global,
    heap: &Heap,
    op: CmpOp,
    a: Value,
    b: Value,
    budget: u64,
) -> Result<Option<Effect>, OutOfMemory>
    ensures { IfOk result (λ m. m ≡ payable budget (compare.compare_of op heap.now a b)) }
{
    match op {
        CmpOp::Equal => equal_made(alloc, heap, true, a, b, budget),
        CmpOp::NotEqual => equal_made(alloc, heap, false, a, b, budget),
        CmpOp::Less => order_made(alloc, heap, "<", LESS, a, b, budget),
        CmpOp::LessEqual => order_made(alloc, heap, "<=", AT_MOST, a, b, budget),
        CmpOp::Greater => order_made(alloc, heap, ">", MORE, a, b, budget),
        CmpOp::GreaterEqual => order_made(alloc, heap, ">=", AT_LEAST, a, b, budget),
        CmpOp::In => contains(alloc, heap, "in", true, a, b, budget),
        CmpOp::NotIn => contains(alloc, heap, "not in", false, a, b, budget),
        CmpOp::Is => Ok(Some(Effect::Give(Value::Bool(is_same(heap, a, b)), 0))),
        CmpOp::IsNot => Ok(Some(Effect::Give(Value::Bool(!is_same(heap, a, b)), 0))),
    }
}

/// A comparison (Language Reference, comparisons), within a budget of steps.
#[tactic(auto, using(crate::proofs::Within::within_cost))]
pub fn compare(
    alloc: Global,
    heap: &mut Heap,
    op: CmpOp,
    a: Value,
    b: Value,
    budget: u64,
) -> Result<OpEnd, OutOfMemory>
    ensures end { IfOk result (λ e. (e, heap.new) ≡ finished heap.old (payable budget (compare.compare_of op heap.old a b))) }
    ensures cost { IfOk result (λ e. steps_of e ≤ budget) }
{
    let made = compare_made(alloc, heap, op, a, b, budget)?;
    finish(heap, made)
}
