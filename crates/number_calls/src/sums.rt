// `sum`.

ghost use Rattle.std.specs.Prelude.{◌≡◌, ◌+ℤ◌, IfOk, pos};
ghost use Rattle.text_methods.specs.py_operands.Numbers.{fitting};
ghost use Rattle.py_values.specs.Numbers.{int_value};
ghost use Rattle.number_calls.specs.Sums as sums;

use call_products::arguments::sole;
use call_products::elements::{Elements, ElementsResult, elements_of};
use call_products::product::{Product, failed, plain, wrong};
use py_kinds::kinds::kind_name;
use py_operands::faults::kinds_error;
use py_operands::numbers::sum as added;
use py_values::class::ExcClass;
use py_values::end::{Effect, Raise};
use py_values::heap::Heap;
use py_values::number::number;
use py_values::value::Value;
use py_values::{OutOfMemory, PyText};
use std::alloc::Global;

/// A sum that can't go on: the kind of what is added isn't a number's, or the number is out of range.
fn no_sum(alloc: Global, kind: &[char]) -> Result<Raise, OutOfMemory>
    ensures { IfOk result (λ r. r ≡ sums.no_sum kind.now) }
{
    kinds_error(
        alloc,
        "unsupported operand type(s) for ",
        "+",
        ": '",
        &['i', 'n', 't'],
        kind,
    )
}

fn no_number(alloc: Global, heap: &Heap, v: Value, cost: u64) -> Result<Product, OutOfMemory>
    ensures { IfOk result (λ p. p ≡ sums.no_number heap.now v cost) }
{
    let kind = kind_name(alloc, heap, v)?;
    let raise = no_sum(alloc, kind.chars())?;
    Ok(plain(alloc, Effect::Fail(raise, cost)))
}

/// A sum with an element more, where both are numbers and their sum has its 128 bits.
#[derive(Clone, Copy, Debug, PartialEq, Eq)]
pub enum Plus {
    Sum(Value),
    NoNumber,
    TooLarge,
}

fn plus_numbers(x: i128, y: i128) -> Plus
    ensures { result ≡ sums.sum_or_large (fitting (x +ℤ y)) }
{
    match added(x, y) {
        Some(z) => Plus::Sum(Value::Int(z)),
        None => Plus::TooLarge,
    }
}

fn with_element(total: Value, v: Value) -> Plus
    ensures { result ≡ sums.plus_of (int_value total) (int_value v) }
{
    match (number(total), number(v)) {
        (Some(x), Some(y)) => plus_numbers(x, y),
        _ => Plus::NoNumber,
    }
}

fn too_large(alloc: Global, cost: u64) -> Result<Product, OutOfMemory>
    ensures { IfOk result (λ p. p ≡ sums.too_large cost) }
{
    failed(
        alloc,
        ExcClass::OverflowError,
        "whole number out of range",
        cost,
    )
}

/// The sum of elements.
fn sum_all(alloc: Global, heap: &Heap, items: &[Value]) -> Result<Product, OutOfMemory>
    ensures { IfOk result (λ p. p ≡ sums.sum_from heap.now (Value.Int (pos 0)) 0 items.now) }
{
    let mut total = Value::Int(0);
    for (i, v) in items.iter().enumerate() {
        match with_element(total, *v) {
            Plus::Sum(next) => total = next,
            Plus::NoNumber => {
                let product = no_number(alloc, heap, *v, i as u64 + 1)?;
                return Ok(product);
            }
            Plus::TooLarge => {
                let product = too_large(alloc, i as u64 + 1)?;
                return Ok(product);
            }
        }
    }
    Ok(plain(alloc, Effect::Give(total, items.len() as u64)))
}

fn sum_made(alloc: Global, heap: &Heap, elements: Elements) -> Result<Product, OutOfMemory>
    ensures { IfOk result (λ p. p ≡ sums.sum_made heap.now elements) }
{
    if elements.objects.items().is_empty() {
        return sum_all(alloc, heap, elements.values.items());
    }
    let raise = no_sum(alloc, &['s', 't', 'r'])?;
    Ok(plain(alloc, Effect::Fail(raise, 1)))
}

/// The sum of what was gathered.
pub(crate) fn sum_gathered(
    alloc: Global,
    heap: &Heap,
    gathered: ElementsResult,
) -> Result<Product, OutOfMemory>
    ensures { IfOk result (λ p. p ≡ sums.sum_gathered heap.now gathered) }
{
    match gathered {
        ElementsResult::Elements(elements) => sum_made(alloc, heap, elements),
        ElementsResult::Refused(raise) => Ok(plain(alloc, Effect::Fail(raise, 0))),
    }
}
