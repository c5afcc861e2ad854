// `all` and `any`.

ghost use Rattle.std.specs.Prelude.{◌≡◌, IfOk};
ghost use Rattle.sequence_calls.specs.Truths as truths;

use call_products::arguments::sole;
use call_products::elements::{ElementsResult, elements_of};
use call_products::product::{Product, plain, wrong};
use py_kinds::truth::truth;
use py_values::end::Effect;
use py_values::heap::Heap;
use py_values::value::Value;
use py_values::{OutOfMemory, PyText};
use std::alloc::Global;

fn same_truth(wanted: bool, truth: bool) -> bool
    ensures { result ≡ truths.same_truth wanted truth }
{
    if wanted { truth } else { !truth }
}

/// How many elements there are up to the first whose truth is another than wanted, and with it.
fn until_other(heap: &Heap, wanted: bool, items: &[Value]) -> Option<usize>
    ensures { result ≡ truths.until_other heap.now wanted 0 items.now }
{
    for (i, v) in items.iter().enumerate() {
        if !same_truth(wanted, truth(heap, *v)) {
            return Some(i + 1);
        }
    }
    None
}

/// What is given where all elements have the truth that is wanted, or at the first that hasn't.
fn decided(alloc: Global, wanted: bool, len: usize, other: Option<usize>) -> Product
    ensures { result ≡ truths.decided wanted len other }
{
    match other {
        Some(i) => plain(alloc, Effect::Give(Value::Bool(!wanted), i as u64)),
        None => plain(alloc, Effect::Give(Value::Bool(wanted), len as u64)),
    }
}

fn decided_by(alloc: Global, heap: &Heap, wanted: bool, gathered: ElementsResult) -> Product
    ensures { result ≡ truths.decided_by heap.now wanted gathered }
{
    match gathered {
        ElementsResult::Elements(elements) => {
            let items = elements.values.items();
            decided(alloc, wanted, items.len(), until_other(heap, wanted, items))
        }
        ElementsResult::Refused(raise) => plain(alloc, Effect::Fail(raise, 0)),
    }
}

pub(crate) fn decided_of(
    alloc: Global,
    heap: &Heap,
    wanted: bool,
    name: &str,
    arg: Option<Value>,
) -> Result<Product, OutOfMemory>
    ensures { IfOk result (λ p. p ≡ truths.decided_of heap.now wanted name.now arg) }
{
    match arg {
        Some(v) => {
            let gathered = elements_of(alloc, heap, heap.len(), v)?;
            Ok(decided_by(alloc, heap, wanted, gathered))
        }
        None => wrong(alloc, name, 0),
    }
}
