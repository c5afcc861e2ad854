// Calls that make sequences and dicts, or ask all elements.

ghost use Rattle.std.specs.Prelude.{◌≡◌, IfOk};
ghost use Rattle.call_products.specs.Products.{product_within as within_steps, wrong as wrong_call};
ghost use Rattle.sequence_calls.specs.Calls as calls;

use crate::ranges::{span_given, span_made};
use crate::sequences::{enumerate_made, list_made, reversed_made, tuple_of_value, zip_values};
use crate::truths::decided_of;
use call_products::arguments::{has_none, pair, sole};
use call_products::elements::elements_of;
use call_products::product::{Product, plain, product_within, wrong};
use dict_methods::copies::copy_made;
use dict_methods::dict::dict_in;
use py_values::builtin::SequenceCall;
use py_values::dict::Dict;
use py_values::end::Effect;
use py_values::heap::Heap;
use py_values::object::Obj;
use py_values::value::Value;
use py_values::{OutOfMemory, PyText};
use sorting::calls::{reversing, sorted_value};
use std::alloc::Global;

/// What a call with wrong arguments makes, under a budget.
fn wrong_within(alloc: Global, name: &str, budget: u64) -> Result<Option<Product>, OutOfMemory>
    ensures { IfOk result (λ p. p ≡ within_steps budget (wrong_call name.now 0)) }
{
    Ok(product_within(wrong(alloc, name, 0)?, budget))
}

/// A call of `dict`, under a budget: an empty one, or a copy.
fn dict_call(
    alloc: Global,
    heap: &Heap,
    args: &[Value],
    named: &[(PyText, Value)],
    budget: u64,
) -> Result<Option<Product>, OutOfMemory>
    ensures { IfOk result (λ p. p ≡ within_steps budget (calls.sequence_call_of SequenceCall.Dict heap.now args.now named.now)) }
{
    if has_none(args, named) {
        let made = Effect::New(Obj::Dict(Dict::new(alloc)), 0);
        return Ok(product_within(plain(alloc, made), budget));
    }
    match dict_in(heap, sole(args, named)) {
        Some(other) => Ok(product_within(copy_made(alloc, other, 0)?, budget)),
        None => wrong_within(alloc, "dict", budget),
    }
}

/// A call of `enumerate`, under a budget.
fn enumerate_call(
    alloc: Global,
    heap: &Heap,
    args: &[Value],
    named: &[(PyText, Value)],
    budget: u64,
) -> Result<Option<Product>, OutOfMemory>
    ensures { IfOk result (λ p. p ≡ within_steps budget (calls.sequence_call_of SequenceCall.Enumerate heap.now args.now named.now)) }
{
    match sole(args, named) {
        Some(v) => {
            let gathered = elements_of(alloc, heap, heap.len(), v)?;
            let product = enumerate_made(alloc, heap, gathered)?;
            Ok(product_within(product, budget))
        }
        None => wrong_within(alloc, "enumerate", budget),
    }
}

/// A call of `reversed`, under a budget.
fn reversed_call(
    alloc: Global,
    heap: &Heap,
    args: &[Value],
    named: &[(PyText, Value)],
    budget: u64,
) -> Result<Option<Product>, OutOfMemory>
    ensures { IfOk result (λ p. p ≡ within_steps budget (calls.sequence_call_of SequenceCall.Reversed heap.now args.now named.now)) }
{
    match sole(args, named) {
        Some(v) => {
            let gathered = elements_of(alloc, heap, heap.len(), v)?;
            let product = reversed_made(alloc, gathered)?;
            Ok(product_within(product, budget))
        }
        None => wrong_within(alloc, "reversed", budget),
    }
}

/// A call that makes a sequence or a dict, or asks all elements, under a budget (Python library reference, built-in functions).
pub fn sequence_call(
    alloc: Global,
    heap: &Heap,
    which: SequenceCall,
    args: &[Value],
    named: &[(PyText, Value)],
    budget: u64,
) -> Result<Option<Product>, OutOfMemory>
    ensures { IfOk result (λ p. p ≡ within_steps budget (calls.sequence_call_of which heap.now args.now named.now)) }
{
    match which {
        SequenceCall::All => {
            let product = decided_of(alloc, heap, true, "all", sole(args, named))?;
            Ok(product_within(product, budget))
        }
        SequenceCall::Any => {
            let product = decided_of(alloc, heap, false, "any", sole(args, named))?;
            Ok(product_within(product, budget))
        }
        SequenceCall::Dict => dict_call(alloc, heap, args, named, budget),
        SequenceCall::Enumerate => enumerate_call(alloc, heap, args, named, budget),
        SequenceCall::List => match sole(args, named) {
            Some(v) => {
                let gathered = elements_of(alloc, heap, heap.len(), v)?;
                Ok(product_within(list_made(alloc, gathered), budget))
            }
            None => wrong_within(alloc, "list", budget),
        },
        SequenceCall::Range => match span_given(args, named) {
            Some(span) => Ok(product_within(span_made(alloc, span)?, budget)),
            None => wrong_within(alloc, "range", budget),
        },
        SequenceCall::Reversed => reversed_call(alloc, heap, args, named, budget),
        SequenceCall::Sorted => match (args, reversing(heap, named)) {
            ([v], Some(reverse)) => sorted_value(alloc, heap, reverse, *v, budget),
            _ => wrong_within(alloc, "sorted", budget),
        },
        SequenceCall::Tuple => match sole(args, named) {
            Some(v) => Ok(product_within(tuple_of_value(alloc, heap, v)?, budget)),
            None => wrong_within(alloc, "tuple", budget),
        },
        SequenceCall::Zip => match pair(args, named) {
            Some((x, y)) => Ok(product_within(zip_values(alloc, heap, x, y)?, budget)),
            None => wrong_within(alloc, "zip", budget),
        },
    }
}
