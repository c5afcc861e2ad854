// Calls of the methods of built-in kinds, with the value through which they were read before the arguments.

ghost use Rattle.std.specs.Prelude.{◌≡◌, IfOk};
ghost use Rattle.sequence_calls.specs.call_products.Products.{product_within as within_steps};
ghost use Rattle.py_calls.specs.Methods as methods;

use call_products::product::{Product, wrong};
use dict_methods::dict::dict_method;
use list_methods::list::{list_method, wrong_within};
use list_methods::tuple::tuple_method;
use py_kinds::builtins::{dict_method_name, list_method_name, text_method_name, tuple_method_name};
use py_values::builtin::{DictMethod, ListMethod, TextMethod, TupleMethod};
use py_values::heap::Heap;
use py_values::value::Value;
use py_values::{OutOfMemory, PyText};
use std::alloc::Global;
use text_methods::call::text_method;

/// A call of a method of a text.
pub(crate) fn text_call(
    alloc: Global,
    heap: &Heap,
    which: TextMethod,
    args: &[Value],
    named: &[(PyText, Value)],
) -> Result<Product, OutOfMemory>
    ensures { IfOk result (λ p. p ≡ methods.text_call_of which heap.now args.now named.now) }
{
    match args.split_first() {
        Some((v, rest)) => text_method(alloc, heap, which, *v, rest, named),
        None => wrong(alloc, text_method_name(which), 0),
    }
}

/// A call of a method of a list, under a budget.
pub(crate) fn list_call(
    alloc: Global,
    heap: &Heap,
    which: ListMethod,
    args: &[Value],
    named: &[(PyText, Value)],
    budget: u64,
) -> Result<Option<Product>, OutOfMemory>
    ensures { IfOk result (λ p. p ≡ within_steps budget (methods.list_call_of which heap.now args.now named.now)) }
{
    let Some((v, rest)) = args.split_first() else {
        return wrong_within(alloc, list_method_name(which), 0, budget);
    };
    match *v {
        Value::Ref(id) => list_method(alloc, heap, which, id, rest, named, budget),
        Value::None | Value::Bool(_) | Value::Int(_) => {
            wrong_within(alloc, list_method_name(which), 0, budget)
        }
    }
}

/// A call of a method of a tuple, under a budget.
pub(crate) fn tuple_call(
    alloc: Global,
    heap: &Heap,
    which: TupleMethod,
    args: &[Value],
    named: &[(PyText, Value)],
    budget: u64,
) -> Result<Option<Product>, OutOfMemory>
    ensures { IfOk result (λ p. p ≡ within_steps budget (methods.tuple_call_of which heap.now args.now named.now)) }
{
    let Some((v, rest)) = args.split_first() else {
        return wrong_within(alloc, tuple_method_name(which), 0, budget);
    };
    match *v {
        Value::Ref(id) => tuple_method(alloc, heap, which, id, rest, named, budget),
        Value::None | Value::Bool(_) | Value::Int(_) => {
            wrong_within(alloc, tuple_method_name(which), 0, budget)
        }
    }
}

/// A call of a method of a dict, under a budget.
pub(crate) fn dict_call(
    alloc: Global,
    heap: &Heap,
    which: DictMethod,
    args: &[Value],
    named: &[(PyText, Value)],
    budget: u64,
) -> Result<Option<Product>, OutOfMemory>
    ensures { IfOk result (λ p. p ≡ within_steps budget (methods.dict_call_of which heap.now args.now named.now)) }
{
    let Some((v, rest)) = args.split_first() else {
        return wrong_within(alloc, dict_method_name(which), 0, budget);
    };
    match *v {
        Value::Ref(id) => dict_method(alloc, heap, which, id, rest, named, budget),
        Value::None | Value::Bool(_) | Value::Int(_) => {
            wrong_within(alloc, dict_method_name(which), 0, budget)
        }
    }
}
