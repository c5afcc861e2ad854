// Calls of the methods of tuples.

ghost use Rattle.std.specs.Prelude.{◌≡◌, IfOk};
ghost use Rattle.sorting.specs.call_products.Products.{product_within};
ghost use Rattle.list_methods.specs.Lists as lists;

use crate::list::{count, index, wrong_within};
use call_products::arguments::sole;
use call_products::product::Product;
use py_kinds::builtins::tuple_method_name;
use py_values::builtin::TupleMethod;
use py_values::heap::Heap;
use py_values::object::Obj;
use py_values::value::{ObjId, Value};
use py_values::{OutOfMemory, PyText};
use std::alloc::Global;

fn tuple_called(
    alloc: Global,
    heap: &Heap,
    which: TupleMethod,
    items: &[Value],
    arg: Option<Value>,
    budget: u64,
) -> Result<Option<Product>, OutOfMemory>
    ensures { IfOk result (λ p. p ≡ product_within budget (lists.tuple_called heap.now which items.now arg)) }
{
    match which {
        TupleMethod::Count => count(alloc, heap, items, arg, budget),
        TupleMethod::Index => index(alloc, heap, items, arg, budget),
    }
}

/// A call of a method that was read through a tuple, under a budget (Python library reference, common sequence operations).
#[tactic(auto, unfolding(crate::specs::Lists::tuple_method_of))]
pub fn tuple_method(
    alloc: Global,
    heap: &Heap,
    which: TupleMethod,
    id: ObjId,
    args: &[Value],
    named: &[(PyText, Value)],
    budget: u64,
) -> Result<Option<Product>, OutOfMemory>
    ensures { IfOk result (λ p. p ≡ product_within budget (lists.tuple_method_of heap.now which id args.now named.now)) }
{
    match heap.get(id) {
        Some(Obj::Tuple(items)) => {
            tuple_called(alloc, heap, which, items.items(), sole(args, named), budget)
        }
        _ => wrong_within(alloc, tuple_method_name(which), 0, budget),
    }
}
