// Calls of the methods of dicts, and of `dict`.

ghost use Rattle.std.specs.Prelude.{◌≡◌, IfOk, length, option_copied};
ghost use Rattle.call_products.specs.Products.{product_within as within_steps};
ghost use Rattle.dict_methods.specs.Dicts as dicts;

use crate::copies::{copy_made, update_made};
use crate::keyed::{get, key_args, pop, setdefault, wrong_within};
use crate::views::{items, keys, values};
use call_products::arguments::{has_none, pair, sole};
use call_products::product::{Product, plain, product_within, wrong};
use py_kinds::builtins::dict_method_name;
use py_values::builtin::DictMethod;
use py_values::change::Change;
use py_values::dict::Dict;
use py_values::end::Effect;
use py_values::heap::Heap;
use py_values::object::Obj;
use py_values::value::{ObjId, Value};
use py_values::{OutOfMemory, PyText};
use std::alloc::Global;

fn clear(alloc: Global, id: ObjId, alone: bool) -> Result<Product, OutOfMemory>
    ensures { IfOk result (λ p. p ≡ dicts.dict_clear id alone) }
{
    if !alone {
        return wrong(alloc, "clear", 0);
    }
    let change = Change::Whole(Obj::Dict(Dict::new(alloc)));
    Ok(plain(alloc, Effect::Put(id, change, Value::None, 0)))
}

fn copy_alone(alloc: Global, dict: &Dict, alone: bool) -> Result<Product, OutOfMemory>
    ensures { IfOk result (λ p. p ≡ dicts.copy_alone dict.now alone) }
{
    if !alone {
        return wrong(alloc, "copy", dict.len() as u64);
    }
    copy_made(alloc, dict, dict.len() as u64)
}

fn items_alone(alloc: Global, heap: &Heap, dict: &Dict, alone: bool) -> Result<Product, OutOfMemory>
    ensures { IfOk result (λ p. p ≡ dicts.items_alone (length heap.now) dict.now alone) }
{
    if !alone {
        return wrong(alloc, "items", dict.len() as u64);
    }
    items(alloc, heap, dict)
}

fn keys_alone(alloc: Global, dict: &Dict, alone: bool) -> Result<Product, OutOfMemory>
    ensures { IfOk result (λ p. p ≡ dicts.keys_alone dict.now alone) }
{
    if !alone {
        return wrong(alloc, "keys", dict.len() as u64);
    }
    keys(alloc, dict)
}

fn values_alone(alloc: Global, dict: &Dict, alone: bool) -> Result<Product, OutOfMemory>
    ensures { IfOk result (λ p. p ≡ dicts.values_alone dict.now alone) }
{
    if !alone {
        return wrong(alloc, "values", dict.len() as u64);
    }
    values(alloc, dict)
}

/// The dict that a value is.
pub fn dict_in(heap: &Heap, v: Option<Value>) -> Option<&Dict>
    ensures { option_copied result ≡ dicts.dict_in heap.now v }
{
    let Some(Value::Ref(id)) = v else {
        return None;
    };
    match heap.get(id) {
        Some(Obj::Dict(dict)) => Some(dict),
        _ => None,
    }
}

fn update(
    alloc: Global,
    heap: &Heap,
    id: ObjId,
    dict: &Dict,
    arg: Option<Value>,
) -> Result<Product, OutOfMemory>
    ensures { IfOk result (λ p. p ≡ dicts.update_of heap.now id dict.now arg) }
{
    match dict_in(heap, arg) {
        Some(other) => update_made(alloc, id, dict, other),
        None => wrong(alloc, "update", dict.len() as u64),
    }
}

/// Whether a call has no arguments by name.
fn no_names(named: &[(PyText, Value)]) -> bool
    ensures { result ≡ dicts.no_names named.now }
{
    match named {
        [] => true,
        _ => false,
    }
}

/// A call of a method of a dict, under a budget.
fn dict_called(
    alloc: Global,
    heap: &Heap,
    which: DictMethod,
    id: ObjId,
    dict: &Dict,
    args: &[Value],
    named: &[(PyText, Value)],
    budget: u64,
) -> Result<Option<Product>, OutOfMemory>
    ensures { IfOk result (λ p. p ≡ within_steps budget (dicts.dict_called heap.now which id dict.now args.now named.now)) }
{
    match which {
        DictMethod::Clear => {
            let product = clear(alloc, id, has_none(args, named))?;
            Ok(product_within(product, budget))
        }
        DictMethod::Copy => {
            let product = copy_alone(alloc, dict, has_none(args, named))?;
            Ok(product_within(product, budget))
        }
        DictMethod::Get => get(alloc, heap, dict, key_args(args, no_names(named)), budget),
        DictMethod::Items => {
            let product = items_alone(alloc, heap, dict, has_none(args, named))?;
            Ok(product_within(product, budget))
        }
        DictMethod::Keys => {
            let product = keys_alone(alloc, dict, has_none(args, named))?;
            Ok(product_within(product, budget))
        }
        DictMethod::Pop => {
            let given = key_args(args, no_names(named));
            pop(alloc, heap, id, dict, given, budget)
        }
        DictMethod::SetDefault => setdefault(alloc, heap, id, dict, pair(args, named), budget),
        DictMethod::Update => {
            let product = update(alloc, heap, id, dict, sole(args, named))?;
            Ok(product_within(product, budget))
        }
        DictMethod::Values => {
            let product = values_alone(alloc, dict, has_none(args, named))?;
            Ok(product_within(product, budget))
        }
    }
}

/// A call of a method that was read through a dict, under a budget (Python library reference, mapping types).
#[tactic(auto, unfolding(crate::specs::Dicts::dict_method_of))]
pub fn dict_method(
    alloc: Global,
    heap: &Heap,
    which: DictMethod,
    id: ObjId,
    args: &[Value],
    named: &[(PyText, Value)],
    budget: u64,
) -> Result<Option<Product>, OutOfMemory>
    ensures { IfOk result (λ p. p ≡ within_steps budget (dicts.dict_method_of heap.now which id args.now named.now)) }
{
    match heap.get(id) {
        Some(Obj::Dict(dict)) => dict_called(alloc, heap, which, id, dict, args, named, budget),
        _ => wrong_within(alloc, dict_method_name(which), budget),
    }
}
