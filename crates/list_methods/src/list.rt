// Calls of the methods of lists.

ghost use Rattle.std.specs.Prelude.{◌≡◌, ◌+◌, IfOk};
ghost use Rattle.sorting.specs.call_products.Products as products;
ghost use Rattle.sorting.specs.call_products.Products.{product_within};
ghost use Rattle.list_methods.specs.Lists as lists;

use crate::changes::{append, clear, extend, insert, pop, reverse, without};
use crate::search::{Search, Tally, count_equal, find_equal};
use call_products::arguments::{has_none, pair, sole};
use call_products::product::{Product, failed, plain, product_within, wrong};
use py_kinds::builtins::list_method_name;
use py_operands::faults::too_deep;
use py_values::builtin::ListMethod;
use py_values::class::ExcClass;
use py_values::end::Effect;
use py_values::heap::Heap;
use py_values::object::Obj;
use py_values::rows::Values;
use py_values::value::{ObjId, Value};
use py_values::{OutOfMemory, PyText};
use sorting::calls::sort;
use std::alloc::Global;

/// The steps of a list and of a copy of it. No memory holds both where the sum is no number.
fn copy_steps(len: usize) -> Result<u64, OutOfMemory>
    ensures { IfOk result (λ n. n ≡ len + len) }
{
    match len.checked_add(len) {
        Some(steps) => Ok(steps as u64),
        None => Err(OutOfMemory),
    }
}

fn copy(alloc: Global, items: &[Value], alone: bool) -> Result<Product, OutOfMemory>
    ensures { IfOk result (λ p. p ≡ lists.copy_of items.now alone) }
{
    if !alone {
        return wrong(alloc, "copy", items.len() as u64);
    }
    let steps = copy_steps(items.len())?;
    let mut all = Vec::new(alloc);
    all.extend_from_slice(items)?;
    Ok(plain(alloc, Effect::New(Obj::List(Values::from_vec(all)), steps)))
}

fn too_deep_at(alloc: Global, cost: u64) -> Result<Product, OutOfMemory>
    ensures { IfOk result (λ p. p ≡ lists.too_deep_at cost) }
{
    let raise = too_deep(alloc)?;
    Ok(plain(alloc, Effect::Fail(raise, cost)))
}

fn counted_by(alloc: Global, tally: Tally) -> Result<Product, OutOfMemory>
    ensures { IfOk result (λ p. p ≡ lists.counted_by tally) }
{
    match tally {
        Tally::Count(count, cost) => {
            Ok(plain(alloc, Effect::Give(Value::Int(count as i128), cost)))
        }
        Tally::TooDeep(cost) => too_deep_at(alloc, cost),
    }
}

fn counted(alloc: Global, tally: Option<Tally>) -> Result<Option<Product>, OutOfMemory>
    ensures { IfOk result (λ p. p ≡ lists.some_counted tally) }
{
    match tally {
        Some(tally) => {
            let product = counted_by(alloc, tally)?;
            Ok(Some(product))
        }
        None => Ok(None),
    }
}

fn not_found(alloc: Global, cost: u64) -> Result<Product, OutOfMemory>
    ensures { IfOk result (λ p. p ≡ lists.not_found cost) }
{
    failed(alloc, ExcClass::ValueError, "value not found", cost)
}

fn index_by(alloc: Global, search: Search) -> Result<Product, OutOfMemory>
    ensures { IfOk result (λ p. p ≡ lists.index_by search) }
{
    match search {
        Search::At(at, cost) => Ok(plain(alloc, Effect::Give(Value::Int(at as i128), cost))),
        Search::Nowhere(cost) => not_found(alloc, cost),
        Search::TooDeep(cost) => too_deep_at(alloc, cost),
    }
}

fn remove_by(alloc: Global, id: ObjId, search: Search) -> Result<Product, OutOfMemory>
    ensures { IfOk result (λ p. p ≡ lists.remove_by id search) }
{
    match search {
        Search::At(at, cost) => Ok(without(alloc, id, at, cost)),
        Search::Nowhere(cost) => not_found(alloc, cost),
        Search::TooDeep(cost) => too_deep_at(alloc, cost),
    }
}

fn indexed(alloc: Global, search: Option<Search>) -> Result<Option<Product>, OutOfMemory>
    ensures { IfOk result (λ p. p ≡ lists.some_indexed search) }
{
    match search {
        Some(search) => {
            let product = index_by(alloc, search)?;
            Ok(Some(product))
        }
        None => Ok(None),
    }
}

fn removed(alloc: Global, id: ObjId, search: Option<Search>) -> Result<Option<Product>, OutOfMemory>
    ensures { IfOk result (λ p. p ≡ lists.some_removed id search) }
{
    match search {
        Some(search) => {
            let product = remove_by(alloc, id, search)?;
            Ok(Some(product))
        }
        None => Ok(None),
    }
}

/// The error that a call's arguments don't fit it, behind a list's length and under a budget.
pub fn wrong_within(
    alloc: Global,
    name: &str,
    len: usize,
    budget: u64,
) -> Result<Option<Product>, OutOfMemory>
    ensures { IfOk result (λ p. p ≡ product_within budget (products.wrong name.now len)) }
{
    let product = wrong(alloc, name, len as u64)?;
    Ok(product_within(product, budget))
}

/// A call of `count` of a list or a tuple, under a budget.
#[tactic(auto, using(crate::proofs::Within::counted_within))]
pub fn count(
    alloc: Global,
    heap: &Heap,
    items: &[Value],
    arg: Option<Value>,
    budget: u64,
) -> Result<Option<Product>, OutOfMemory>
    ensures { IfOk result (λ p. p ≡ product_within budget (lists.count_values heap.now items.now arg)) }
{
    match arg {
        Some(v) => counted(
            alloc,
            count_equal(heap, v, items, items.len() as u64, budget),
        ),
        None => wrong_within(alloc, "count", items.len(), budget),
    }
}

/// A call of `index` of a list or a tuple, under a budget.
#[tactic(auto, using(crate::proofs::Within::indexed_within))]
pub fn index(
    alloc: Global,
    heap: &Heap,
    items: &[Value],
    arg: Option<Value>,
    budget: u64,
) -> Result<Option<Product>, OutOfMemory>
    ensures { IfOk result (λ p. p ≡ product_within budget (lists.index_values heap.now items.now arg)) }
{
    match arg {
        Some(v) => indexed(
            alloc,
            find_equal(heap, v, items, items.len() as u64, budget),
        ),
        None => wrong_within(alloc, "index", items.len(), budget),
    }
}

#[tactic(auto, using(crate::proofs::Within::removed_within))]
fn remove(
    alloc: Global,
    heap: &Heap,
    id: ObjId,
    items: &[Value],
    arg: Option<Value>,
    budget: u64,
) -> Result<Option<Product>, OutOfMemory>
    ensures { IfOk result (λ p. p ≡ product_within budget (lists.remove_of heap.now id items.now arg)) }
{
    match arg {
        Some(v) => removed(
            alloc,
            id,
            find_equal(heap, v, items, items.len() as u64, budget),
        ),
        None => wrong_within(alloc, "remove", items.len(), budget),
    }
}

/// A call of a method of a list, under a budget.
fn list_called(
    alloc: Global,
    heap: &Heap,
    which: ListMethod,
    id: ObjId,
    items: &[Value],
    args: &[Value],
    named: &[(PyText, Value)],
    budget: u64,
) -> Result<Option<Product>, OutOfMemory>
    ensures { IfOk result (λ p. p ≡ product_within budget (lists.list_called heap.now which id items.now args.now named.now)) }
{
    match which {
        ListMethod::Append => {
            let product = append(alloc, id, items, sole(args, named))?;
            Ok(product_within(product, budget))
        }
        ListMethod::Clear => {
            let product = clear(alloc, id, has_none(args, named))?;
            Ok(product_within(product, budget))
        }
        ListMethod::Copy => {
            let product = copy(alloc, items, has_none(args, named))?;
            Ok(product_within(product, budget))
        }
        ListMethod::Count => count(alloc, heap, items, sole(args, named), budget),
        ListMethod::Extend => {
            let product = extend(alloc, heap, id, items, sole(args, named))?;
            Ok(product_within(product, budget))
        }
        ListMethod::Index => index(alloc, heap, items, sole(args, named), budget),
        ListMethod::Insert => {
            let product = insert(alloc, id, items, pair(args, named))?;
            Ok(product_within(product, budget))
        }
        ListMethod::Pop => {
            let product = pop(alloc, heap, id, items, args, named)?;
            Ok(product_within(product, budget))
        }
        ListMethod::Remove => remove(alloc, heap, id, items, sole(args, named), budget),
        ListMethod::Reverse => {
            let product = reverse(alloc, id, items, has_none(args, named))?;
            Ok(product_within(product, budget))
        }
        ListMethod::Sort => sort(alloc, heap, id, args, named, budget),
    }
}

/// A call of a method that was read through a list, under a budget (Python library reference, mutable sequence types).
#[tactic(auto, unfolding(crate::specs::Lists::list_method_of))]
pub fn list_method(
    alloc: Global,
    heap: &Heap,
    which: ListMethod,
    id: ObjId,
    args: &[Value],
    named: &[(PyText, Value)],
    budget: u64,
) -> Result<Option<Product>, OutOfMemory>
    ensures { IfOk result (λ p. p ≡ product_within budget (lists.list_method_of heap.now which id args.now named.now)) }
{
    match heap.get(id) {
        Some(Obj::List(items)) => {
            list_called(alloc, heap, which, id, items.items(), args, named, budget)
        }
        _ => wrong_within(alloc, list_method_name(which), 0, budget),
    }
}
