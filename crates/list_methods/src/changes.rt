// Changes of lists.

ghost use Rattle.std.specs.Prelude.{◌≡◌, ◌≤◌, ◌++◌, IfOk, length, reverse};
ghost use Rattle.std.specs.List.{insert as inserted};
ghost use Rattle.py_items.specs.Items as items;
ghost use Rattle.list_methods.specs.Lists as lists;

use call_products::elements::{Elements, ElementsResult, elements_of};
use call_products::product::{Product, failed, plain, too_long, wrong};
use py_items::index::{place_of, value_at};
use py_kinds::length::length_of;
use py_values::change::Change;
use py_values::class::ExcClass;
use py_values::end::Effect;
use py_values::heap::Heap;
use py_values::limits::MOST_ELEMENTS;
use py_values::number::number;
use py_values::object::Obj;
use py_values::rows::Values;
use py_values::value::{ObjId, Value};
use py_values::{OutOfMemory, PyText};
use std::alloc::Global;

fn changed_list(alloc: Global, id: ObjId, change: Change, cost: u64) -> Product
    ensures { result ≡ lists.changed_list id change cost }
{
    plain(alloc, Effect::Put(id, change, Value::None, cost))
}

fn other_list(alloc: Global, id: ObjId, items: Vec<Value>, cost: u64) -> Product
    ensures { result ≡ lists.other_list id items.items cost }
{
    let list = Obj::List(Values::from_vec(items));
    changed_list(alloc, id, Change::Whole(list), cost)
}

/// A value more at a list's end.
pub fn append(
    alloc: Global,
    id: ObjId,
    items: &[Value],
    arg: Option<Value>,
) -> Result<Product, OutOfMemory>
    ensures { IfOk result (λ p. p ≡ lists.append_of id items.now arg) }
{
    match arg {
        Some(v) => {
            if items.len() >= MOST_ELEMENTS {
                return too_long(alloc, 0);
            }
            Ok(changed_list(alloc, id, Change::Push(v), 0))
        }
        None => wrong(alloc, "append", 0),
    }
}

/// What `clear` makes: the list becomes empty (Python library reference, mutable sequence types).
pub fn clear(alloc: Global, id: ObjId, alone: bool) -> Result<Product, OutOfMemory>
    ensures { IfOk result (λ p. p ≡ lists.clear_of id alone) }
{
    if !alone {
        return wrong(alloc, "clear", 0);
    }
    Ok(other_list(alloc, id, Vec::new(alloc), 0))
}

/// Elements and others behind them.
fn joined(alloc: Global, items: &[Value], more: &[Value]) -> Result<Vec<Value>, OutOfMemory>
    ensures { IfOk result (λ v. v.items ≡ items.now ++ more.now) }
{
    let mut all = Vec::new(alloc);
    all.extend_from_slice(items)?;
    all.extend_from_slice(more)?;
    Ok(all)
}

/// Whether a list has room for so many elements more.
fn has_room(len: usize, more: usize) -> bool
    ensures { result ≡ lists.has_room len more }
{
    len as u128 + more as u128 <= MOST_ELEMENTS as u128
}

fn extend_by(
    alloc: Global,
    id: ObjId,
    items: &[Value],
    gathered: ElementsResult,
) -> Result<Product, OutOfMemory>
    ensures { IfOk result (λ p. p ≡ lists.extend_by id items.now gathered) }
{
    match gathered {
        ElementsResult::Elements(Elements { objects, values }) => {
            if !has_room(items.len(), values.items().len()) {
                return too_long(alloc, items.len());
            }
            let all = joined(alloc, items, values.items())?;
            let list = Change::Whole(Obj::List(Values::from_vec(all)));
            Ok(Product {
                objects,
                made: Effect::Put(id, list, Value::None, items.len() as u64),
            })
        }
        ElementsResult::Refused(raise) => Ok(plain(alloc, Effect::Fail(raise, items.len() as u64))),
    }
}

/// The elements of a value behind a list's.
pub fn extend(
    alloc: Global,
    heap: &Heap,
    id: ObjId,
    items: &[Value],
    arg: Option<Value>,
) -> Result<Product, OutOfMemory>
    ensures { IfOk result (λ p. p ≡ lists.extend_of heap.now id items.now arg) }
{
    match arg {
        Some(v) => {
            let gathered = elements_of(alloc, heap, heap.len(), v)?;
            extend_by(alloc, id, items, gathered)
        }
        None => wrong(alloc, "extend", items.len() as u64),
    }
}

/// The place before which a number inserts.
fn edge(len: usize, n: i128) -> usize
    ensures value { result ≡ items.edge len n }
    ensures within { result ≤ len }
{
    if n >= 0 {
        return if n < len as i128 { n as usize } else { len };
    }
    let at = n + len as i128;
    if at > 0 { at as usize } else { 0 }
}

fn with_inserted(
    alloc: Global,
    items: &[Value],
    at: usize,
    v: Value,
) -> Result<Vec<Value>, OutOfMemory>
    requires { at ≤ length items.now }
    ensures { IfOk result (λ w. w.items ≡ inserted items.now at v) }
{
    let mut all = Vec::new(alloc);
    all.extend_from_slice(items)?;
    all.insert(at, v)?;
    Ok(all)
}

fn insert_at(
    alloc: Global,
    id: ObjId,
    items: &[Value],
    n: Option<i128>,
    v: Value,
) -> Result<Product, OutOfMemory>
    ensures { IfOk result (λ p. p ≡ lists.insert_at id items.now n v) }
{
    let Some(n) = n else {
        return wrong(alloc, "insert", items.len() as u64);
    };
    if items.len() >= MOST_ELEMENTS {
        return too_long(alloc, items.len());
    }
    let all = with_inserted(alloc, items, edge(items.len(), n), v)?;
    Ok(other_list(alloc, id, all, items.len() as u64))
}

/// A value more before a place of a list.
pub fn insert(
    alloc: Global,
    id: ObjId,
    items: &[Value],
    args: Option<(Value, Value)>,
) -> Result<Product, OutOfMemory>
    ensures { IfOk result (λ p. p ≡ lists.insert_of id items.now args) }
{
    match args {
        Some((n, v)) => insert_at(alloc, id, items, number(n), v),
        None => wrong(alloc, "insert", items.len() as u64),
    }
}

fn backwards(alloc: Global, items: &[Value]) -> Result<Vec<Value>, OutOfMemory>
    ensures { IfOk result (λ v. v.items ≡ reverse items.now) }
{
    let values = items.iter().rev().copied().collect(alloc)?;
    Ok(values)
}

/// What `reverse` makes: the list's values in turned order (Python library reference, mutable sequence types).
pub fn reverse(
    alloc: Global,
    id: ObjId,
    items: &[Value],
    alone: bool,
) -> Result<Product, OutOfMemory>
    ensures { IfOk result (λ p. p ≡ lists.reverse_of id items.now alone) }
{
    if !alone {
        return wrong(alloc, "reverse", items.len() as u64);
    }
    let all = backwards(alloc, items)?;
    Ok(other_list(alloc, id, all, items.len() as u64))
}

/// The steps of what is popped. No memory holds both where the sum is no number.
fn pop_cost(heap: &Heap, len: usize, at: usize, v: Value) -> Result<u64, OutOfMemory>
    ensures { IfOk result (λ n. n ≡ lists.pop_cost heap.now len at v) }
{
    if at.checked_add(1) == Some(len) {
        return Ok(0);
    }
    match len.checked_add(length_of(heap, v).unwrap_or(0)) {
        Some(steps) => Ok(steps as u64),
        None => Err(OutOfMemory),
    }
}

fn outside(alloc: Global, len: usize) -> Result<Product, OutOfMemory>
    ensures { IfOk result (λ p. p ≡ lists.outside len) }
{
    failed(
        alloc,
        ExcClass::IndexError,
        "index out of range",
        len as u64,
    )
}

fn popped(
    alloc: Global,
    heap: &Heap,
    id: ObjId,
    items: &[Value],
    at: usize,
) -> Result<Product, OutOfMemory>
    ensures { IfOk result (λ p. p ≡ lists.popped heap.now id items.now at) }
{
    match value_at(items, at) {
        Some(v) => {
            let steps = pop_cost(heap, items.len(), at, v)?;
            Ok(plain(alloc, Effect::Put(id, Change::WithoutItem(at), v, steps)))
        }
        None => outside(alloc, items.len()),
    }
}

fn pop_at(
    alloc: Global,
    heap: &Heap,
    id: ObjId,
    items: &[Value],
    n: Option<i128>,
) -> Result<Product, OutOfMemory>
    ensures { IfOk result (λ p. p ≡ lists.pop_at heap.now id items.now n) }
{
    let Some(n) = n else {
        return wrong(alloc, "pop", items.len() as u64);
    };
    match place_of(items.len(), n) {
        Some(at) => popped(alloc, heap, id, items, at),
        None => outside(alloc, items.len()),
    }
}

/// The number that names what is popped: the last without one.
fn pop_index(args: &[Value], named: &[(PyText, Value)]) -> Option<i128>
    ensures { result ≡ lists.pop_index args.now named.now }
{
    match (args, named) {
        ([], []) => Some(-1),
        ([v], []) => number(*v),
        _ => None,
    }
}

/// A list without the element that is given.
pub fn pop(
    alloc: Global,
    heap: &Heap,
    id: ObjId,
    items: &[Value],
    args: &[Value],
    named: &[(PyText, Value)],
) -> Result<Product, OutOfMemory>
    ensures { IfOk result (λ p. p ≡ lists.pop_of heap.now id items.now args.now named.now) }
{
    pop_at(alloc, heap, id, items, pop_index(args, named))
}

/// A list without the element at a place.
pub fn without(alloc: Global, id: ObjId, at: usize, cost: u64) -> Product
    ensures { result ≡ lists.changed_list id (Change.WithoutItem at) cost }
{
    changed_list(alloc, id, Change::WithoutItem(at), cost)
}
