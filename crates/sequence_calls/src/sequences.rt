// Lists and tuples of elements.

ghost use Rattle.std.specs.Prelude.{◌≡◌, ◌++◌, ◌+◌, IfOk, OnOk, length, reverse};
ghost use Rattle.sequence_calls.specs.Sequences as sequences;

use call_products::arguments::{pair, sole};
use call_products::elements::{Elements, ElementsResult, elements_of};
use call_products::product::{Product, plain, refs, wrong};
use py_values::end::{Effect, Raise};
use py_values::heap::Heap;
use py_values::object::Obj;
use py_values::rows::Values;
use py_values::value::Value;
use py_values::{OutOfMemory, PyText};
use seq::Seq;
use std::alloc::Global;

fn refused(alloc: Global, raise: Raise) -> Product
    ensures { result ≡ sequences.refused raise }
{
    plain(alloc, Effect::Fail(raise, 0))
}

/// A list of elements.
pub(crate) fn list_made(alloc: Global, gathered: ElementsResult) -> Product
    ensures { result ≡ sequences.list_made gathered }
{
    match gathered {
        ElementsResult::Elements(Elements { objects, values }) => {
            let cost = values.items().len() as u64;
            Product {
                objects,
                made: Effect::New(Obj::List(values), cost),
            }
        }
        ElementsResult::Refused(raise) => refused(alloc, raise),
    }
}

/// The elements of a value where it is a tuple.
fn tuple_length(heap: &Heap, v: Value) -> Option<usize>
    ensures { result ≡ sequences.tuple_length heap.now v }
{
    let Value::Ref(id) = v else {
        return None;
    };
    match heap.get(id) {
        Some(Obj::Tuple(items)) => Some(items.items().len()),
        _ => None,
    }
}

/// A tuple of elements.
fn tuple_made(alloc: Global, gathered: ElementsResult) -> Product
    ensures { result ≡ sequences.tuple_made gathered }
{
    match gathered {
        ElementsResult::Elements(Elements { objects, values }) => {
            let cost = values.items().len() as u64;
            Product {
                objects,
                made: Effect::New(Obj::Tuple(values), cost),
            }
        }
        ElementsResult::Refused(raise) => refused(alloc, raise),
    }
}

pub(crate) fn tuple_of_value(alloc: Global, heap: &Heap, v: Value) -> Result<Product, OutOfMemory>
    ensures { IfOk result (λ p. p ≡ sequences.tuple_of_value heap.now v) }
{
    match tuple_length(heap, v) {
        Some(len) => Ok(plain(alloc, Effect::Give(v, len as u64))),
        None => {
            let gathered = elements_of(alloc, heap, heap.len(), v)?;
            Ok(tuple_made(alloc, gathered))
        }
    }
}

fn reversed_items(alloc: Global, items: &[Value]) -> Result<Vec<Value>, OutOfMemory>
    ensures { IfOk result (λ v. v.items ≡ reverse items.now) }
{
    let values = items.iter().rev().copied().collect(alloc)?;
    Ok(values)
}

pub(crate) fn reversed_made(alloc: Global, gathered: ElementsResult) -> Result<Product, OutOfMemory>
    ensures { IfOk result (λ p. p ≡ sequences.reversed_made gathered) }
{
    match gathered {
        ElementsResult::Elements(Elements { objects, values }) => {
            let cost = values.items().len() as u64;
            let items = reversed_items(alloc, values.items())?;
            Ok(Product {
                objects,
                made: Effect::New(Obj::List(Values::from_vec(items)), cost),
            })
        }
        ElementsResult::Refused(raise) => Ok(refused(alloc, raise)),
    }
}

fn tuple_pair(alloc: Global, a: Value, b: Value) -> Result<Obj, OutOfMemory>
    ensures { IfOk result (λ o. o ≡ sequences.tuple_pair a b) }
{
    let mut items = Vec::new(alloc);
    items.push(a)?;
    items.push(b)?;
    Ok(Obj::Tuple(Values::from_vec(items)))
}

/// A place as a value.
fn place_number(at: usize) -> Value
    ensures { result ≡ sequences.place_number at }
{
    Value::Int(at as i128)
}

/// Puts a tuple for each element, its place before it.
fn number_all(alloc: Global, objects: &mut Vec<Obj>, items: &[Value]) -> Result<(), OutOfMemory>
    ensures { OnOk result (objects.new.items ≡ objects.old.items ++ sequences.numbered 0 items.now) }
{
    for (i, v) in items.iter().enumerate() {
        objects.push(tuple_pair(alloc, place_number(i), *v)?)?;
    }
    Ok(())
}

/// Puts a tuple for each pair of elements, as far as both go.
fn pair_all(
    alloc: Global,
    objects: &mut Vec<Obj>,
    xs: &[Value],
    ys: &[Value],
) -> Result<(), OutOfMemory>
    ensures { OnOk result (objects.new.items ≡ objects.old.items ++ sequences.paired xs.now ys.now) }
{
    for (i, v) in xs.iter().enumerate() {
        if i >= ys.len() {
            return Ok(());
        }
        objects.push(tuple_pair(alloc, *v, ys[i])?)?;
    }
    Ok(())
}

/// A list of the objects from a place on.
fn list_from(
    alloc: Global,
    heap: &Heap,
    objects: Vec<Obj>,
    from: usize,
) -> Result<Product, OutOfMemory>
    ensures { IfOk result (λ p. p ≡ sequences.list_from (length heap.now) objects.items from) }
{
    let count = objects.len().saturating_sub(from);
    let first = place_behind(heap.len(), from)?;
    let values = refs(alloc, first, count)?;
    Ok(Product {
        objects: Seq::from_vec(objects),
        made: Effect::New(Obj::List(Values::from_vec(values)), count as u64),
    })
}

/// A place so far behind another. No heap has more places than numbers.
fn place_behind(place: usize, far: usize) -> Result<usize, OutOfMemory>
    ensures { IfOk result (λ n. n ≡ place + far) }
{
    match place.checked_add(far) {
        Some(at) => Ok(at),
        None => Err(OutOfMemory),
    }
}

pub(crate) fn enumerate_made(
    alloc: Global,
    heap: &Heap,
    gathered: ElementsResult,
) -> Result<Product, OutOfMemory>
    ensures { IfOk result (λ p. p ≡ sequences.enumerate_made (length heap.now) gathered) }
{
    match gathered {
        ElementsResult::Elements(Elements { objects, values }) => {
            let mut objects = objects.into_vec();
            let from = objects.len();
            number_all(alloc, &mut objects, values.items())?;
            list_from(alloc, heap, objects, from)
        }
        ElementsResult::Refused(raise) => Ok(refused(alloc, raise)),
    }
}

fn append_all(objects: &mut Vec<Obj>, more: Vec<Obj>) -> Result<(), OutOfMemory>
    ensures { OnOk result (objects.new.items ≡ objects.old.items ++ more.items) }
{
    for object in more {
        objects.push(object)?;
    }
    Ok(())
}

fn zip_with(
    alloc: Global,
    heap: &Heap,
    xs: Elements,
    gathered: ElementsResult,
) -> Result<Product, OutOfMemory>
    ensures { IfOk result (λ p. p ≡ sequences.zip_with (length heap.now) xs gathered) }
{
    match gathered {
        ElementsResult::Elements(ys) => {
            let mut objects = xs.objects.into_vec();
            append_all(&mut objects, ys.objects.into_vec())?;
            let from = objects.len();
            pair_all(alloc, &mut objects, xs.values.items(), ys.values.items())?;
            list_from(alloc, heap, objects, from)
        }
        ElementsResult::Refused(raise) => Ok(refused(alloc, raise)),
    }
}

pub(crate) fn zip_values(
    alloc: Global,
    heap: &Heap,
    x: Value,
    y: Value,
) -> Result<Product, OutOfMemory>
    ensures { IfOk result (λ p. p ≡ sequences.zip_values heap.now x y) }
{
    match elements_of(alloc, heap, heap.len(), x)? {
        ElementsResult::Elements(xs) => {
            let from = place_behind(heap.len(), xs.objects.items().len())?;
            let gathered = elements_of(alloc, heap, from, y)?;
            zip_with(alloc, heap, xs, gathered)
        }
        ElementsResult::Refused(raise) => Ok(refused(alloc, raise)),
    }
}
