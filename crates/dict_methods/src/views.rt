// Lists of a dict's keys, values and pairs.

ghost use Rattle.std.specs.Prelude.{◌≡◌, ◌++◌, IfOk, OnOk, length, option_copied};
ghost use Rattle.dict_methods.specs.Views as views;

use crate::copies::steps_sum;
use call_products::elements::keys_of;
use call_products::product::{Product, plain, refs};
use py_values::OutOfMemory;
use py_values::dict::{Dict, Pair};
use py_values::end::Effect;
use py_values::heap::Heap;
use py_values::object::Obj;
use py_values::rows::Values;
use py_values::value::Value;
use seq::Seq;
use std::alloc::Global;

fn list_made(alloc: Global, items: Vec<Value>, len: u64) -> Result<Product, OutOfMemory>
    ensures { IfOk result (λ p. p ≡ views.list_made items.items len) }
{
    let steps = steps_sum(len, items.len() as u64)?;
    Ok(plain(
        alloc,
        Effect::New(Obj::List(Values::from_vec(items)), steps),
    ))
}

/// A list of the keys.
pub fn keys(alloc: Global, dict: &Dict) -> Result<Product, OutOfMemory>
    ensures { IfOk result (λ p. p ≡ views.keys_made dict.now) }
{
    let items = keys_of(alloc, dict)?;
    list_made(alloc, items, dict.len() as u64)
}

fn push_value(items: &mut Vec<Value>, pair: Option<&Pair>) -> Result<(), OutOfMemory>
    ensures { OnOk result (items.new.items ≡ items.old.items ++ views.value_in (option_copied pair.entry)) }
{
    if let Some(pair) = pair {
        items.push(pair.value)?;
    }
    Ok(())
}

fn values_of(alloc: Global, dict: &Dict) -> Result<Vec<Value>, OutOfMemory>
    ensures { IfOk result (λ v. v.items ≡ views.values_of dict.now) }
{
    let mut items = Vec::new(alloc);
    for at in 0..dict.len() {
        push_value(&mut items, dict.pair(at))?;
    }
    Ok(items)
}

/// A list of the values.
pub fn values(alloc: Global, dict: &Dict) -> Result<Product, OutOfMemory>
    ensures { IfOk result (λ p. p ≡ views.values_made dict.now) }
{
    let items = values_of(alloc, dict)?;
    list_made(alloc, items, dict.len() as u64)
}

fn pair_object(alloc: Global, pair: Pair) -> Result<Obj, OutOfMemory>
    ensures { IfOk result (λ o. o ≡ views.pair_object pair) }
{
    let mut items = Vec::new(alloc);
    items.push(pair.key)?;
    items.push(pair.value)?;
    Ok(Obj::Tuple(Values::from_vec(items)))
}

fn push_pair(alloc: Global, objects: &mut Vec<Obj>, pair: Option<&Pair>) -> Result<(), OutOfMemory>
    ensures { OnOk result (objects.new.items ≡ objects.old.items ++ views.object_in (option_copied pair.entry)) }
{
    if let Some(pair) = pair {
        objects.push(pair_object(alloc, *pair)?)?;
    }
    Ok(())
}

fn pair_objects(alloc: Global, dict: &Dict) -> Result<Vec<Obj>, OutOfMemory>
    ensures { IfOk result (λ v. v.items ≡ views.pair_objects dict.now) }
{
    let mut objects = Vec::new(alloc);
    for at in 0..dict.len() {
        push_pair(alloc, &mut objects, dict.pair(at))?;
    }
    Ok(objects)
}

/// A list of a tuple for each pair.
pub fn items(alloc: Global, heap: &Heap, dict: &Dict) -> Result<Product, OutOfMemory>
    ensures { IfOk result (λ p. p ≡ views.items_made (length heap.now) dict.now) }
{
    let len = dict.len();
    let steps = steps_sum(len as u64, len as u64)?;
    let objects = pair_objects(alloc, dict)?;
    let values = refs(alloc, heap.len(), len)?;
    Ok(Product {
        objects: Seq::from_vec(objects),
        made: Effect::New(Obj::List(Values::from_vec(values)), steps),
    })
}
