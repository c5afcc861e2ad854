// The elements of what is iterated over.

ghost use Rattle.std.specs.Prelude.{◌≡◌, ◌++◌, IfOk, OnOk, map, slice_get, option_copied};
ghost use Rattle.call_products.specs.Elements as elements;
ghost use Rattle.py_operands.specs.Numbers.{fitting};
ghost use Rattle.py_operands.specs.Ranges.{nth_of};

use crate::product::{Objs, refs};
use py_operands::faults::not_iterable;
use py_operands::ranges::nth;
use py_values::class::ExcClass;
use py_values::dict::{Dict, Pair};
use py_values::end::Raise;
use py_values::heap::Heap;
use py_values::object::Obj;
use py_values::range::RangeObj;
use py_values::rows::Values;
use py_values::value::{ObjId, Value};
use py_values::{OutOfMemory, PyText};
use seq::Seq;
use std::alloc::Global;

/// The elements of a value: new objects, and the elements themselves.
#[derive(Drop)]
pub struct Elements {
    pub objects: Objs,
    pub values: Values,
}

/// The elements of a value, or the exception that is raised in their place.
#[derive(Drop)]
pub enum ElementsResult {
    Elements(Elements),
    Refused(Raise),
}

/// Elements that are there already.
fn own(alloc: Global, values: Vec<Value>) -> ElementsResult
    ensures { result ≡ elements.own values.items }
{
    ElementsResult::Elements(Elements {
        objects: Seq::from_vec(Vec::new(alloc)),
        values: Values::from_vec(values),
    })
}

/// A text for each character.
pub fn char_texts(alloc: Global, chars: &[char]) -> Result<Vec<Obj>, OutOfMemory>
    ensures { IfOk result (λ v. v.items ≡ map elements.char_text chars.now) }
{
    let mut objects = Vec::new(alloc);
    for c in chars {
        let text = PyText::from_chars(alloc, &[*c])?;
        objects.push(Obj::Text(text))?;
    }
    Ok(objects)
}

fn text_elements(alloc: Global, from: usize, chars: &[char]) -> Result<ElementsResult, OutOfMemory>
    ensures { IfOk result (λ g. g ≡ elements.text_elements from chars.now) }
{
    let objects = char_texts(alloc, chars)?;
    let values = refs(alloc, from, chars.len())?;
    Ok(ElementsResult::Elements(Elements {
        objects: Seq::from_vec(objects),
        values: Values::from_vec(values),
    }))
}

fn row_elements(alloc: Global, items: &[Value]) -> Result<ElementsResult, OutOfMemory>
    ensures { IfOk result (λ g. g ≡ elements.own items.now) }
{
    let mut values = Vec::new(alloc);
    values.extend_from_slice(items)?;
    Ok(own(alloc, values))
}

fn push_key(keys: &mut Vec<Value>, pair: Option<&Pair>) -> Result<(), OutOfMemory>
    ensures { OnOk result (keys.new.items ≡ keys.old.items ++ elements.key_in (option_copied pair.entry)) }
{
    if let Some(pair) = pair {
        keys.push(pair.key)?;
    }
    Ok(())
}

/// The keys of a dict, as they were first stored.
pub fn keys_of(alloc: Global, dict: &Dict) -> Result<Vec<Value>, OutOfMemory>
    ensures { IfOk result (λ v. v.items ≡ elements.keys_of dict.now) }
{
    let mut keys = Vec::new(alloc);
    for at in 0..dict.len() {
        push_key(&mut keys, dict.pair(at))?;
    }
    Ok(keys)
}

/// A number of a range by its place, where it has 128 bits.
fn number_at(range: &RangeObj, at: usize) -> Option<Value>
    ensures { result ≡ elements.number_value (fitting (nth_of range.now at)) }
{
    match nth(range.start, range.step, at) {
        Some(n) => Some(Value::Int(n)),
        None => None,
    }
}

/// The numbers of a range, where each has 128 bits.
fn numbers(alloc: Global, range: &RangeObj) -> Result<Option<Values>, OutOfMemory>
    ensures { IfOk result (λ o. o ≡ elements.range_values range.now) }
{
    let mut values = Vec::new(alloc);
    for at in 0..range.length {
        match number_at(range, at) {
            Some(v) => values.push(v)?,
            None => return Ok(None),
        }
    }
    Ok(Some(Values::from_vec(values)))
}

fn range_elements(alloc: Global, range: &RangeObj) -> Result<ElementsResult, OutOfMemory>
    ensures { IfOk result (λ g. g ≡ elements.range_elements range.now) }
{
    match numbers(alloc, range)? {
        Some(values) => Ok(ElementsResult::Elements(Elements {
            objects: Seq::from_vec(Vec::new(alloc)),
            values,
        })),
        None => {
            let raise = Raise::from_ascii(
                alloc,
                ExcClass::OverflowError,
                "whole number out of range",
            )?;
            Ok(ElementsResult::Refused(raise))
        }
    }
}

fn dict_elements(alloc: Global, dict: &Dict) -> Result<ElementsResult, OutOfMemory>
    ensures { IfOk result (λ g. g ≡ elements.own (elements.keys_of dict.now)) }
{
    let keys = keys_of(alloc, dict)?;
    Ok(own(alloc, keys))
}

fn refused(alloc: Global, heap: &Heap, v: Value) -> Result<ElementsResult, OutOfMemory>
    ensures { IfOk result (λ g. g ≡ elements.refused heap.now v) }
{
    let raise = not_iterable(alloc, heap, v)?;
    Ok(ElementsResult::Refused(raise))
}

fn object_elements(
    alloc: Global,
    heap: &Heap,
    from: usize,
    id: ObjId,
) -> Result<ElementsResult, OutOfMemory>
    ensures { IfOk result (λ g. g ≡ elements.object_elements from (elements.refused heap.now (Value.Ref id)) (slice_get heap.now id.at)) }
{
    match heap.get(id) {
        Some(Obj::Text(text)) => text_elements(alloc, from, text.chars()),
        Some(Obj::List(vs) | Obj::Tuple(vs)) => row_elements(alloc, vs.items()),
        Some(Obj::Dict(dict)) => dict_elements(alloc, dict),
        Some(Obj::Range(range)) => range_elements(alloc, range),
        _ => refused(alloc, heap, Value::Ref(id)),
    }
}

/// The elements of a value (Python glossary, iterable); new objects stand from a place on.
#[tactic(auto, unfolding(crate::specs::Elements::elements_of))]
pub fn elements_of(
    alloc: Global,
    heap: &Heap,
    from: usize,
    v: Value,
) -> Result<ElementsResult, OutOfMemory>
    ensures { IfOk result (λ g. g ≡ elements.elements_of heap.now from v) }
{
    match v {
        Value::Ref(id) => object_elements(alloc, heap, from, id),
        Value::None | Value::Bool(_) | Value::Int(_) => refused(alloc, heap, v),
    }
}
