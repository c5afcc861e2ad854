// Subscripts.

ghost use Rattle.std.specs.Prelude.{◌≡◌, ◌≤◌, IfOk, option_copied, option_map};
ghost use Rattle.py_values.specs.Ends.{finished, payable, steps_of};
ghost use Rattle.py_operands.specs.py_kinds.Keys.{key_of};
ghost use Rattle.py_operands.specs.py_kinds.Kinds as kinds;
ghost use Rattle.py_values.specs.Numbers.{int_value};
ghost use Rattle.py_items.specs.Items as items;
ghost use Rattle.py_operands.specs.Faults as faults;

use crate::index::{char_item, range_item, value_item};
use crate::slice::{list_slice, parts_of, text_slice, tuple_slice};
use py_kinds::keys::{KeyResult, key_within};
use py_operands::faults::{key_fault, no_key, not_subscriptable};
use py_values::OutOfMemory;
use py_values::dict::{Dict, Pair};
use py_values::end::{Effect, OpEnd, finish, made_within};
use py_values::heap::Heap;
use py_values::index::Index;
use py_values::number::number;
use py_values::object::Obj;
use py_values::value::Value;
use std::alloc::Global;

/// The object that a value is.
pub fn object_at(heap: &Heap, v: Value) -> Option<&Obj>
    ensures { option_copied result ≡ items.object_at heap.now v }
{
    match v {
        Value::Ref(id) => heap.get(id),
        Value::None | Value::Bool(_) | Value::Int(_) => None,
    }
}

/// What stands under a key that costs so much.
fn pair_given(
    alloc: Global,
    key: Value,
    cost: u64,
    pair: Option<&Pair>,
) -> Result<Effect, OutOfMemory>
    ensures { IfOk result (λ m. m ≡ items.pair_given key cost (option_copied pair.entry)) }
{
    match pair {
        Some(pair) => Ok(Effect::Give(pair.value, cost)),
        None => {
            let raise = no_key(alloc, key)?;
            Ok(Effect::Fail(raise, cost))
        }
    }
}

/// What stands in a dict under a key that is made under a budget.
fn under_key(
    alloc: Global,
    heap: &Heap,
    dict: &Dict,
    at: Value,
    keyed: Option<KeyResult>,
) -> Result<Option<Effect>, OutOfMemory>
    ensures { IfOk result (λ m. m ≡ option_map (items.under_key heap.now dict.now at) keyed) }
{
    match keyed {
        Some(KeyResult::Key(key)) => {
            let made = pair_given(alloc, at, key.cost(), dict.get(&key))?;
            Ok(Some(made))
        }
        Some(KeyResult::Fault(fault, cost)) => {
            let raise = key_fault(alloc, heap, fault)?;
            Ok(Some(Effect::Fail(raise, cost)))
        }
        None => Ok(None),
    }
}

/// What stands in a dict under what a value is as a key.
#[tactic(auto, using(crate::proofs::Keyed::under_key_within))]
fn under_value(
    alloc: Global,
    heap: &Heap,
    dict: &Dict,
    at: Value,
    budget: u64,
) -> Result<Option<Effect>, OutOfMemory>
    ensures { IfOk result (λ m. m ≡ payable budget (items.under_key heap.now dict.now at (key_of heap.now at))) }
{
    let keyed = key_within(alloc, heap, at, budget)?;
    under_key(alloc, heap, dict, at, keyed)
}

fn refused(alloc: Global, heap: &Heap, a: Value) -> Result<Effect, OutOfMemory>
    ensures { IfOk result (λ m. m ≡ Effect.Fail (faults.not_subscriptable (kinds.kind_name heap.now a)) 0) }
{
    let raise = not_subscriptable(alloc, heap, a)?;
    Ok(Effect::Fail(raise, 0))
}

/// An element by its index, a value by its key.
fn item_made(
    alloc: Global,
    heap: &Heap,
    a: Value,
    at: Value,
    budget: u64,
) -> Result<Option<Effect>, OutOfMemory>
    ensures { IfOk result (λ m. m ≡ payable budget (items.item_of heap.now (faults.not_subscriptable (kinds.kind_name heap.now a)) (items.object_at heap.now a) at)) }
{
    match object_at(heap, a) {
        Some(Obj::Text(t)) => {
            let made = char_item(alloc, t.chars(), number(at))?;
            Ok(made_within(made, budget))
        }
        Some(Obj::List(vs) | Obj::Tuple(vs)) => {
            let made = value_item(alloc, vs.items(), number(at))?;
            Ok(made_within(made, budget))
        }
        Some(Obj::Range(r)) => {
            let made = range_item(alloc, r, number(at))?;
            Ok(made_within(made, budget))
        }
        Some(Obj::Dict(d)) => under_value(alloc, heap, d, at, budget),
        _ => {
            let made = refused(alloc, heap, a)?;
            Ok(made_within(made, budget))
        }
    }
}

/// A slice.
fn slice_made(
    alloc: Global,
    heap: &Heap,
    a: Value,
    start: Option<Value>,
    stop: Option<Value>,
    step: Option<Value>,
) -> Result<Effect, OutOfMemory>
    ensures { IfOk result (λ m. m ≡ items.object_slice (faults.not_subscriptable (kinds.kind_name heap.now a)) (items.object_at heap.now a) (items.parts_of start stop step)) }
{
    match object_at(heap, a) {
        Some(Obj::Text(t)) => text_slice(alloc, t.chars(), parts_of(start, stop, step)),
        Some(Obj::List(vs)) => list_slice(alloc, vs.items(), parts_of(start, stop, step)),
        Some(Obj::Tuple(vs)) => tuple_slice(alloc, vs.items(), parts_of(start, stop, step)),
        _ => refused(alloc, heap, a),
    }
}

/// What a subscript makes, under a budget.
#[tactic(auto, unfolding(crate::specs::Items::subscript_of))]
pub fn subscript_made(
    alloc: Global,
    heap: &Heap,
    a: Value,
    index: &Index,
    budget: u64,
) -> Result<Option<Effect>, OutOfMemory>
    ensures { IfOk result (λ m. m ≡ payable budget (items.subscript_of heap.now a index.now)) }
{
    match index {
        Index::At(at) => item_made(alloc, heap, a, *at, budget),
        Index::Slice(start, stop, step) => {
            let made = slice_made(alloc, heap, a, *start, *stop, *step)?;
            Ok(made_within(made, budget))
        }
    }
}

/// A subscript (Language Reference, subscriptions and slicings), within a budget of steps.
#[tactic(auto, using(crate::proofs::Within::within_cost))]
pub fn subscript(
    alloc: Global,
    heap: &mut Heap,
    a: Value,
    index: &Index,
    budget: u64,
) -> Result<OpEnd, OutOfMemory>
    ensures end { IfOk result (λ e. (e, heap.new) ≡ finished heap.old (payable budget (items.subscript_of heap.old a index.now))) }
    ensures cost { IfOk result (λ e. steps_of e ≤ budget) }
{
    let made = subscript_made(alloc, heap, a, index, budget)?;
    finish(heap, made)
}
