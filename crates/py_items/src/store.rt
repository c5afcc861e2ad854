// Stores and deletions of items.

ghost use Rattle.std.specs.Prelude.{◌≡◌, ◌≤◌, IfOk, length, option_map, slice_get};
ghost use Rattle.py_values.specs.Ends.{finished, payable, steps_of};
ghost use Rattle.py_operands.specs.py_kinds.Keys.{key_of};
ghost use Rattle.py_operands.specs.py_kinds.Kinds as kinds;
ghost use Rattle.py_values.specs.Numbers.{int_value};
ghost use Rattle.py_values.specs.Pairs.{find_pair};
ghost use Rattle.py_values.specs.declared.value.Value.TheVariants as val;
ghost use Rattle.py_operands.specs.Faults as faults;
ghost use Rattle.py_items.specs.Items as items;

use crate::index::{IndexPlace, find_place};
use py_kinds::keys::{KeyResult, key_within};
use py_operands::faults::{key_fault, no_index, no_key, not_subscriptable, out_of_range, too_long};
use py_values::OutOfMemory;
use py_values::change::Change;
use py_values::dict::Dict;
use py_values::end::{Effect, OpEnd, finish, made_within};
use py_values::heap::Heap;
use py_values::key::Key;
use py_values::limits::MOST_ELEMENTS;
use py_values::number::number;
use py_values::object::Obj;
use py_values::value::{ObjId, Value};
use std::alloc::Global;

/// A pair stored in a dict, which has room for one more where the key is new.
fn pair_put(
    alloc: Global,
    id: ObjId,
    dict: &Dict,
    k: Key,
    at: Value,
    v: Value,
) -> Result<Effect, OutOfMemory>
    ensures { IfOk result (λ m. m ≡ items.pair_put id dict.now k at v) }
{
    let cost = k.cost();
    if dict.get(&k).is_none() && dict.len() >= MOST_ELEMENTS {
        return too_long(alloc, cost);
    }
    Ok(Effect::Put(id, Change::Pair(k, at, v), Value::None, cost))
}

/// A value stored in a dict under a key that is made under a budget.
fn store_key(
    alloc: Global,
    heap: &Heap,
    id: ObjId,
    dict: &Dict,
    at: Value,
    v: Value,
    keyed: Option<KeyResult>,
) -> Result<Option<Effect>, OutOfMemory>
    ensures { IfOk result (λ m. m ≡ option_map (items.store_key heap.now id dict.now at v) keyed) }
{
    match keyed {
        Some(KeyResult::Key(k)) => {
            let made = pair_put(alloc, id, dict, k, at, v)?;
            Ok(Some(made))
        }
        Some(KeyResult::Fault(fault, cost)) => {
            let raise = key_fault(alloc, heap, fault)?;
            Ok(Some(Effect::Fail(raise, cost)))
        }
        None => Ok(None),
    }
}

/// A value stored in a dict under what another is as a key.
#[tactic(auto, using(crate::proofs::Keyed::store_key_within))]
fn store_under(
    alloc: Global,
    heap: &Heap,
    id: ObjId,
    dict: &Dict,
    at: Value,
    v: Value,
    budget: u64,
) -> Result<Option<Effect>, OutOfMemory>
    ensures { IfOk result (λ m. m ≡ payable budget (items.store_key heap.now id dict.now at v (key_of heap.now at))) }
{
    let keyed = key_within(alloc, heap, at, budget)?;
    store_key(alloc, heap, id, dict, at, v, keyed)
}

fn store_at(
    alloc: Global,
    id: ObjId,
    len: usize,
    index: Option<i128>,
    v: Value,
) -> Result<Effect, OutOfMemory>
    ensures { IfOk result (λ m. m ≡ items.store_at id len index v) }
{
    match find_place(len, index) {
        IndexPlace::Place(at) => Ok(Effect::Put(id, Change::Item(at, v), Value::None, 0)),
        IndexPlace::Outside => out_of_range(alloc),
        IndexPlace::NoNumber => no_index(alloc),
    }
}

fn refused(alloc: Global, heap: &Heap, a: Value) -> Result<Effect, OutOfMemory>
    ensures { IfOk result (λ m. m ≡ Effect.Fail (faults.not_subscriptable (kinds.kind_name heap.now a)) 0) }
{
    let raise = not_subscriptable(alloc, heap, a)?;
    Ok(Effect::Fail(raise, 0))
}

fn store_in(
    alloc: Global,
    heap: &Heap,
    id: ObjId,
    at: Value,
    v: Value,
    budget: u64,
) -> Result<Option<Effect>, OutOfMemory>
    ensures { IfOk result (λ m. m ≡ payable budget (items.store_in heap.now (faults.not_subscriptable (kinds.kind_name heap.now (val.Ref id))) id (slice_get heap.now id.at) at v)) }
{
    match heap.get(id) {
        Some(Obj::List(vs)) => {
            let made = store_at(alloc, id, vs.items().len(), number(at), v)?;
            Ok(made_within(made, budget))
        }
        Some(Obj::Dict(d)) => store_under(alloc, heap, id, d, at, v, budget),
        _ => {
            let made = refused(alloc, heap, Value::Ref(id))?;
            Ok(made_within(made, budget))
        }
    }
}

/// What the store of an item makes, under a budget.
#[tactic(auto, unfolding(crate::specs::Items::store_of))]
pub fn store_made(
    alloc: Global,
    heap: &Heap,
    a: Value,
    at: Value,
    v: Value,
    budget: u64,
) -> Result<Option<Effect>, OutOfMemory>
    ensures { IfOk result (λ m. m ≡ payable budget (items.store_of heap.now a at v)) }
{
    match a {
        Value::Ref(id) => store_in(alloc, heap, id, at, v, budget),
        Value::None | Value::Bool(_) | Value::Int(_) => {
            let made = refused(alloc, heap, a)?;
            Ok(made_within(made, budget))
        }
    }
}

/// The store of an item (Language Reference, assignment statements), within a budget of steps.
#[tactic(auto, using(crate::proofs::Within::within_cost))]
pub fn store_item(
    alloc: Global,
    heap: &mut Heap,
    a: Value,
    index: Value,
    v: Value,
    budget: u64,
) -> Result<OpEnd, OutOfMemory>
    ensures end { IfOk result (λ e. (e, heap.new) ≡ finished heap.old (payable budget (items.store_of heap.old a index v))) }
    ensures cost { IfOk result (λ e. steps_of e ≤ budget) }
{
    let made = store_made(alloc, heap, a, index, v, budget)?;
    finish(heap, made)
}

/// A pair taken from a dict.
fn pair_taken(
    alloc: Global,
    id: ObjId,
    dict: &Dict,
    k: Key,
    at: Value,
) -> Result<Effect, OutOfMemory>
    ensures { IfOk result (λ m. m ≡ items.pair_taken id at k (find_pair k dict.now)) }
{
    let cost = k.cost();
    if dict.get(&k).is_none() {
        let raise = no_key(alloc, at)?;
        return Ok(Effect::Fail(raise, cost));
    }
    Ok(Effect::Put(id, Change::WithoutPair(k), Value::None, cost))
}

/// A key, made under a budget, that is deleted from a dict.
fn delete_key(
    alloc: Global,
    heap: &Heap,
    id: ObjId,
    dict: &Dict,
    at: Value,
    keyed: Option<KeyResult>,
) -> Result<Option<Effect>, OutOfMemory>
    ensures { IfOk result (λ m. m ≡ option_map (items.delete_key heap.now id dict.now at) keyed) }
{
    match keyed {
        Some(KeyResult::Key(k)) => {
            let made = pair_taken(alloc, id, dict, k, at)?;
            Ok(Some(made))
        }
        Some(KeyResult::Fault(fault, cost)) => {
            let raise = key_fault(alloc, heap, fault)?;
            Ok(Some(Effect::Fail(raise, cost)))
        }
        None => Ok(None),
    }
}

/// What a value is as a key, deleted from a dict.
#[tactic(auto, using(crate::proofs::Keyed::delete_key_within))]
fn delete_under(
    alloc: Global,
    heap: &Heap,
    id: ObjId,
    dict: &Dict,
    at: Value,
    budget: u64,
) -> Result<Option<Effect>, OutOfMemory>
    ensures { IfOk result (λ m. m ≡ payable budget (items.delete_key heap.now id dict.now at (key_of heap.now at))) }
{
    let keyed = key_within(alloc, heap, at, budget)?;
    delete_key(alloc, heap, id, dict, at, keyed)
}

fn delete_at(
    alloc: Global,
    id: ObjId,
    len: usize,
    index: Option<i128>,
) -> Result<Effect, OutOfMemory>
    ensures { IfOk result (λ m. m ≡ items.delete_at id len index) }
{
    match find_place(len, index) {
        IndexPlace::Place(at) => Ok(Effect::Put(id, Change::WithoutItem(at), Value::None, 0)),
        IndexPlace::Outside => out_of_range(alloc),
        IndexPlace::NoNumber => no_index(alloc),
    }
}

fn delete_in(
    alloc: Global,
    heap: &Heap,
    id: ObjId,
    at: Value,
    budget: u64,
) -> Result<Option<Effect>, OutOfMemory>
    ensures { IfOk result (λ m. m ≡ payable budget (items.delete_in heap.now (faults.not_subscriptable (kinds.kind_name heap.now (val.Ref id))) id (slice_get heap.now id.at) at)) }
{
    match heap.get(id) {
        Some(Obj::List(vs)) => {
            let made = delete_at(alloc, id, vs.items().len(), number(at))?;
            Ok(made_within(made, budget))
        }
        Some(Obj::Dict(d)) => delete_under(alloc, heap, id, d, at, budget),
        _ => {
            let made = refused(alloc, heap, Value::Ref(id))?;
            Ok(made_within(made, budget))
        }
    }
}

/// What the deletion of an item makes, under a budget.
#[tactic(auto, unfolding(crate::specs::Items::delete_of))]
pub fn delete_made(
    alloc: Global,
    heap: &Heap,
    a: Value,
    at: Value,
    budget: u64,
) -> Result<Option<Effect>, OutOfMemory>
    ensures { IfOk result (λ m. m ≡ payable budget (items.delete_of heap.now a at)) }
{
    match a {
        Value::Ref(id) => delete_in(alloc, heap, id, at, budget),
        Value::None | Value::Bool(_) | Value::Int(_) => {
            let made = refused(alloc, heap, a)?;
            Ok(made_within(made, budget))
        }
    }
}

/// The deletion of an item (Language Reference, the `del` statement), within a budget of steps.
#[tactic(auto, using(crate::proofs::Within::within_cost))]
pub fn delete_item(
    alloc: Global,
    heap: &mut Heap,
    a: Value,
    index: Value,
    budget: u64,
) -> Result<OpEnd, OutOfMemory>
    ensures end { IfOk result (λ e. (e, heap.new) ≡ finished heap.old (payable budget (items.delete_of heap.old a index))) }
    ensures cost { IfOk result (λ e. steps_of e ≤ budget) }
{
    let made = delete_made(alloc, heap, a, index, budget)?;
    finish(heap, made)
}
