// Copies of dicts, and dicts with others' pairs.

ghost use Rattle.std.specs.Prelude.{◌≡◌, ◌+◌, IfOk, OnOk, length};
ghost use Rattle.dict_methods.specs.Copies as copies;

use call_products::product::{Product, failed, plain};
use py_values::OutOfMemory;
use py_values::change::Change;
use py_values::class::ExcClass;
use py_values::dict::Dict;
use py_values::end::Effect;
use py_values::key::Key;
use py_values::limits::MOST_ELEMENTS;
use py_values::object::Obj;
use py_values::value::{ObjId, Value};
use std::alloc::Global;

/// The sum of steps. No memory holds what takes more than a number says.
pub fn steps_sum(a: u64, b: u64) -> Result<u64, OutOfMemory>
    ensures { IfOk result (λ n. n ≡ a + b) }
{
    match a.checked_add(b) {
        Some(n) => Ok(n),
        None => Err(OutOfMemory),
    }
}

/// The steps of the keys of a dict, each used once.
fn keys_steps(dict: &Dict) -> Result<u64, OutOfMemory>
    ensures { IfOk result (λ n. n ≡ copies.keys_steps dict.now) }
{
    let mut steps = 0u64;
    for at in 0..dict.len() {
        let Some((key, _)) = dict.entry(at) else {
            return Err(OutOfMemory);
        };
        steps = steps_sum(steps, key.cost())?;
    }
    Ok(steps)
}

/// The pairs of a dict stored in another, one by one.
fn store_all(alloc: Global, into: &mut Dict, dict: &Dict) -> Result<(), OutOfMemory>
    ensures { OnOk result (into.new ≡ copies.store_all into.old dict.now) }
{
    for at in 0..dict.len() {
        let Some((key, pair)) = dict.entry(at) else {
            return Err(OutOfMemory);
        };
        let copy = key.copied(alloc)?;
        into.put(copy, pair.key, pair.value)?;
    }
    Ok(())
}

fn copied(alloc: Global, dict: &Dict) -> Result<Dict, OutOfMemory>
    ensures { IfOk result (λ d. d ≡ copies.copied dict.now) }
{
    let mut copy = Dict::new(alloc);
    store_all(alloc, &mut copy, dict)?;
    Ok(copy)
}

/// A copy of a dict, behind so many steps beside those of its keys and its length.
pub fn copy_made(alloc: Global, dict: &Dict, cost: u64) -> Result<Product, OutOfMemory>
    ensures { IfOk result (λ p. p ≡ copies.copy_made dict.now cost) }
{
    let keys = keys_steps(dict)?;
    let steps = steps_sum(steps_sum(cost, keys)?, dict.len() as u64)?;
    let copy = copied(alloc, dict)?;
    Ok(plain(alloc, Effect::New(Obj::Dict(copy), steps)))
}

/// Whether a dict has room for a value under a key.
fn has_room(dict: &Dict, key: &Key) -> bool
    ensures { result ≡ copies.has_room dict.now key.now }
{
    dict.get(key).is_some() || dict.len() < MOST_ELEMENTS
}

/// What comes of storing pairs: all are stored, or there was no room for one, behind so many steps.
#[derive(Clone, Copy, PartialEq, Eq)]
pub enum Fill {
    Whole(u64),
    Full(u64),
}

/// The pairs of a dict stored in another, as long as there is room.
fn filled(alloc: Global, into: &mut Dict, dict: &Dict, cost: u64) -> Result<Fill, OutOfMemory>
    ensures { IfOk result (λ f. copies.filled_by f into.new ≡ copies.filled into.old cost dict.now) }
{
    let mut steps = cost;
    for at in 0..dict.len() {
        let Some((key, pair)) = dict.entry(at) else {
            return Err(OutOfMemory);
        };
        steps = steps_sum(steps, key.cost())?;
        if !has_room(into, key) {
            return Ok(Fill::Full(steps));
        }
        let copy = key.copied(alloc)?;
        into.put(copy, pair.key, pair.value)?;
    }
    Ok(Fill::Whole(steps))
}

fn updated(alloc: Global, id: ObjId, all: Dict, fill: Fill) -> Result<Product, OutOfMemory>
    ensures { IfOk result (λ p. p ≡ copies.updated id (copies.filled_by fill all)) }
{
    match fill {
        Fill::Whole(cost) => {
            let change = Change::Whole(Obj::Dict(all));
            Ok(plain(alloc, Effect::Put(id, change, Value::None, cost)))
        }
        Fill::Full(cost) => failed(alloc, ExcClass::MemoryError, "sequence too long", cost),
    }
}

/// A dict with the pairs of another.
pub fn update_made(
    alloc: Global,
    id: ObjId,
    dict: &Dict,
    other: &Dict,
) -> Result<Product, OutOfMemory>
    ensures { IfOk result (λ p. p ≡ copies.update_made id dict.now other.now) }
{
    let mut all = copied(alloc, dict)?;
    let fill = filled(alloc, &mut all, other, dict.len() as u64)?;
    updated(alloc, id, all, fill)
}
