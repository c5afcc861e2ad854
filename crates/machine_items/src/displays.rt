// Displays of lists, tuples and dicts, and the bounds of slices.

ghost use Rattle.std.specs.Prelude.{◌≡◌, IfOk};
ghost use Rattle.py_values.specs.Ends.{payable};
ghost use Rattle.py_kinds.specs.Keys.{key_of};
ghost use Rattle.py_values.specs.declared.object.Obj.TheVariants as obj;
ghost use Rattle.py_world.specs.Displays as world;
ghost use Rattle.machine_items.specs.Storing.{pair_told};

use py_kinds::keys::{KeyResult, key_within};
use py_operands::faults::{key_fault, too_long};
use py_values::OutOfMemory;
use py_values::dict::Dict;
use py_values::end::{Effect, made_within};
use py_values::heap::Heap;
use py_values::limits::MOST_ELEMENTS;
use py_values::object::Obj;
use py_values::rows::Values;
use py_values::value::Value;
use std::alloc::Global;

/// A list of values, at a step for each (Language Reference, list displays).
pub fn list_displayed(alloc: Global, values: Vec<Value>) -> Result<Effect, OutOfMemory>
    ensures { IfOk result (λ m. m ≡ world.displayed obj.List values.items) }
{
    let count = values.len();
    if count > MOST_ELEMENTS {
        return too_long(alloc, count as u64);
    }
    let list = Obj::List(Values::from_vec(values));
    Ok(Effect::New(list, count as u64))
}

/// A tuple of values, at a step for each (Language Reference, parenthesized forms).
pub fn tuple_displayed(alloc: Global, values: Vec<Value>) -> Result<Effect, OutOfMemory>
    ensures { IfOk result (λ m. m ≡ world.displayed obj.Tuple values.items) }
{
    let count = values.len();
    if count > MOST_ELEMENTS {
        return too_long(alloc, count as u64);
    }
    let tuple = Obj::Tuple(Values::from_vec(values));
    Ok(Effect::New(tuple, count as u64))
}

/// What comes of a pair of a dict's display.
#[derive(Drop)]
pub enum PairResult {
    /// It is stored; the steps so far.
    Steps(u64),
    /// The display ends with this.
    Refused(Effect),
    /// The steps are more than the budget's.
    Beyond,
}

/// Stores a pair, whose key is given, behind those so far, whose steps are given.
fn store_keyed(
    alloc: Global,
    heap: &Heap,
    dict: &mut Dict,
    before: u64,
    at: Value,
    v: Value,
    keyed: KeyResult,
    budget: u64,
) -> Result<PairResult, OutOfMemory>
    ensures { IfOk result (λ r. pair_told budget r heap.now dict.old dict.new before at v keyed) }
{
    let Some(steps) = before.checked_add(keyed.cost()) else {
        return Ok(PairResult::Beyond);
    };
    match keyed {
        KeyResult::Key(k) => {
            if dict.get(&k).is_none() && dict.len() >= MOST_ELEMENTS {
                return Ok(PairResult::Refused(too_long(alloc, steps)?));
            }
            dict.put(k, at, v)?;
            Ok(PairResult::Steps(steps))
        }
        KeyResult::Fault(fault, _) => {
            let raise = key_fault(alloc, heap, fault)?;
            Ok(PairResult::Refused(Effect::Fail(raise, steps)))
        }
    }
}

/// Stores a pair behind those so far, whose steps are given, within a budget of steps.
fn store_pair(
    alloc: Global,
    heap: &Heap,
    dict: &mut Dict,
    before: u64,
    at: Value,
    v: Value,
    budget: u64,
) -> Result<PairResult, OutOfMemory>
    ensures { IfOk result (λ r. pair_told budget r heap.now dict.old dict.new before at v (key_of heap.now at)) }
{
    let Some(left) = budget.checked_sub(before) else {
        return Ok(PairResult::Beyond);
    };
    match key_within(alloc, heap, at, left)? {
        Some(keyed) => store_keyed(alloc, heap, dict, before, at, v, keyed, budget),
        None => Ok(PairResult::Beyond),
    }
}

/// A dict of keys, each with its value behind it, within a budget of steps (Language Reference, dictionary displays).
pub fn dict_displayed(
    alloc: Global,
    heap: &Heap,
    values: &[Value],
    budget: u64,
) -> Result<Option<Effect>, OutOfMemory>
    ensures { IfOk result (λ m. m ≡ payable budget (world.dict_displayed heap.now values.now)) }
{
    let pairs = values.len() / 2;
    let mut dict = Dict::new(alloc);
    let mut steps = pairs as u64;
    for i in 0..pairs {
        let at = values[2 * i];
        let v = values[2 * i + 1];
        match store_pair(alloc, heap, &mut dict, steps, at, v, budget)? {
            PairResult::Steps(n) => steps = n,
            PairResult::Refused(made) => return Ok(made_within(made, budget)),
            PairResult::Beyond => return Ok(None),
        }
    }
    let made = Effect::New(Obj::Dict(dict), steps);
    Ok(made_within(made, budget))
}

/// A bound of a slice; None is as an absent one (Language Reference, slicings).
pub fn bound_given(v: Value) -> Option<Value>
    ensures { result ≡ world.bound_given v }
{
    match v {
        Value::None => None,
        Value::Bool(_) | Value::Int(_) | Value::Ref(_) => Some(v),
    }
}
