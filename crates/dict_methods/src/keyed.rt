// Methods that use a key.

ghost use Rattle.std.specs.Prelude.{◌≡◌, IfOk, option_map};
ghost use Rattle.call_products.specs.Products.{product_within as within_steps, wrong as wrong_call};
ghost use Rattle.dict_methods.specs.Keyed as methods;

use call_products::product::{Product, failed, plain, product_within, wrong};
use py_kinds::keys::{KeyFault, KeyResult, key_within};
use py_operands::faults::{key_fault, no_key};
use py_values::OutOfMemory;
use py_values::change::Change;
use py_values::class::ExcClass;
use py_values::dict::Dict;
use py_values::end::Effect;
use py_values::heap::Heap;
use py_values::key::Key;
use py_values::limits::MOST_ELEMENTS;
use py_values::value::{ObjId, Value};
use std::alloc::Global;

/// A key, and a value where it is given.
#[derive(Clone, Copy, PartialEq, Eq)]
pub struct KeyArgs {
    pub key: Value,
    pub default: Option<Value>,
}

/// The arguments of `get` and `pop`.
pub fn key_args(args: &[Value], unnamed: bool) -> Option<KeyArgs>
    ensures { result ≡ methods.key_args args.now unnamed }
{
    match (args, unnamed) {
        ([v], true) => Some(KeyArgs {
            key: *v,
            default: None,
        }),
        ([v, d], true) => Some(KeyArgs {
            key: *v,
            default: Some(*d),
        }),
        _ => None,
    }
}

fn no_key_made(
    alloc: Global,
    heap: &Heap,
    fault: KeyFault,
    cost: u64,
) -> Result<Product, OutOfMemory>
    ensures { IfOk result (λ p. p ≡ methods.no_key_made heap.now fault cost) }
{
    let raise = key_fault(alloc, heap, fault)?;
    Ok(plain(alloc, Effect::Fail(raise, cost)))
}

/// The value under a key.
fn value_under(dict: &Dict, k: &Key) -> Option<Value>
    ensures { result ≡ methods.value_under dict.now k.now }
{
    match dict.get(k) {
        Some(pair) => Some(pair.value),
        None => None,
    }
}

fn got(alloc: Global, found: Option<Value>, default: Option<Value>, cost: u64) -> Product
    ensures { result ≡ methods.got found default cost }
{
    match found {
        Some(v) => plain(alloc, Effect::Give(v, cost)),
        None => plain(alloc, Effect::Give(default.unwrap_or(Value::None), cost)),
    }
}

/// What a call with arguments that don't fit makes, under a budget.
pub fn wrong_within(alloc: Global, name: &str, budget: u64) -> Result<Option<Product>, OutOfMemory>
    ensures { IfOk result (λ p. p ≡ within_steps budget (wrong_call name.now 0)) }
{
    let product = wrong(alloc, name, 0)?;
    Ok(product_within(product, budget))
}

/// The value under a key that is made under a budget, or another.
fn got_by(
    alloc: Global,
    heap: &Heap,
    dict: &Dict,
    default: Option<Value>,
    keyed: Option<KeyResult>,
) -> Result<Option<Product>, OutOfMemory>
    ensures { IfOk result (λ p. p ≡ option_map (methods.get_by heap.now dict.now default) keyed) }
{
    match keyed {
        Some(KeyResult::Key(k)) => {
            let product = got(alloc, value_under(dict, &k), default, k.cost());
            Ok(Some(product))
        }
        Some(KeyResult::Fault(fault, cost)) => {
            let product = no_key_made(alloc, heap, fault, cost)?;
            Ok(Some(product))
        }
        None => Ok(None),
    }
}

/// The value under a key, or another, under a budget.
#[tactic(auto, using(crate::proofs::Paying::get_within))]
pub fn get(
    alloc: Global,
    heap: &Heap,
    dict: &Dict,
    args: Option<KeyArgs>,
    budget: u64,
) -> Result<Option<Product>, OutOfMemory>
    ensures { IfOk result (λ p. p ≡ within_steps budget (methods.get_of heap.now dict.now args)) }
{
    let Some(args) = args else {
        return wrong_within(alloc, "get", budget);
    };
    let keyed = key_within(alloc, heap, args.key, budget)?;
    got_by(alloc, heap, dict, args.default, keyed)
}

/// What is popped: the pair under a key where there is one, else the value that is given, else the key is missed.
fn taken(
    alloc: Global,
    id: ObjId,
    k: Key,
    found: Option<Value>,
    args: KeyArgs,
) -> Result<Product, OutOfMemory>
    ensures { IfOk result (λ p. p ≡ methods.taken id k found args) }
{
    let cost = k.cost();
    if let Some(v) = found {
        return Ok(plain(alloc, Effect::Put(id, Change::WithoutPair(k), v, cost)));
    }
    match args.default {
        Some(v) => Ok(plain(alloc, Effect::Give(v, cost))),
        None => {
            let raise = no_key(alloc, args.key)?;
            Ok(plain(alloc, Effect::Fail(raise, cost)))
        }
    }
}

/// A dict without the pair under a key that is made under a budget.
fn popped_by(
    alloc: Global,
    heap: &Heap,
    id: ObjId,
    dict: &Dict,
    args: KeyArgs,
    keyed: Option<KeyResult>,
) -> Result<Option<Product>, OutOfMemory>
    ensures { IfOk result (λ p. p ≡ option_map (methods.pop_by heap.now id dict.now args) keyed) }
{
    match keyed {
        Some(KeyResult::Key(k)) => {
            let found = value_under(dict, &k);
            let product = taken(alloc, id, k, found, args)?;
            Ok(Some(product))
        }
        Some(KeyResult::Fault(fault, cost)) => {
            let product = no_key_made(alloc, heap, fault, cost)?;
            Ok(Some(product))
        }
        None => Ok(None),
    }
}

/// A dict without the pair under a key, under a budget.
#[tactic(auto, using(crate::proofs::Paying::pop_within))]
pub fn pop(
    alloc: Global,
    heap: &Heap,
    id: ObjId,
    dict: &Dict,
    args: Option<KeyArgs>,
    budget: u64,
) -> Result<Option<Product>, OutOfMemory>
    ensures { IfOk result (λ p. p ≡ within_steps budget (methods.dict_pop heap.now id dict.now args)) }
{
    let Some(args) = args else {
        return wrong_within(alloc, "pop", budget);
    };
    let keyed = key_within(alloc, heap, args.key, budget)?;
    popped_by(alloc, heap, id, dict, args, keyed)
}

/// What is given under a key: the value that is there, or the one that is stored, where there is room.
fn settled(
    alloc: Global,
    id: ObjId,
    len: usize,
    k: Key,
    found: Option<Value>,
    args: (Value, Value),
) -> Result<Product, OutOfMemory>
    ensures { IfOk result (λ p. p ≡ methods.settled id len k found args) }
{
    let cost = k.cost();
    if let Some(v) = found {
        return Ok(plain(alloc, Effect::Give(v, cost)));
    }
    if len >= MOST_ELEMENTS {
        return failed(alloc, ExcClass::MemoryError, "sequence too long", cost);
    }
    Ok(plain(
        alloc,
        Effect::Put(id, Change::Pair(k, args.0, args.1), args.1, cost),
    ))
}

/// The value under a key that is made under a budget, which is stored there where there is none.
fn settled_by(
    alloc: Global,
    heap: &Heap,
    id: ObjId,
    dict: &Dict,
    args: (Value, Value),
    keyed: Option<KeyResult>,
) -> Result<Option<Product>, OutOfMemory>
    ensures { IfOk result (λ p. p ≡ option_map (methods.setdefault_by heap.now id dict.now args) keyed) }
{
    match keyed {
        Some(KeyResult::Key(k)) => {
            let found = value_under(dict, &k);
            let product = settled(alloc, id, dict.len(), k, found, args)?;
            Ok(Some(product))
        }
        Some(KeyResult::Fault(fault, cost)) => {
            let product = no_key_made(alloc, heap, fault, cost)?;
            Ok(Some(product))
        }
        None => Ok(None),
    }
}

/// The value under a key, which is stored there where there is none, under a budget.
#[tactic(auto, using(crate::proofs::Paying::setdefault_within))]
pub fn setdefault(
    alloc: Global,
    heap: &Heap,
    id: ObjId,
    dict: &Dict,
    args: Option<(Value, Value)>,
    budget: u64,
) -> Result<Option<Product>, OutOfMemory>
    ensures { IfOk result (λ p. p ≡ within_steps budget (methods.setdefault_of heap.now id dict.now args)) }
{
    let Some(args) = args else {
        return wrong_within(alloc, "setdefault", budget);
    };
    let keyed = key_within(alloc, heap, args.0, budget)?;
    settled_by(alloc, heap, id, dict, args, keyed)
}
