// Sequences of limited length.

ghost use Rattle.std.specs.Prelude.{◌≡◌, ◌*◌, ◌+◌, ◌++◌, ◌<◌, ◌^◌, IfOk, Some, length, slice_get};
ghost use Rattle.py_values.specs.Numbers.{int_value};
ghost use Rattle.py_values.specs.declared.object.Obj.TheVariants as obj;
ghost use Rattle.py_operands.specs.Attempts.{attempted};
ghost use Rattle.py_operands.specs.Sequences as sequences;

use crate::attempt::Attempt;
use crate::faults::too_long;
use py_values::end::Effect;
use py_values::heap::Heap;
use py_values::limits::MOST_ELEMENTS;
use py_values::number::number;
use py_values::object::Obj;
use py_values::rows::Values;
use py_values::value::{ObjId, Value};
use py_values::{OutOfMemory, PyText};
use std::alloc::Global;

/// Whether a sequence of a length may be made under a budget.
#[derive(Clone, Copy)]
pub enum Room {
    TooLong,
    Short,
    Fits(usize),
}

fn room_for(len: u128, budget: u64) -> Room
    ensures { result ≡ sequences.room_of budget len }
{
    if len > MOST_ELEMENTS as u128 {
        Room::TooLong
    } else if (budget as u128) < len {
        Room::Short
    } else {
        Room::Fits(len as usize)
    }
}

/// How often a number repeats.
fn times_of(n: i128) -> u128
    ensures { result ≡ sequences.times n }
{
    if n < 0 { 0 } else { n as u128 }
}

fn room_times(len: usize, n: i128, budget: u64) -> Room
    ensures { result ≡ sequences.room_of budget (sequences.times n * len) }
{
    match times_of(n).checked_mul(len as u128) {
        Some(len) => room_for(len, budget),
        None => Room::TooLong,
    }
}

fn refused(alloc: Global) -> Result<Attempt, OutOfMemory>
    ensures { IfOk result (λ t. t ≡ Attempt.Made (sequences.too_long 0)) }
{
    let made = too_long(alloc, 0)?;
    Ok(Attempt::Made(made))
}

fn joined_items<T: Copy>(alloc: Global, a: &[T], b: &[T]) -> Result<Vec<T>, OutOfMemory>
    ensures { IfOk result (λ v. v.items ≡ a.now ++ b.now) }
{
    let mut items = Vec::new(alloc);
    items.extend_from_slice(a)?;
    items.extend_from_slice(b)?;
    Ok(items)
}

#[tactic(auto, using(crate::proofs::Repeating::repeat_step))]
fn repeat<T: Copy>(alloc: Global, xs: &[T], times: usize) -> Result<Vec<T>, OutOfMemory>
    ensures { IfOk result (λ v. v.items ≡ sequences.repeat times xs.now) }
{
    let mut items = Vec::new(alloc);
    for _ in 0..times {
        items.extend_from_slice(xs)?;
    }
    Ok(items)
}

/// Elements repeated, whose length is known.
#[tactic(auto, using(crate::proofs::Repeating::repeat_none, crate::proofs::Repeating::few_times))]
fn repeated_items<T: Copy>(
    alloc: Global,
    xs: &[T],
    times: u128,
    len: usize,
) -> Result<Vec<T>, OutOfMemory>
    requires { len ≡ times * length xs.now }
    ensures { IfOk result (λ v. v.items ≡ sequences.repeat times xs.now) }
{
    if len == 0 {
        return Ok(Vec::new(alloc));
    }
    repeat(alloc, xs, times as usize)
}

fn texts_joined(alloc: Global, a: &[char], b: &[char], budget: u64) -> Result<Attempt, OutOfMemory>
    ensures { IfOk result (λ t. t ≡ attempted budget (Some (sequences.concatenation obj.Text a.now b.now))) }
{
    match room_for(a.len() as u128 + b.len() as u128, budget) {
        Room::TooLong => refused(alloc),
        Room::Short => Ok(Attempt::Exhausted),
        Room::Fits(len) => {
            let items = joined_items(alloc, a, b)?;
            Ok(Attempt::Made(Effect::New(
                Obj::Text(PyText::from_chars(alloc, &items)?),
                len as u64,
            )))
        }
    }
}

fn texts_repeated(
    alloc: Global,
    items: &[char],
    n: i128,
    budget: u64,
) -> Result<Attempt, OutOfMemory>
    ensures { IfOk result (λ t. t ≡ attempted budget (Some (sequences.repeated obj.Text items.now n))) }
{
    match room_times(items.len(), n, budget) {
        Room::TooLong => refused(alloc),
        Room::Short => Ok(Attempt::Exhausted),
        Room::Fits(len) => {
            let items = repeated_items(alloc, items, times_of(n), len)?;
            Ok(Attempt::Made(Effect::New(
                Obj::Text(PyText::from_chars(alloc, &items)?),
                len as u64,
            )))
        }
    }
}

fn lists_joined(
    alloc: Global,
    a: &[Value],
    b: &[Value],
    budget: u64,
) -> Result<Attempt, OutOfMemory>
    ensures { IfOk result (λ t. t ≡ attempted budget (Some (sequences.concatenation obj.List a.now b.now))) }
{
    match room_for(a.len() as u128 + b.len() as u128, budget) {
        Room::TooLong => refused(alloc),
        Room::Short => Ok(Attempt::Exhausted),
        Room::Fits(len) => {
            let items = joined_items(alloc, a, b)?;
            Ok(Attempt::Made(Effect::New(Obj::List(Values::from_vec(items)), len as u64)))
        }
    }
}

fn lists_repeated(
    alloc: Global,
    items: &[Value],
    n: i128,
    budget: u64,
) -> Result<Attempt, OutOfMemory>
    ensures { IfOk result (λ t. t ≡ attempted budget (Some (sequences.repeated obj.List items.now n))) }
{
    match room_times(items.len(), n, budget) {
        Room::TooLong => refused(alloc),
        Room::Short => Ok(Attempt::Exhausted),
        Room::Fits(len) => {
            let items = repeated_items(alloc, items, times_of(n), len)?;
            Ok(Attempt::Made(Effect::New(Obj::List(Values::from_vec(items)), len as u64)))
        }
    }
}

fn tuples_joined(
    alloc: Global,
    a: &[Value],
    b: &[Value],
    budget: u64,
) -> Result<Attempt, OutOfMemory>
    ensures { IfOk result (λ t. t ≡ attempted budget (Some (sequences.concatenation obj.Tuple a.now b.now))) }
{
    match room_for(a.len() as u128 + b.len() as u128, budget) {
        Room::TooLong => refused(alloc),
        Room::Short => Ok(Attempt::Exhausted),
        Room::Fits(len) => {
            let items = joined_items(alloc, a, b)?;
            Ok(Attempt::Made(Effect::New(Obj::Tuple(Values::from_vec(items)), len as u64)))
        }
    }
}

fn tuples_repeated(
    alloc: Global,
    items: &[Value],
    n: i128,
    budget: u64,
) -> Result<Attempt, OutOfMemory>
    ensures { IfOk result (λ t. t ≡ attempted budget (Some (sequences.repeated obj.Tuple items.now n))) }
{
    match room_times(items.len(), n, budget) {
        Room::TooLong => refused(alloc),
        Room::Short => Ok(Attempt::Exhausted),
        Room::Fits(len) => {
            let items = repeated_items(alloc, items, times_of(n), len)?;
            Ok(Attempt::Made(Effect::New(Obj::Tuple(Values::from_vec(items)), len as u64)))
        }
    }
}

/// Objects added, where they are texts, lists or tuples.
pub fn objs_added(
    alloc: Global,
    heap: &Heap,
    i: ObjId,
    j: ObjId,
    budget: u64,
) -> Result<Attempt, OutOfMemory>
    ensures { IfOk result (λ t. t ≡ attempted budget (sequences.objs_added (slice_get heap.now i.at) (slice_get heap.now j.at))) }
{
    match (heap.get(i), heap.get(j)) {
        (Some(Obj::Text(a)), Some(Obj::Text(b))) => {
            texts_joined(alloc, a.chars(), b.chars(), budget)
        }
        (Some(Obj::List(a)), Some(Obj::List(b))) => {
            lists_joined(alloc, a.items(), b.items(), budget)
        }
        (Some(Obj::Tuple(a)), Some(Obj::Tuple(b))) => {
            tuples_joined(alloc, a.items(), b.items(), budget)
        }
        _ => Ok(Attempt::Unsupported),
    }
}

/// An object repeated, where it is a text, list or tuple.
pub fn obj_times(
    alloc: Global,
    heap: &Heap,
    id: ObjId,
    n: Value,
    budget: u64,
) -> Result<Attempt, OutOfMemory>
    ensures { IfOk result (λ t. t ≡ attempted budget (sequences.obj_times (slice_get heap.now id.at) (int_value n))) }
{
    match (heap.get(id), number(n)) {
        (Some(Obj::Text(t)), Some(n)) => texts_repeated(alloc, t.chars(), n, budget),
        (Some(Obj::List(vs)), Some(n)) => lists_repeated(alloc, vs.items(), n, budget),
        (Some(Obj::Tuple(vs)), Some(n)) => tuples_repeated(alloc, vs.items(), n, budget),
        _ => Ok(Attempt::Unsupported),
    }
}
