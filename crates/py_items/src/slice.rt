// Slices.

ghost use Rattle.std.specs.Prelude.{◌≡◌, ◌≢◌, ◌^◌, ◌≤◌, ◌<◌, ◌++◌, IfOk, OnOk, pos, slice_get};
ghost use Rattle.py_values.specs.declared.object.Obj.TheVariants as obj;
ghost use Rattle.py_items.specs.Items as items;

use py_operands::faults::{failed, no_index};
use py_values::class::ExcClass;
use py_values::end::Effect;
use py_values::number::number;
use py_values::object::Obj;
use py_values::rows::Values;
use py_values::value::Value;
use py_values::{OutOfMemory, PyText};
use std::alloc::Global;

/// A bound of a slice as a place, counted from the end where it is negative, and never outside.
fn edge(len: usize, z: i128) -> usize
    ensures { result ≡ items.edge len z }
{
    if z >= 0 {
        return if z < len as i128 { z as usize } else { len };
    }
    let at = z + len as i128;
    if at > 0 { at as usize } else { 0 }
}

/// The same as the place behind it.
fn edge_behind(len: usize, z: i128) -> usize
    ensures { result ≡ items.edge_behind len z }
{
    if z >= 0 {
        return if z < len as i128 { z as usize + 1 } else { len };
    }
    let at = z + 1 + len as i128;
    if at > 0 { at as usize } else { 0 }
}

/// How many places there are from one up to below another, by a step.
fn count_up(start: usize, stop: usize, step: u128) -> usize
    requires { 0 < step }
    ensures { result ≡ items.count_up start stop step }
{
    if start < stop {
        (1 + (stop - start - 1) as u128 / step) as usize
    } else {
        0
    }
}

/// Puts what stands at a place, where there is something.
fn push_at<T: Copy>(picked: &mut Vec<T>, xs: &[T], at: usize) -> Result<(), OutOfMemory>
    ensures { OnOk result (picked.new.items ≡ picked.old.items ++ items.element_at (slice_get xs.now at)) }
{
    match xs.get(at) {
        Some(x) => {
            picked.push(*x)?;
            Ok(())
        }
        None => Ok(()),
    }
}

/// So many elements from a place on, by a step up.
fn picked_up<T: Copy>(
    alloc: Global,
    xs: &[T],
    start: usize,
    step: u128,
    count: usize,
) -> Result<Vec<T>, OutOfMemory>
    requires { step ≤ 2 ^ 127 }
    ensures { IfOk result (λ v. v.items ≡ items.picked_up xs.now start step count) }
{
    let mut picked = Vec::new(alloc);
    let mut at = start as u128;
    for _ in 0..count {
        if at >= xs.len() as u128 {
            return Ok(picked);
        }
        push_at(&mut picked, xs, at as usize)?;
        at += step;
    }
    Ok(picked)
}

/// So many elements from one behind a place on, by a step down.
fn picked_down<T: Copy>(
    alloc: Global,
    xs: &[T],
    start: usize,
    step: u128,
    count: usize,
) -> Result<Vec<T>, OutOfMemory>
    ensures { IfOk result (λ v. v.items ≡ items.picked_down xs.now start step count) }
{
    let mut picked = Vec::new(alloc);
    let mut behind = start;
    for _ in 0..count {
        push_at(&mut picked, xs, behind.saturating_sub(1))?;
        behind = (behind as u128).saturating_sub(step) as usize;
    }
    Ok(picked)
}

fn edge_or(default: usize, len: usize, z: Option<i128>) -> usize
    ensures { result ≡ items.edge_or default (items.edge len) z }
{
    match z {
        Some(z) => edge(len, z),
        None => default,
    }
}

fn edge_behind_or(default: usize, len: usize, z: Option<i128>) -> usize
    ensures { result ≡ items.edge_or default (items.edge_behind len) z }
{
    match z {
        Some(z) => edge_behind(len, z),
        None => default,
    }
}

/// The elements of a slice.
fn sliced<T: Copy>(
    alloc: Global,
    xs: &[T],
    start: Option<i128>,
    stop: Option<i128>,
    step: i128,
) -> Result<Vec<T>, OutOfMemory>
    requires { step ≢ pos 0 }
    ensures { IfOk result (λ v. v.items ≡ items.sliced xs.now start stop step) }
{
    let len = xs.len();
    let by = step.unsigned_abs();
    if step > 0 {
        let first = edge_or(0, len, start);
        let last = edge_or(len, len, stop);
        return picked_up(alloc, xs, first, by, count_up(first, last, by));
    }
    let first = edge_behind_or(len, len, start);
    let last = edge_behind_or(0, len, stop);
    picked_down(alloc, xs, first, by, count_up(last, first, by))
}

fn part_of(v: Option<Value>) -> Option<Option<i128>>
    ensures { result ≡ items.part_of v }
{
    match v {
        None => Some(None),
        Some(v) => match number(v) {
            Some(n) => Some(Some(n)),
            None => None,
        },
    }
}

/// The start, the stop and the step of a slice.
#[derive(Clone, Copy)]
pub struct Bounds {
    pub start: Option<i128>,
    pub stop: Option<i128>,
    pub step: i128,
}

/// The numbers of a slice, or why it has none.
#[derive(Clone, Copy)]
pub enum Parts {
    Numbers(Bounds),
    ZeroStep,
    NoNumber,
}

fn step_of(step: Option<i128>) -> i128
    ensures { result ≡ items.step_of step }
{
    match step {
        Some(step) => step,
        None => 1,
    }
}

/// The numbers of a slice.
pub fn parts_of(start: Option<Value>, stop: Option<Value>, step: Option<Value>) -> Parts
    ensures { result ≡ items.parts_of start stop step }
{
    match (part_of(start), part_of(stop), part_of(step)) {
        (Some(start), Some(stop), Some(step)) => {
            let step = step_of(step);
            if step == 0 {
                return Parts::ZeroStep;
            }
            Parts::Numbers(Bounds { start, stop, step })
        }
        _ => Parts::NoNumber,
    }
}

fn zero_step(alloc: Global) -> Result<Effect, OutOfMemory>
    ensures { IfOk result (λ m. m ≡ items.zero_step) }
{
    failed(alloc, ExcClass::ValueError, "slice step is zero")
}

/// A slice of a text.
pub fn text_slice(alloc: Global, xs: &[char], parts: Parts) -> Result<Effect, OutOfMemory>
    ensures { IfOk result (λ m. m ≡ items.slice_by_parts obj.Text xs.now parts) }
{
    match parts {
        Parts::Numbers(bounds) => {
            if bounds.step == 0 {
                return zero_step(alloc);
            }
            let items = sliced(alloc, xs, bounds.start, bounds.stop, bounds.step)?;
            let len = items.len() as u64;
            Ok(Effect::New(Obj::Text(PyText::from_chars(alloc, &items)?), len))
        }
        Parts::ZeroStep => zero_step(alloc),
        Parts::NoNumber => no_index(alloc),
    }
}

/// A slice of a list.
pub fn list_slice(alloc: Global, xs: &[Value], parts: Parts) -> Result<Effect, OutOfMemory>
    ensures { IfOk result (λ m. m ≡ items.slice_by_parts obj.List xs.now parts) }
{
    match parts {
        Parts::Numbers(bounds) => {
            if bounds.step == 0 {
                return zero_step(alloc);
            }
            let items = sliced(alloc, xs, bounds.start, bounds.stop, bounds.step)?;
            let len = items.len() as u64;
            Ok(Effect::New(Obj::List(Values::from_vec(items)), len))
        }
        Parts::ZeroStep => zero_step(alloc),
        Parts::NoNumber => no_index(alloc),
    }
}

/// A slice of a tuple.
pub fn tuple_slice(alloc: Global, xs: &[Value], parts: Parts) -> Result<Effect, OutOfMemory>
    ensures { IfOk result (λ m. m ≡ items.slice_by_parts obj.Tuple xs.now parts) }
{
    match parts {
        Parts::Numbers(bounds) => {
            if bounds.step == 0 {
                return zero_step(alloc);
            }
            let items = sliced(alloc, xs, bounds.start, bounds.stop, bounds.step)?;
            let len = items.len() as u64;
            Ok(Effect::New(Obj::Tuple(Values::from_vec(items)), len))
        }
        Parts::ZeroStep => zero_step(alloc),
        Parts::NoNumber => no_index(alloc),
    }
}
