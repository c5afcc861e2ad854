// The turns of a `for`.

ghost use Rattle.std.specs.Prelude.{◌≡◌, IfOk, OnOk, length, slice_get};
ghost use Rattle.py_items.specs.Items as items;
ghost use Rattle.py_operands.specs.Ranges as ranges;
ghost use Rattle.py_items.specs.Turns as turns;

use crate::index::{char_given, given, value_at};
use crate::iter::{IterAt, Turn};
use crate::subscript::object_at;
use py_kinds::length::length_of;
use py_operands::faults::{failed, not_iterable};
use py_operands::ranges::range_number;
use py_values::OutOfMemory;
use py_values::class::ExcClass;
use py_values::dict::Dict;
use py_values::end::Effect;
use py_values::heap::Heap;
use py_values::object::Obj;
use py_values::range::RangeObj;
use py_values::value::Value;
use std::alloc::Global;

/// Where a `for` over a value begins; none for what isn't iterable.
pub fn iterate(heap: &Heap, of: Value) -> Option<IterAt>
    ensures { result ≡ turns.iterate heap.now of }
{
    let length = length_of(heap, of)?;
    Some(IterAt {
        of,
        next: 0,
        length,
    })
}

/// The key at a place of a dict.
fn key_given(alloc: Global, dict: &Dict, at: usize) -> Result<Effect, OutOfMemory>
    ensures { IfOk result (λ m. m ≡ turns.key_given (slice_get dict.now at)) }
{
    match dict.entry(at) {
        Some((_, pair)) => Ok(Effect::Give(pair.key, 0)),
        None => given(alloc, None),
    }
}

/// The next key of a dict, whose length must stay.
fn turn_keys(
    alloc: Global,
    dict: &Dict,
    next: usize,
    length: usize,
) -> Result<Option<Effect>, OutOfMemory>
    ensures made { IfOk result (λ m. m ≡ turns.turn_keys next length dict.now) }
    ensures room { IfOk result (turns.HasRoom next) }
{
    if dict.len() != length {
        let made = failed(
            alloc,
            ExcClass::RuntimeError,
            "dictionary changed size during iteration",
        )?;
        return Ok(Some(made));
    }
    if next >= dict.len() {
        return Ok(None);
    }
    let made = key_given(alloc, dict, next)?;
    Ok(Some(made))
}

/// The next character of a text.
fn turn_chars(alloc: Global, text: &[char], next: usize) -> Result<Option<Effect>, OutOfMemory>
    ensures made { IfOk result (λ m. m ≡ turns.if_below next (length text.now) (items.char_given (slice_get text.now next))) }
    ensures room { IfOk result (turns.HasRoom next) }
{
    if next >= text.len() {
        return Ok(None);
    }
    let made = char_given(alloc, text.get(next))?;
    Ok(Some(made))
}

/// The next element of a list or a tuple.
fn turn_values(alloc: Global, vs: &[Value], next: usize) -> Result<Option<Effect>, OutOfMemory>
    ensures made { IfOk result (λ m. m ≡ turns.if_below next (length vs.now) (items.given (slice_get vs.now next))) }
    ensures room { IfOk result (turns.HasRoom next) }
{
    if next >= vs.len() {
        return Ok(None);
    }
    let made = given(alloc, value_at(vs, next))?;
    Ok(Some(made))
}

/// The next number of a range.
fn turn_numbers(alloc: Global, range: &RangeObj, next: usize) -> Result<Option<Effect>, OutOfMemory>
    ensures made { IfOk result (λ m. m ≡ turns.if_below next range.now.length (ranges.range_number range.now next)) }
    ensures room { IfOk result (turns.HasRoom next) }
{
    if next >= range.length {
        return Ok(None);
    }
    let made = range_number(alloc, range, next)?;
    Ok(Some(made))
}

/// The element at the next place, and nothing at the end.
#[tactic(auto, unfolding(crate::specs::Turns::turn_of))]
pub fn turn_made(alloc: Global, heap: &Heap, at: IterAt) -> Result<Option<Effect>, OutOfMemory>
    ensures made { IfOk result (λ m. m ≡ turns.turn_of heap.now at) }
    ensures room { IfOk result (turns.HasRoom at.next) }
{
    match object_at(heap, at.of) {
        Some(Obj::Text(t)) => turn_chars(alloc, t.chars(), at.next),
        Some(Obj::List(vs)) => turn_values(alloc, vs.items(), at.next),
        Some(Obj::Tuple(vs)) => turn_values(alloc, vs.items(), at.next),
        Some(Obj::Range(r)) => turn_numbers(alloc, r, at.next),
        Some(Obj::Dict(d)) => turn_keys(alloc, d, at.next, at.length),
        _ => {
            let raise = not_iterable(alloc, heap, at.of)?;
            Ok(Some(Effect::Fail(raise, 0)))
        }
    }
}

/// Where the turns are behind one: at the next place where it gave an element.
fn next_turn(at: IterAt, made: &Option<Effect>) -> IterAt
    requires { turns.HasRoom at.next made.now }
    ensures { result ≡ turns.next_turn at made.now }
{
    match made {
        None | Some(Effect::Fail(_, _)) => at,
        Some(Effect::Give(_, _) | Effect::New(_, _) | Effect::Put(_, _, _, _)) => IterAt {
            of: at.of,
            next: at.next + 1,
            length: at.length,
        },
    }
}

/// What a turn tells; a new object is put into the heap.
fn turn_end(heap: &mut Heap, made: Option<Effect>) -> Result<Turn, OutOfMemory>
    ensures { IfOk result (λ t. (t, heap.new) ≡ turns.turn_end heap.old made) }
{
    match made {
        None => Ok(Turn::End),
        Some(Effect::Give(v, _)) => Ok(Turn::Item(v)),
        Some(Effect::New(obj, _)) => {
            let id = heap.add(obj)?;
            Ok(Turn::Item(Value::Ref(id)))
        }
        Some(Effect::Put(id, change, v, _)) => {
            heap.change(id, change)?;
            Ok(Turn::Item(v))
        }
        Some(Effect::Fail(raise, _)) => Ok(Turn::Raised(raise)),
    }
}

/// A turn of a `for` (Language Reference, the `for` statement).
pub fn turn(alloc: Global, heap: &mut Heap, at: &mut IterAt) -> Result<Turn, OutOfMemory>
    ensures turn { IfOk result (λ t. (t, heap.new) ≡ turns.turn_end heap.old (turns.turn_of heap.old at.old)) }
    ensures next { OnOk result (at.new ≡ turns.next_turn at.old (turns.turn_of heap.old at.old)) }
{
    let made = turn_made(alloc, heap, *at)?;
    let next = next_turn(*at, &made);
    let turn = turn_end(heap, made)?;
    *at = next;
    Ok(turn)
}
