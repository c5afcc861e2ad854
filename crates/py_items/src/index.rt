// Elements by their index.

ghost use Rattle.std.specs.Prelude.{◌≡◌, IfOk, length, slice_get, option_copied};
ghost use Rattle.py_items.specs.Items as items;
ghost use Rattle.py_operands.specs.Ranges as ranges;

use py_operands::faults::{no_index, out_of_range};
use py_operands::ranges::range_number;
use py_values::end::Effect;
use py_values::object::Obj;
use py_values::range::RangeObj;
use py_values::value::Value;
use py_values::{OutOfMemory, PyText};
use std::alloc::Global;

/// The place of an element, counted from the end where the number is negative.
pub fn place_of(len: usize, n: i128) -> Option<usize>
    ensures { result ≡ items.element_place len n }
{
    if n >= 0 {
        if n < len as i128 {
            return Some(n as usize);
        }
        return None;
    }
    let m = n + len as i128;
    if m >= 0 {
        return Some(m as usize);
    }
    None
}

/// The place that an index names, or why it names none.
#[derive(Clone, Copy)]
pub enum IndexPlace {
    Place(usize),
    Outside,
    NoNumber,
}

/// The place of an index in a sequence of a length, counted from its end where the index is below zero (Language Reference, 6.3.2
/// Subscriptions).
pub fn find_place(len: usize, index: Option<i128>) -> IndexPlace
    ensures { result ≡ items.find_place len index }
{
    match index {
        Some(n) => match place_of(len, n) {
            Some(at) => IndexPlace::Place(at),
            None => IndexPlace::Outside,
        },
        None => IndexPlace::NoNumber,
    }
}

/// What gives the value of a subscript, or the `IndexError` where there is none.
pub fn given(alloc: Global, v: Option<Value>) -> Result<Effect, OutOfMemory>
    ensures { IfOk result (λ m. m ≡ items.given v) }
{
    match v {
        Some(v) => Ok(Effect::Give(v, 0)),
        None => out_of_range(alloc),
    }
}

/// What gives the character of a subscript as a new text, or the `IndexError` where there is none.
pub fn char_given(alloc: Global, c: Option<&char>) -> Result<Effect, OutOfMemory>
    ensures { IfOk result (λ m. m ≡ items.char_given (option_copied c.entry)) }
{
    match c {
        Some(c) => {
            let text = PyText::from_chars(alloc, &[*c])?;
            Ok(Effect::New(Obj::Text(text), 0))
        }
        None => out_of_range(alloc),
    }
}

/// The value at a place, where there is one.
pub fn value_at(vs: &[Value], at: usize) -> Option<Value>
    ensures { result ≡ slice_get vs.now at }
{
    vs.get(at).copied()
}

/// An element of a list or a tuple.
pub fn value_item(alloc: Global, vs: &[Value], index: Option<i128>) -> Result<Effect, OutOfMemory>
    ensures { IfOk result (λ m. m ≡ items.at_index (λ n. items.given (slice_get vs.now n)) (length vs.now) index) }
{
    match find_place(vs.len(), index) {
        IndexPlace::Place(at) => given(alloc, value_at(vs, at)),
        IndexPlace::Outside => out_of_range(alloc),
        IndexPlace::NoNumber => no_index(alloc),
    }
}

/// A character of a text.
pub fn char_item(alloc: Global, text: &[char], index: Option<i128>) -> Result<Effect, OutOfMemory>
    ensures { IfOk result (λ m. m ≡ items.at_index (λ n. items.char_given (slice_get text.now n)) (length text.now) index) }
{
    match find_place(text.len(), index) {
        IndexPlace::Place(at) => char_given(alloc, text.get(at)),
        IndexPlace::Outside => out_of_range(alloc),
        IndexPlace::NoNumber => no_index(alloc),
    }
}

/// A number of a range.
pub fn range_item(
    alloc: Global,
    range: &RangeObj,
    index: Option<i128>,
) -> Result<Effect, OutOfMemory>
    ensures { IfOk result (λ m. m ≡ items.at_index (λ n. ranges.range_number range.now n) range.now.length index) }
{
    match find_place(range.length, index) {
        IndexPlace::Place(at) => range_number(alloc, range, at),
        IndexPlace::Outside => out_of_range(alloc),
        IndexPlace::NoNumber => no_index(alloc),
    }
}
