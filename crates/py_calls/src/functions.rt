// Calls of the built-in functions and classes but `print`.

ghost use Rattle.std.specs.Prelude.{◌≡◌, IfOk};
ghost use Rattle.py_calls.specs.Functions as functions;

use crate::made::TextResult;
use crate::text::text_of;
use call_products::product::{Product, plain, wrong};
use py_kinds::length::length_of;
use py_operands::faults::not_iterable;
use py_values::OutOfMemory;
use py_values::end::Effect;
use py_values::heap::Heap;
use py_values::object::Obj;
use py_values::value::Value;
use std::alloc::Global;

/// A call of `str`, with its one argument.
pub(crate) fn str_made(
    alloc: Global,
    heap: &Heap,
    arg: Option<Value>,
) -> Result<Product, OutOfMemory>
    ensures { IfOk result (λ p. p ≡ functions.str_made heap.now arg) }
{
    let Some(v) = arg else {
        return wrong(alloc, "str", 0);
    };
    match text_of(alloc, heap, v)? {
        TextResult::Text(text) => {
            let len = text.chars().len() as u64;
            Ok(plain(alloc, Effect::New(Obj::Text(text), len)))
        }
        TextResult::Refused(raise) => Ok(plain(alloc, Effect::Fail(raise, 0))),
    }
}

/// A call of `len`, with its one argument.
pub(crate) fn len_made(
    alloc: Global,
    heap: &Heap,
    arg: Option<Value>,
) -> Result<Product, OutOfMemory>
    ensures { IfOk result (λ p. p ≡ functions.len_made heap.now arg) }
{
    let Some(v) = arg else {
        return wrong(alloc, "len", 0);
    };
    match length_of(heap, v) {
        Some(len) => Ok(plain(alloc, Effect::Give(Value::Int(len as i128), 0))),
        None => {
            let raise = not_iterable(alloc, heap, v)?;
            Ok(plain(alloc, Effect::Fail(raise, 0)))
        }
    }
}
