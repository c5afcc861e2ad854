// Calls that ask of any object.

ghost use Rattle.std.specs.Prelude.{◌≡◌, IfOk};
ghost use Rattle.object_calls.specs.Calls as calls;

use crate::attributes::{getattr_asked, getattr_told, hasattr_asked, hasattr_told};
use crate::kinds::{answered, is_callable, isinstance_by};
use crate::reprs::text_made;
use call_products::arguments::{pair, sole};
use call_products::product::{Product, wrong};
use py_attributes::attributes::attribute_made;
use py_repr::repr::repr;
use py_values::builtin::ObjectCall;
use py_values::heap::Heap;
use py_values::limits::MOST_ELEMENTS;
use py_values::value::Value;
use py_values::{OutOfMemory, PyText};
use std::alloc::Global;

/// A call that asks of any object (Python library reference, built-in functions).
pub fn object_call(
    alloc: Global,
    heap: &Heap,
    which: ObjectCall,
    args: &[Value],
    named: &[(PyText, Value)],
) -> Result<Product, OutOfMemory>
    ensures { IfOk result (λ p. p ≡ calls.object_call_of which heap.now args.now named.now) }
{
    match which {
        ObjectCall::Callable => match sole(args, named) {
            Some(v) => Ok(answered(alloc, is_callable(heap, v))),
            None => wrong(alloc, "callable", 0),
        },
        ObjectCall::GetAttr => match getattr_asked(alloc, heap, args, named)? {
            Some(asked) => {
                let read = attribute_made(alloc, heap, asked.target, asked.name.chars())?;
                Ok(getattr_told(alloc, asked.other, read))
            }
            None => wrong(alloc, "getattr", 0),
        },
        ObjectCall::HasAttr => match hasattr_asked(alloc, heap, args, named)? {
            Some(asked) => {
                let read = attribute_made(alloc, heap, asked.target, asked.name.chars())?;
                let told = hasattr_told(alloc, &read);
                drop(read);
                Ok(told)
            }
            None => wrong(alloc, "hasattr", 0),
        },
        ObjectCall::IsInstance => isinstance_by(alloc, heap, pair(args, named)),
        ObjectCall::Repr => match sole(args, named) {
            Some(v) => text_made(alloc, repr(alloc, heap, v, MOST_ELEMENTS)?),
            None => wrong(alloc, "repr", 0),
        },
    }
}
