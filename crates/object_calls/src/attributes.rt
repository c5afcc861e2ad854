// `getattr` and `hasattr`.

ghost use Rattle.std.specs.Prelude.{◌≡◌, IfOk, option_copied};
ghost use Rattle.object_calls.specs.Attributes as attributes;

use crate::kinds::answered;
use call_products::arguments::pair;
use call_products::product::{Product, plain};
use py_operands::texts::text_of;
use py_values::end::Effect;
use py_values::heap::Heap;
use py_values::value::Value;
use py_values::{OutOfMemory, PyText};
use std::alloc::Global;

/// What a call asks for: a value's attribute of a name, and what is given where there is none.
#[derive(Drop)]
pub struct AttributeQuery {
    pub target: Value,
    pub name: PyText,
    pub other: Option<Value>,
}

fn asked_by(
    alloc: Global,
    target: Value,
    other: Option<Value>,
    name: Option<&PyText>,
) -> Result<Option<AttributeQuery>, OutOfMemory>
    ensures { IfOk result (λ o. o ≡ attributes.asked_by target other (option_copied name.entry)) }
{
    match name {
        Some(name) => {
            let name = PyText::from_chars(alloc, name.chars())?;
            Ok(Some(AttributeQuery {
                target,
                name,
                other,
            }))
        }
        None => Ok(None),
    }
}

/// What a call of `getattr` asks for (Python library reference, built-in functions); where it asks for nothing, its arguments are wrong.
pub fn getattr_asked(
    alloc: Global,
    heap: &Heap,
    args: &[Value],
    named: &[(PyText, Value)],
) -> Result<Option<AttributeQuery>, OutOfMemory>
    ensures { IfOk result (λ o. o ≡ attributes.getattr_asked heap.now args.now named.now) }
{
    match (args, named) {
        ([v, name], []) => asked_by(alloc, *v, None, text_of(heap, *name)),
        ([v, name, other], []) => asked_by(alloc, *v, Some(*other), text_of(heap, *name)),
        _ => Ok(None),
    }
}

/// What a call of `hasattr` asks for (Python library reference, built-in functions); where it asks for nothing, its arguments are wrong.
pub fn hasattr_asked(
    alloc: Global,
    heap: &Heap,
    args: &[Value],
    named: &[(PyText, Value)],
) -> Result<Option<AttributeQuery>, OutOfMemory>
    ensures { IfOk result (λ o. o ≡ attributes.hasattr_asked heap.now args.now named.now) }
{
    match pair(args, named) {
        Some((v, name)) => asked_by(alloc, v, None, text_of(heap, name)),
        None => Ok(None),
    }
}

/// What `getattr` gives, told what was read.
pub fn getattr_told(alloc: Global, other: Option<Value>, read: Effect) -> Product
    ensures { result ≡ attributes.getattr_told other read }
{
    match (other, read) {
        (Some(v), Effect::Fail(_, cost)) => plain(alloc, Effect::Give(v, cost)),
        (_, read) => plain(alloc, read),
    }
}

/// What `hasattr` gives, told what was read.
pub fn hasattr_told(alloc: Global, read: &Effect) -> Product
    ensures { result ≡ attributes.hasattr_told read.now }
{
    let there = match read {
        Effect::Give(_, _) | Effect::New(_, _) | Effect::Put(_, _, _, _) => true,
        Effect::Fail(_, _) => false,
    };
    answered(alloc, there)
}
