// `repr`.

ghost use Rattle.std.specs.Prelude.{◌≡◌, IfOk};
ghost use Rattle.object_calls.specs.Reprs as reprs;

use call_products::arguments::sole;
use call_products::product::{Product, failed, plain, wrong};
use py_repr::shown::Shown;
use py_values::class::ExcClass;
use py_values::end::Effect;
use py_values::heap::Heap;
use py_values::limits::MOST_ELEMENTS;
use py_values::object::Obj;
use py_values::value::Value;
use py_values::{OutOfMemory, PyText};
use std::alloc::Global;

pub(crate) fn text_made(alloc: Global, shown: Shown) -> Result<Product, OutOfMemory>
    ensures { IfOk result (λ p. p ≡ reprs.text_made shown) }
{
    let Shown { text, cut, deep } = shown;
    if deep {
        return failed(alloc, ExcClass::RecursionError, "nesting too deep", 0);
    }
    if cut {
        return failed(alloc, ExcClass::MemoryError, "sequence too long", 0);
    }
    let len = text.chars().len() as u64;
    Ok(plain(alloc, Effect::New(Obj::Text(text), len)))
}
