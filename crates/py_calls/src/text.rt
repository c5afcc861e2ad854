// Texts of values.

ghost use Rattle.std.specs.Prelude.{◌≡◌, IfOk};
ghost use Rattle.py_calls.specs.Texts as texts;

use crate::made::TextResult;
use py_repr::repr::str;
use py_repr::shown::Shown;
use py_values::OutOfMemory;
use py_values::class::ExcClass;
use py_values::end::{Raise, push_ascii};
use py_values::heap::Heap;
use py_values::limits::MOST_ELEMENTS;
use py_values::value::Value;
use std::alloc::Global;

/// The error that the arguments don't fit the call of a name.
pub fn wrong(alloc: Global, name: &str) -> Result<Raise, OutOfMemory>
    ensures { IfOk result (λ r. r ≡ texts.wrong name.now) }
{
    let mut text = Vec::new(alloc);
    push_ascii(&mut text, "wrong arguments for ")?;
    push_ascii(&mut text, name)?;
    Raise::from_chars(alloc, ExcClass::TypeError, &text)
}

fn text_by(alloc: Global, shown: Shown) -> Result<TextResult, OutOfMemory>
    ensures { IfOk result (λ t. t ≡ texts.text_by shown) }
{
    let Shown { text, cut, deep } = shown;
    if deep {
        let raise = Raise::from_ascii(alloc, ExcClass::RecursionError, "nesting too deep")?;
        return Ok(TextResult::Refused(raise));
    }
    if cut {
        let raise = Raise::from_ascii(alloc, ExcClass::MemoryError, "sequence too long")?;
        return Ok(TextResult::Refused(raise));
    }
    Ok(TextResult::Text(text))
}

/// The text of a value.
#[tactic(auto, unfolding(crate::specs::Texts::text_of))]
pub fn text_of(alloc: Global, heap: &Heap, v: Value) -> Result<TextResult, OutOfMemory>
    ensures { IfOk result (λ t. t ≡ texts.text_of heap.now v) }
{
    let shown = str(alloc, heap, v, MOST_ELEMENTS)?;
    text_by(alloc, shown)
}
