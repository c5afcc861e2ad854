// What is shown of a value: its repr, its text, and an exception's message.

ghost use Rattle.std.specs.Prelude.{◌≡◌, IfOk};
ghost use Rattle.py_repr.specs.Symbols.{shown};
ghost use Rattle.py_repr.specs.Repr.{repr_of, str_of, message_of};

use crate::shower::Shower;
use crate::shown::Shown;
use py_values::heap::Heap;
use py_values::limits::MOST_LEVELS;
use py_values::value::Value;
use seq::OutOfMemory;
use std::alloc::Global;

/// The first `most` characters of the repr of a value, in which each value past 100 levels is `...`.
pub fn repr(alloc: Global, heap: &Heap, v: Value, most: usize) -> Result<Shown, OutOfMemory>
    ensures { IfOk result (λ s. s ≡ shown most (repr_of heap.now v)) }
{
    let mut shower = Shower::new(alloc, most);
    shower.show_alone(heap, v, MOST_LEVELS)?;
    let shown = shower.into_shown()?;
    Ok(shown)
}

/// The first `most` characters of the text of a value.
pub fn str(alloc: Global, heap: &Heap, v: Value, most: usize) -> Result<Shown, OutOfMemory>
    ensures { IfOk result (λ s. s ≡ shown most (str_of heap.now v)) }
{
    let mut shower = Shower::new(alloc, most);
    shower.show_str(heap, v, MOST_LEVELS)?;
    let shown = shower.into_shown()?;
    Ok(shown)
}

/// The first `most` characters of the message of an exception.
pub fn message(alloc: Global, heap: &Heap, exc: Value, most: usize) -> Result<Shown, OutOfMemory>
    ensures { IfOk result (λ s. s ≡ shown most (message_of heap.now exc)) }
{
    str(alloc, heap, exc, most)
}
