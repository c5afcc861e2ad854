// Decorators are applied.

ghost use Rattle.std.specs.Prelude.{◌≡◌, IfOk, reverse};
ghost use Rattle.py_world.specs.Definitions as world;
ghost use Rattle.machine_decorate.specs.Decorations.{all_told, decorated_told};

use crate::decoration::{Decoration, decoration_for, mark};
use py_values::heap::Heap;
use py_values::value::Value;
use seq::OutOfMemory;
use std::alloc::Global;

/// The value that a decorator makes of another; none where it refuses it.
fn decorate(
    alloc: Global,
    heap: &mut Heap,
    d: Value,
    v: Value,
) -> Result<Option<Value>, OutOfMemory>
    ensures { IfOk result (λ r. (r, heap.new) ≡ decorated_told (world.decoration heap.old d v) d v heap.old) }
{
    match decoration_for(alloc, heap, d, v)? {
        Decoration::Replaced(obj) => {
            let id = heap.add(obj)?;
            Ok(Some(Value::Ref(id)))
        }
        Decoration::Marked => {
            mark(heap, d, v)?;
            Ok(Some(v))
        }
        Decoration::Same => Ok(Some(v)),
        Decoration::Refused => Ok(None),
    }
}

/// The value that decorators make of another, applied from the last to the first; none where one refuses.
#[tactic(auto, using(crate::proofs::Applying::one_gives, crate::proofs::Applying::one_refuses))]
pub fn decorate_all(
    alloc: Global,
    heap: &mut Heap,
    ds: &[Value],
    v: Value,
) -> Result<Option<Value>, OutOfMemory>
    ensures { IfOk result (λ r. (r, heap.new) ≡ all_told (reverse ds.now) v heap.old) }
{
    let mut v = v;
    let mut at = ds.len();
    'down: while at > 0 {
        at -= 1;
        match decorate(alloc, heap, ds[at], v)? {
            Some(decorated) => v = decorated,
            None => return Ok(None),
        }
    }
    Ok(Some(v))
}
