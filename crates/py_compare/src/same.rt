// Identity.

ghost use Rattle.std.specs.Prelude.{◌≡◌, slice_get, eqb};
ghost use Rattle.py_compare.specs.Same as same;

use py_values::heap::Heap;
use py_values::object::Obj;
use py_values::value::{ObjId, Value};

fn same_objs(heap: &Heap, i: ObjId, j: ObjId) -> bool
    ensures { result ≡ same.same_objs (eqb i.at j.at) (slice_get heap.now i.at) (slice_get heap.now j.at) }
{
    match (heap.get(i), heap.get(j)) {
        (Some(Obj::Text(a)), Some(Obj::Text(b))) => a.chars() == b.chars(),
        _ => i.at == j.at,
    }
}

/// Whether two values are the same (Language Reference, identity comparisons).
pub fn is_same(heap: &Heap, a: Value, b: Value) -> bool
    ensures { result ≡ same.is_same heap.now a b }
{
    match (a, b) {
        (Value::None, Value::None) => true,
        (Value::Bool(x), Value::Bool(y)) => x == y,
        (Value::Int(x), Value::Int(y)) => x == y,
        (Value::Ref(i), Value::Ref(j)) => same_objs(heap, i, j),
        _ => false,
    }
}
