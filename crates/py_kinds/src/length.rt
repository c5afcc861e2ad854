// How many elements an object has.

ghost use Rattle.std.specs.Prelude.{◌≡◌, option_copied};
ghost use Rattle.py_kinds.specs.Lengths as lengths;

use py_values::heap::Heap;
use py_values::object::Obj;
use py_values::value::Value;

/// How many elements an object has; none has what isn't a text, list, tuple, dict or range.
pub fn obj_length(obj: Option<&Obj>) -> Option<usize>
    ensures { result ≡ lengths.obj_length (option_copied obj.entry) }
{
    match obj {
        Some(Obj::Text(t)) => Some(t.chars().len()),
        Some(Obj::List(vs) | Obj::Tuple(vs)) => Some(vs.items().len()),
        Some(Obj::Dict(d)) => Some(d.len()),
        Some(Obj::Range(r)) => Some(r.length),
        Some(
            Obj::Function(_)
            | Obj::Method(_)
            | Obj::Builtin(_)
            | Obj::Class(_)
            | Obj::Instance(_)
            | Obj::Exception(_)
            | Obj::Module(_)
            | Obj::Fixture(_)
            | Obj::MarkMaker
            | Obj::Mark(_)
            | Obj::Hook(_)
            | Obj::Param(_)
            | Obj::Request(_)
            | Obj::Raises(_)
            | Obj::Info(_)
            | Obj::Item(_),
        )
        | None => None,
    }
}

/// How many elements a value has.
#[tactic(auto, unfolding(crate::specs::Lengths::length_of))]
pub fn length_of(heap: &Heap, v: Value) -> Option<usize>
    ensures { result ≡ lengths.length_of heap.now v }
{
    match v {
        Value::Ref(id) => obj_length(heap.get(id)),
        Value::None | Value::Bool(_) | Value::Int(_) => None,
    }
}
