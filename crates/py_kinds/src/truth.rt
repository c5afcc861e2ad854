// Truth.

ghost use Rattle.std.specs.Prelude.{◌≡◌, option_copied};
ghost use Rattle.py_kinds.specs.Truth as holds;

use py_values::heap::Heap;
use py_values::object::Obj;
use py_values::value::Value;

/// Whether a value is true (Language Reference, truth value testing).
#[tactic(auto, unfolding(crate::specs::Truth::truth))]
pub fn truth(heap: &Heap, v: Value) -> bool
    ensures { result ≡ holds.truth heap.now v }
{
    match v {
        Value::None => false,
        Value::Bool(b) => b,
        Value::Int(n) => n != 0,
        Value::Ref(id) => obj_truth(heap.get(id)),
    }
}

fn obj_truth(obj: Option<&Obj>) -> bool
    ensures { result ≡ holds.obj_truth (option_copied obj.entry) }
{
    match obj {
        Some(Obj::Text(t)) => !t.chars().is_empty(),
        Some(Obj::List(vs) | Obj::Tuple(vs)) => !vs.items().is_empty(),
        Some(Obj::Dict(d)) => d.len() != 0,
        Some(Obj::Range(r)) => r.length != 0,
        Some(
            Obj::Function(_)
            | Obj::Method(_)
            | Obj::Builtin(_)
            | Obj::Class(_)
            | Obj::Instance(_)
            | Obj::Exception(_)
            | Obj::Module(_)
            | Obj::Fixture(_)
            | Obj::MarkMaker
            | Obj::Mark(_)
            | Obj::Hook(_)
            | Obj::Param(_)
            | Obj::Request(_)
            | Obj::Raises(_)
            | Obj::Info(_)
            | Obj::Item(_),
        )
        | None => true,
    }
}
