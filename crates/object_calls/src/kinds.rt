// `isinstance` and `callable`.

ghost use Rattle.std.specs.Prelude.{◌≡◌, IfOk};
ghost use Rattle.std.specs.List.{list_all};
ghost use Rattle.object_calls.specs.Kinds as kinds;

use call_products::arguments::{pair, sole};
use call_products::product::{Product, plain, wrong};
use py_kinds::classes::is_a;
use py_values::end::Effect;
use py_values::heap::Heap;
use py_values::object::Obj;
use py_values::value::Value;
use py_values::{OutOfMemory, PyText};
use std::alloc::Global;

/// What answers a question.
pub(crate) fn answered(alloc: Global, answer: bool) -> Product
    ensures { result ≡ kinds.answered answer }
{
    plain(alloc, Effect::Give(Value::Bool(answer), 0))
}

fn is_class(heap: &Heap, v: Value) -> bool
    ensures { result ≡ kinds.is_class heap.now v }
{
    let Value::Ref(id) = v else {
        return false;
    };
    match heap.get(id) {
        Some(Obj::Class(_)) => true,
        _ => false,
    }
}

fn are_classes(heap: &Heap, values: &[Value]) -> bool
    ensures { result ≡ list_all (kinds.is_class heap.now) values.now }
{
    values.iter().all(|v| is_class(heap, *v))
}

/// Whether a value is a class or a tuple of classes.
fn names_classes(heap: &Heap, v: Value) -> bool
    ensures { result ≡ kinds.names_classes heap.now v }
{
    let Value::Ref(id) = v else {
        return false;
    };
    match heap.get(id) {
        Some(Obj::Class(_)) => true,
        Some(Obj::Tuple(items)) => are_classes(heap, items.items()),
        _ => false,
    }
}

/// Whether a value is of a class, or of one of a tuple of classes, which a call asks.
pub(crate) fn isinstance_by(
    alloc: Global,
    heap: &Heap,
    asked: Option<(Value, Value)>,
) -> Result<Product, OutOfMemory>
    ensures { IfOk result (λ p. p ≡ kinds.isinstance_by heap.now asked) }
{
    match asked {
        Some((v, class)) if names_classes(heap, class) => Ok(answered(alloc, is_a(heap, v, class))),
        _ => wrong(alloc, "isinstance", 0),
    }
}

pub(crate) fn is_callable(heap: &Heap, v: Value) -> bool
    ensures { result ≡ kinds.is_callable heap.now v }
{
    let Value::Ref(id) = v else {
        return false;
    };
    match heap.get(id) {
        Some(Obj::Function(_) | Obj::Method(_) | Obj::Builtin(_) | Obj::Class(_)) => true,
        Some(Obj::Mark(mark)) => !mark.called,
        _ => false,
    }
}
