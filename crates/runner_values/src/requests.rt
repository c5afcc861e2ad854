// What becomes of a request.

ghost use Rattle.std.specs.Prelude.{◌≡◌, Some, slice_get};
ghost use Rattle.py_values.specs.Changes.{changed};
ghost use Rattle.runner_values.specs.Requests as requests;

use py_values::heap::Heap;
use py_values::object::Obj;
use py_values::rows::Values;
use py_values::value::{ObjId, Value};

fn close(obj: &mut Obj)
    ensures { obj.new ≡ requests.with_request requests.closing obj.old }
{
    match obj {
        Obj::Request(request) => request.closed = true,
        _ => {}
    }
}

fn close_at(heap: &mut Heap, id: ObjId)
    ensures { heap.new ≡ changed (requests.with_request requests.closing) id.at heap.old (slice_get heap.old id.at) }
{
    if id.at < heap.len() {
        close(heap.obj_mut(id));
    }
}

/// Closes a request: every later `addfinalizer` on it raises. Another value is left as it is.
pub fn close_request(heap: &mut Heap, request: Value)
    ensures { heap.new ≡ requests.request_closed request heap.old }
{
    match request {
        Value::Ref(id) => close_at(heap, id),
        Value::None | Value::Bool(_) | Value::Int(_) => {}
    }
}

fn take_latest(finalizers: &mut Values) -> Option<Value>
    ensures latest { result ≡ requests.latest_finalizer finalizers.old }
    ensures left { finalizers.new ≡ requests.earlier_finalizers finalizers.old }
{
    let count = finalizers.items().len();
    if count == 0 {
        return None;
    }
    let latest = finalizers.items()[count - 1];
    finalizers.remove(count - 1);
    Some(latest)
}

fn take_from(obj: &mut Obj) -> Option<Value>
    ensures latest { result ≡ requests.latest_finalizer (requests.finalizers_in (Some obj.old)) }
    ensures left { obj.new ≡ requests.with_request requests.without_latest obj.old }
{
    match obj {
        Obj::Request(request) => take_latest(&mut request.finalizers),
        _ => None,
    }
}

fn take_at(heap: &mut Heap, id: ObjId) -> Option<Value>
    ensures latest { result ≡ requests.latest_finalizer (requests.finalizers_in (slice_get heap.old id.at)) }
    ensures left { heap.new ≡ changed (requests.with_request requests.without_latest) id.at heap.old (slice_get heap.old id.at) }
{
    if id.at >= heap.len() {
        return None;
    }
    take_from(heap.obj_mut(id))
}

/// Gives and removes a request's latest finalizer, where it has one. Another value has none, and is left as it is.
pub fn take_finalizer(heap: &mut Heap, request: Value) -> Option<Value>
    ensures { (result, heap.new) ≡ requests.finalizer_taken request heap.old }
{
    match request {
        Value::Ref(id) => take_at(heap, id),
        Value::None | Value::Bool(_) | Value::Int(_) => None,
    }
}
