// Adding an object that the runner gives.

ghost use Rattle.std.specs.Prelude.{◌≡◌, ◌++◌, ◌∷◌, [], IfOk};
ghost use Rattle.runner_values.specs.Given.{IsGiven, NamesClass};

use crate::new::New;
use py_values::class::ExcClass;
use py_values::end::Raise;
use py_values::heap::Heap;
use py_values::names::Names;
use py_values::object::{InstanceObj, ItemObj, Obj, RequestObj};
use py_values::rows::Values;
use py_values::throw::throw;
use py_values::value::Value;
use seq::{OutOfMemory, PyText};
use std::alloc::Global;

fn copied(alloc: Global, text: &PyText) -> Result<PyText, OutOfMemory>
    ensures { IfOk result (λ t. t ≡ text.now) }
{
    PyText::from_chars(alloc, text.chars())
}

fn copied_if(alloc: Global, text: &Option<PyText>) -> Result<Option<PyText>, OutOfMemory>
    ensures { IfOk result (λ t. t ≡ text.now) }
{
    match text {
        Some(text) => Ok(Some(copied(alloc, text)?)),
        None => Ok(None),
    }
}

fn put(heap: &mut Heap, obj: Obj) -> Result<Value, OutOfMemory>
    ensures { IfOk result (λ v. (v, heap.new) ≡ added_object obj heap.old) }
{
    let id = heap.add(obj)?;
    Ok(Value::Ref(id))
}

ghost use Rattle.runner_values.specs.Given.{added_object};

fn put_exception(
    alloc: Global,
    heap: &mut Heap,
    class: ExcClass,
    text: &PyText,
) -> Result<Value, OutOfMemory>
    ensures { IfOk result (λ v. (v, heap.new) ≡ thrown (text_raise class text.now) heap.old) }
{
    let raise = Raise {
        class,
        text: copied(alloc, text)?,
        arg: None,
    };
    throw(alloc, heap, raise)
}

ghost use Rattle.py_values.specs.Raises.{text_raise, thrown};

fn put_instance(alloc: Global, heap: &mut Heap, class: Value) -> Result<Value, OutOfMemory>
    requires { NamesClass heap.old class }
    ensures { IfOk result (λ v. IsInstance class v heap.old heap.new) }
{
    match class {
        Value::Ref(class) => {
            let names = Names::new(alloc);
            put(heap, Obj::Instance(InstanceObj { class, names }))
        }
        Value::None | Value::Bool(_) | Value::Int(_) => unreachable!(),
    }
}

ghost use Rattle.runner_values.specs.Given.{IsInstance};

fn request(
    alloc: Global,
    name: &Option<PyText>,
    scope: &PyText,
    param: Option<Value>,
) -> Result<Obj, OutOfMemory>
    ensures { IfOk result (λ o. o ≡ open_request name.now scope.now param) }
{
    Ok(Obj::Request(RequestObj {
        name: copied_if(alloc, name)?,
        scope: copied(alloc, scope)?,
        param,
        finalizers: Values::new(alloc),
        closed: false,
    }))
}

ghost use Rattle.runner_values.specs.Given.{open_request};

fn item(alloc: Global, name: &PyText, node_id: &PyText) -> Result<Obj, OutOfMemory>
    ensures { IfOk result (λ o. o ≡ test_item name.now node_id.now) }
{
    Ok(Obj::Item(ItemObj {
        name: copied(alloc, name)?,
        node_id: copied(alloc, node_id)?,
    }))
}

ghost use Rattle.runner_values.specs.Given.{test_item};

/// Adds the object that is described, and gives it. Behind want of memory the heap may have objects more.
pub fn add(alloc: Global, heap: &mut Heap, new: &New) -> Result<Value, OutOfMemory>
    requires { ClassIsThere new.now heap.old }
    ensures { IfOk result (λ v. IsGiven new.now v heap.old heap.new) }
{
    match new {
        New::Text(text) => {
            let text = copied(alloc, text)?;
            put(heap, Obj::Text(text))
        }
        New::List(vs) => {
            let vs = Vec::from_slice(alloc, vs)?;
            put(heap, Obj::List(Values::from_vec(vs)))
        }
        New::Exception(class, text) => put_exception(alloc, heap, *class, text),
        New::Request { name, scope, param } => {
            let obj = request(alloc, name, scope, *param)?;
            put(heap, obj)
        }
        New::Item { name, nodeid } => {
            let obj = item(alloc, name, nodeid)?;
            put(heap, obj)
        }
        New::Instance(class) => put_instance(alloc, heap, *class),
    }
}

ghost use Rattle.runner_values.specs.Given.{ClassIsThere};
