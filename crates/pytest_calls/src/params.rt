// `param`.

ghost use Rattle.std.specs.Prelude.{◌≡◌, IfOk};
ghost use Rattle.std.specs.List.{list_all};
ghost use Rattle.pytest_arguments.specs.Given as given;
ghost use Rattle.pytest_calls.specs.Params as params;

use call_products::product::{Product, plain};
use py_values::end::Effect;
use py_values::heap::Heap;
use py_values::object::{Obj, ParamObj};
use py_values::rows::Values;
use py_values::value::Value;
use py_values::{OutOfMemory, PyText};
use pytest_arguments::form::{Argument, bad, named_value};
use pytest_arguments::given::{no_other_than_text, text_given, values_copied};
use std::alloc::Global;

fn is_mark(heap: &Heap, v: Value) -> bool
    ensures { result ≡ params.is_mark heap.now v }
{
    let Value::Ref(id) = v else {
        return false;
    };
    match heap.get(id) {
        Some(Obj::Mark(_)) => true,
        _ => false,
    }
}

fn each_is_mark(heap: &Heap, values: &[Value]) -> bool
    ensures { result ≡ list_all (params.is_mark heap.now) values.now }
{
    values.iter().all(|v| is_mark(heap, *v))
}

/// Whether a value is a mark or a list of marks.
fn are_marks(heap: &Heap, v: Value) -> bool
    ensures { result ≡ params.are_marks heap.now v }
{
    let Value::Ref(id) = v else {
        return false;
    };
    match heap.get(id) {
        Some(Obj::Mark(_)) => true,
        Some(Obj::List(vs)) => each_is_mark(heap, vs.items()),
        _ => false,
    }
}

fn marks_or_none(heap: &Heap, v: Value) -> bool
    ensures { result ≡ given.unless_none (params.are_marks heap.now) v }
{
    match v {
        Value::None => true,
        Value::Bool(_) | Value::Int(_) | Value::Ref(_) => are_marks(heap, v),
    }
}

fn no_other_than_marks(heap: &Heap, v: Option<Value>) -> bool
    ensures { result ≡ given.if_given (given.unless_none (params.are_marks heap.now)) v }
{
    match v {
        Some(v) => marks_or_none(heap, v),
        None => true,
    }
}

fn marks_at(alloc: Global, heap: &Heap, v: Value) -> Result<Values, OutOfMemory>
    ensures { IfOk result (λ vs. vs ≡ params.marks_at heap.now v) }
{
    let Value::Ref(id) = v else {
        return Ok(Values::new(alloc));
    };
    match heap.get(id) {
        Some(Obj::Mark(_)) => values_copied(alloc, &[v]),
        Some(Obj::List(vs)) => values_copied(alloc, vs.items()),
        _ => Ok(Values::new(alloc)),
    }
}

fn marks_given(alloc: Global, heap: &Heap, v: Option<Value>) -> Result<Values, OutOfMemory>
    ensures { IfOk result (λ vs. vs ≡ params.marks_given heap.now v) }
{
    match v {
        Some(v) => marks_at(alloc, heap, v),
        None => Ok(Values::new(alloc)),
    }
}

/// The first argument that is bad.
#[tactic(auto, unfolding(crate::specs::Params::param_bad))]
fn param_bad(heap: &Heap, named: &[(PyText, Value)]) -> Option<Argument>
    ensures { result ≡ params.param_bad heap.now named.now }
{
    if !no_other_than_text(heap, named_value(Argument::Id, named)) {
        return Some(Argument::Id);
    }
    if !no_other_than_marks(heap, named_value(Argument::Marks, named)) {
        return Some(Argument::Marks);
    }
    None
}

#[tactic(auto, unfolding(crate::specs::Params::param_object))]
fn param_object(
    alloc: Global,
    heap: &Heap,
    args: &[Value],
    named: &[(PyText, Value)],
) -> Result<ParamObj, OutOfMemory>
    ensures { IfOk result (λ p. p ≡ params.param_object heap.now args.now named.now) }
{
    let values = values_copied(alloc, args)?;
    let id = text_given(alloc, heap, named_value(Argument::Id, named))?;
    let marks = marks_given(alloc, heap, named_value(Argument::Marks, named))?;
    Ok(ParamObj { values, id, marks })
}

/// A call of `param` whose form fits (pytest's reference, `pytest.param`).
pub(crate) fn param_called(
    alloc: Global,
    heap: &Heap,
    args: &[Value],
    named: &[(PyText, Value)],
) -> Result<Product, OutOfMemory>
    ensures { IfOk result (λ p. p ≡ params.param_called heap.now args.now named.now) }
{
    match param_bad(heap, named) {
        Some(argument) => bad(alloc, argument),
        None => {
            let param = param_object(alloc, heap, args, named)?;
            Ok(plain(alloc, Effect::New(Obj::Param(param), 0)))
        }
    }
}
