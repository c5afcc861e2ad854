// The functions of `pytest`, and `request.addfinalizer`.

ghost use Rattle.std.specs.Prelude.{◌≡◌, IfOk};
ghost use Rattle.pytest_calls.specs.Calls as calls;
ghost use Rattle.pytest_calls.specs.Finalizers as finalizers;

use crate::fixtures::fixture_called;
use crate::hooks::hookimpl_called;
use crate::params::param_called;
use crate::raising::{outcome_called, raises_called};
use call_products::arguments::pair;
use call_products::product::{Product, failed, plain, wrong};
use py_kinds::builtins::pytest_call_name;
use py_values::builtin::PytestCall;
use py_values::change::Change;
use py_values::class::ExcClass;
use py_values::end::Effect;
use py_values::heap::Heap;
use py_values::object::{Obj, RequestObj};
use py_values::value::{ObjId, Value};
use py_values::{OutOfMemory, PyText};
use pytest_arguments::form::function_fits;
use pytest_arguments::given::values_copied;
use std::alloc::Global;

fn pytest_fitting(
    alloc: Global,
    heap: &Heap,
    which: PytestCall,
    args: &[Value],
    named: &[(PyText, Value)],
) -> Result<Product, OutOfMemory>
    ensures { IfOk result (λ p. p ≡ calls.pytest_fitting which heap.now args.now named.now) }
{
    match which {
        PytestCall::Fail => outcome_called(alloc, ExcClass::Failed, heap, args),
        PytestCall::Fixture => fixture_called(alloc, heap, named),
        PytestCall::HookImpl => hookimpl_called(alloc, named),
        PytestCall::Param => param_called(alloc, heap, args, named),
        PytestCall::Raises => raises_called(alloc, heap, args, named),
        PytestCall::Skip => outcome_called(alloc, ExcClass::Skipped, heap, args),
    }
}

/// What a call of a function of `pytest` makes (pytest's reference, functions).
#[tactic(auto, unfolding(crate::specs::Calls::pytest_called))]
pub fn pytest_called(
    alloc: Global,
    heap: &Heap,
    which: PytestCall,
    args: &[Value],
    named: &[(PyText, Value)],
) -> Result<Product, OutOfMemory>
    ensures { IfOk result (λ p. p ≡ calls.pytest_called which heap.now args.now named.now) }
{
    if function_fits(which, args, named) {
        pytest_fitting(alloc, heap, which, args, named)
    } else {
        wrong(alloc, pytest_call_name(which), 0)
    }
}

/// A request with a finalizer more.
fn with_finalizer(alloc: Global, request: &RequestObj, v: Value) -> Result<RequestObj, OutOfMemory>
    ensures { IfOk result (λ r. r ≡ finalizers.with_finalizer request.now v) }
{
    let name = match &request.name {
        Some(name) => Some(PyText::from_chars(alloc, name.chars())?),
        None => None,
    };
    let scope = PyText::from_chars(alloc, request.scope.chars())?;
    let mut finalizers = values_copied(alloc, request.finalizers.items())?;
    finalizers.push(v)?;
    Ok(RequestObj {
        name,
        scope,
        param: request.param,
        finalizers,
        closed: request.closed,
    })
}

fn finalizer_added(
    alloc: Global,
    id: ObjId,
    request: &RequestObj,
    v: Value,
) -> Result<Product, OutOfMemory>
    ensures { IfOk result (λ p. p ≡ finalizers.finalizer_added id request.now v) }
{
    if request.closed {
        return failed(alloc, ExcClass::RuntimeError, "fixture is torn down", 0);
    }
    let request = with_finalizer(alloc, request, v)?;
    let change = Change::Whole(Obj::Request(request));
    Ok(plain(alloc, Effect::Put(id, change, Value::None, 0)))
}

fn finalizer_of(alloc: Global, heap: &Heap, target: Value, v: Value) -> Result<Product, OutOfMemory>
    ensures { IfOk result (λ p. p ≡ finalizers.finalizer_of heap.now target v) }
{
    let Value::Ref(id) = target else {
        return wrong(alloc, "addfinalizer", 0);
    };
    match heap.get(id) {
        Some(Obj::Request(request)) => finalizer_added(alloc, id, request, v),
        _ => wrong(alloc, "addfinalizer", 0),
    }
}

/// What a call of `addfinalizer` makes (pytest's reference, `FixtureRequest.addfinalizer`); the request is the first of its arguments.
#[tactic(auto, unfolding(crate::specs::Calls::addfinalizer_called))]
pub fn addfinalizer_called(
    alloc: Global,
    heap: &Heap,
    args: &[Value],
    named: &[(PyText, Value)],
) -> Result<Product, OutOfMemory>
    ensures { IfOk result (λ p. p ≡ calls.addfinalizer_called heap.now args.now named.now) }
{
    match pair(args, named) {
        Some((target, v)) => finalizer_of(alloc, heap, target, v),
        None => wrong(alloc, "addfinalizer", 0),
    }
}
