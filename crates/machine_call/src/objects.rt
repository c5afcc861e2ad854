// Calls of objects that are no classes of the sources or of exceptions.

ghost use Rattle.std.specs.Prelude.{◌≡◌, ◌≤◌, IfOk, slice_get};
ghost use Rattle.py_kinds.specs.Kinds.{kind_name};
ghost use Rattle.py_values.specs.declared.value.Value.TheVariants as val;
ghost use Rattle.machine_state.specs.py_world.Calls as world;
ghost use Rattle.machine_state.specs.py_world.Outcome.{call_end, raised};
ghost use Rattle.machine_state.specs.core_meaning.Statements.{entry};
ghost use Rattle.machine_state.specs.Places.{arguments_in};
ghost use Rattle.machine_state.specs.Frames.{around_by, machine_rest, state_of, Follows};
ghost use Rattle.machine_call.specs.Depth.{Ready};
ghost use Rattle.machine_call.specs.Called.{call_by, function_or, object_called};
ghost use Rattle.machine_call.specs.Called as calls;

use crate::builtins::{call_builtin, call_mark, call_received, uncalled_mark};
use crate::enter::{invoke_code, not_callable};
use machine_arguments::arguments::{arguments_for, with_receiver};
use machine_state::arguments::CallArguments;
use machine_state::locals::Locals;
use machine_state::machine::{Machine, Origin, TurnEnd};
use py_values::class::ClassForm;
use py_values::end::Raise;
use py_values::heap::Heap;
use py_values::object::{FunctionObj, Obj};
use py_values::value::{ObjId, Value};
use seq::OutOfMemory;
use std::alloc::Global;

/// A function that is called: the number of its code, and its local names or what is raised in their place.
#[derive(Drop)]
pub struct CodeCall {
    pub at: usize,
    pub names: Result<Locals, Raise>,
}

/// A function with arguments.
fn code_call(
    alloc: Global,
    function: &FunctionObj,
    args: &CallArguments,
) -> Result<CodeCall, OutOfMemory>
    ensures { IfOk result (λ call. call ≡ calls.code_call function.now (arguments_in args.now)) }
{
    let at = function.code;
    let names = arguments_for(alloc, function, args)?;
    Ok(CodeCall { at, names })
}

/// The function at a place, with arguments.
fn function_call(
    alloc: Global,
    heap: &Heap,
    function: ObjId,
    args: &CallArguments,
) -> Result<Option<CodeCall>, OutOfMemory>
    ensures { IfOk result (λ call. call ≡ call_by (world.function_of_object (slice_get heap.now function.at)) (arguments_in args.now)) }
{
    match heap.get(function) {
        Some(Obj::Function(found)) => Ok(Some(code_call(alloc, found, args)?)),
        Some(
            Obj::Text(_)
            | Obj::List(_)
            | Obj::Tuple(_)
            | Obj::Dict(_)
            | Obj::Range(_)
            | Obj::Method(_)
            | Obj::Builtin(_)
            | Obj::Class(_)
            | Obj::Instance(_)
            | Obj::Exception(_)
            | Obj::Module(_)
            | Obj::Fixture(_)
            | Obj::MarkMaker
            | Obj::Mark(_)
            | Obj::Hook(_)
            | Obj::Param(_)
            | Obj::Request(_)
            | Obj::Raises(_)
            | Obj::Info(_)
            | Obj::Item(_),
        )
        | None => Ok(None),
    }
}

/// Calls the function at a place; where there is none, the callee can't be called.
#[tactic(auto, using(crate::proofs::Calling::function_goes, crate::proofs::Calling::no_function_goes))]
pub(crate) fn call_function(
    m: &mut Machine,
    callee: Value,
    function: ObjId,
    args: &CallArguments,
    origin: Origin,
) -> Result<TurnEnd, OutOfMemory>
    requires { Ready origin m.old }
    ensures next { IfOk result (λ t. Follows t m.new m.old.left (function_or (world.function_of_object (slice_get m.old.heap function.at)) (world.not_callable (kind_name m.old.heap callee)) (arguments_in args.now) (around_by origin m.old) (state_of m.old) (λ o. machine_rest m.old (call_end (state_of m.old) o)))) }
    ensures left { m.new.left ≤ m.old.left }
{
    match function_call(m.alloc, &m.heap, function, args)? {
        Some(call) => invoke_code(m, callee, call.at, call.names, origin),
        None => Ok(TurnEnd::Go(not_callable(m, callee, origin)?)),
    }
}

/// Calls the function at a place with a value before the arguments.
#[tactic(auto, using(crate::proofs::Calling::with_goes))]
pub(crate) fn call_with(
    m: &mut Machine,
    callee: Value,
    function: ObjId,
    first: Value,
    args: &CallArguments,
    origin: Origin,
) -> Result<TurnEnd, OutOfMemory>
    requires { Ready origin m.old }
    ensures next { IfOk result (λ t. Follows t m.new m.old.left (world.function_with entry (world.function_of_object (slice_get m.old.heap function.at)) first (world.not_callable (kind_name m.old.heap callee)) (arguments_in args.now) (around_by origin m.old) (state_of m.old) (λ o. machine_rest m.old (call_end (state_of m.old) o)))) }
    ensures left { m.new.left ≤ m.old.left }
{
    let all = with_receiver(m.alloc, first, args)?;
    call_function(m, callee, function, &all, origin)
}

/// Calls a class of a built-in kind, which is called like a built-in function.
fn call_kind(
    m: &mut Machine,
    callee: Value,
    form: ClassForm,
    args: &CallArguments,
    origin: Origin,
) -> Result<TurnEnd, OutOfMemory>
    ensures next { IfOk result (λ t. Follows t m.new m.old.left (world.class_or entry form (arguments_in args.now) (around_by origin m.old) (state_of m.old) (λ o. machine_rest m.old (call_end (state_of m.old) o))
        (machine_rest m.old (call_end (state_of m.old) (raised (world.not_callable (kind_name m.old.heap callee)) (around_by origin m.old).trace (state_of m.old)))))) }
    ensures left { m.new.left ≤ m.old.left }
{
    match form {
        ClassForm::Kind(which) => call_builtin(m, which, &args.plain, &args.named, origin),
        ClassForm::Source => Ok(TurnEnd::Go(not_callable(m, callee, origin)?)),
        ClassForm::Exception(_) => Ok(TurnEnd::Go(not_callable(m, callee, origin)?)),
    }
}

/// Calls an object that is no class of the sources or of exceptions (Language Reference, calls).
#[tactic(auto, using(crate::proofs::Calling::uncalled_goes))]
pub(crate) fn call_object(
    m: &mut Machine,
    id: ObjId,
    args: &CallArguments,
    origin: Origin,
) -> Result<TurnEnd, OutOfMemory>
    requires { Ready origin m.old }
    ensures next { IfOk result (λ t. Follows t m.new m.old.left (object_called (slice_get m.old.heap id.at) (world.not_callable (kind_name m.old.heap (val.Ref id))) (arguments_in args.now) (around_by origin m.old) (state_of m.old) (λ o. machine_rest m.old (call_end (state_of m.old) o)))) }
    ensures left { m.new.left ≤ m.old.left }
{
    let callee = Value::Ref(id);
    match m.heap.get(id) {
        Some(Obj::Function(_)) => call_function(m, callee, id, args, origin),
        Some(Obj::Method(method)) => {
            let method = *method;
            call_with(m, callee, method.function, method.receiver, args, origin)
        }
        Some(Obj::Builtin(builtin)) => {
            let builtin = *builtin;
            call_received(m, builtin, args, origin)
        }
        Some(Obj::Class(class)) => {
            let form = class.form;
            call_kind(m, callee, form, args, origin)
        }
        Some(Obj::Mark(mark)) => {
            let product = uncalled_mark(m.alloc, &m.heap, mark, args)?;
            call_mark(m, callee, product, origin)
        }
        Some(
            Obj::Text(_)
            | Obj::List(_)
            | Obj::Tuple(_)
            | Obj::Dict(_)
            | Obj::Range(_)
            | Obj::Instance(_)
            | Obj::Exception(_)
            | Obj::Module(_)
            | Obj::Fixture(_)
            | Obj::MarkMaker
            | Obj::Hook(_)
            | Obj::Param(_)
            | Obj::Request(_)
            | Obj::Raises(_)
            | Obj::Info(_)
            | Obj::Item(_),
        )
        | None => Ok(TurnEnd::Go(not_callable(m, callee, origin)?)),
    }
}
