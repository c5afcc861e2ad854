// What begins where the runner begins a value.

ghost use Rattle.std.specs.Prelude.{◌≡◌, ◌∷◌, [], List, IfOk, false, slice_get};
ghost use Rattle.py_values.specs.declared.value.Value.{Value};
ghost use Rattle.lower_law.specs.py_world.Calls as calls;
ghost use Rattle.lower_law.specs.py_world.Resuming as resuming;
ghost use Rattle.lower_law.specs.py_world.Runs as runs;
ghost use Rattle.lower_law.specs.py_world.Site as site;
ghost use Rattle.lower_law.specs.core_meaning.Meaning.{core};
ghost use Rattle.machine_state.specs.Places.{CoreState};
ghost use Rattle.machine_state.specs.Frames.{world_of};
ghost use Rattle.machine_runner.specs.Openings.{opening_rest};

use crate::misfit::{Misfit, frame_of};
use machine_arguments::arguments::{fitting, with_first};
use machine_state::code::Code;
use machine_state::locals::Locals;
use machine_state::machine::Machine;
use py_values::object::{FunctionObj, MethodObj, Obj};
use py_values::value::{ObjId, Value};
use seq::OutOfMemory;
use std::alloc::Global;

/// What begins.
#[derive(Drop)]
pub enum Opening {
    /// The body of a yield function, with its names.
    Body(Code, Locals),
    /// A yield function whose arguments don't fit.
    Refused(Misfit),
    /// A call.
    Call,
}

/// The beginning of the body of a yield function.
fn body_opening(
    alloc: Global,
    code: Code,
    function: &FunctionObj,
    args: &[Value],
) -> Result<Opening, OutOfMemory>
    ensures { IfOk result (λ x. (f : Value) (given : List Value) (s : CoreState) → resuming.body_begun core code (resuming.begin_arguments function.now args.now) (site.frame function.now.path function.now.line function.now.name ∷ []) s ≡ opening_rest x f given s) }
{
    let none = Locals::new(alloc);
    match fitting(alloc, function, args, &none)? {
        Ok(names) => Ok(Opening::Body(code, names)),
        Err(raise) => {
            drop(code);
            let trace = frame_of(alloc, function)?;
            Ok(Opening::Refused(Misfit { raise, trace }))
        }
    }
}

/// The beginning of a yield function.
fn yield_opening(
    m: &Machine,
    function: &FunctionObj,
    args: &[Value],
) -> Result<Opening, OutOfMemory>
    requires { function.now.yields ≡ true }
    ensures { IfOk result (λ x. (f : Value) (given : List Value) (s : CoreState) → resuming.function_opened core (slice_get m.now.codes.items function.now.code) function.now args.now f given s ≡ opening_rest x f given s) }
{
    match m.codes.get(function.code) {
        Some(code) => {
            let code = code.share()?;
            body_opening(m.alloc, code, function, args)
        }
        None => Ok(Opening::Call),
    }
}

ghost use Rattle.std.specs.Prelude.{true};

/// The beginning of a function.
#[tactic(auto, using(crate::proofs::Opened::called_plainly))]
fn function_opening(
    m: &Machine,
    function: &FunctionObj,
    args: &[Value],
) -> Result<Opening, OutOfMemory>
    ensures { IfOk result (λ x. (f : Value) (given : List Value) (s : CoreState) → resuming.function_opened core (slice_get m.now.codes.items function.now.code) function.now args.now f given s ≡ opening_rest x f given s) }
{
    if function.yields {
        yield_opening(m, function, args)
    } else {
        Ok(Opening::Call)
    }
}

/// The beginning of a method.
fn method_opening(m: &Machine, method: &MethodObj, args: &[Value]) -> Result<Opening, OutOfMemory>
    ensures { IfOk result (λ x. (f : Value) (given : List Value) → resuming.object_opened core (runs.with_args (method.now.receiver ∷ args.now) (calls.function_of_object (slice_get m.now.heap method.now.function.at))) f given (runs.start (world_of m.now)) ≡ opening_rest x f given (runs.start (world_of m.now))) }
{
    match m.heap.get(method.function) {
        Some(Obj::Function(function)) => {
            let all = with_first(m.alloc, method.receiver, args)?;
            function_opening(m, function, &all)
        }
        Some(
            Obj::Text(_)
            | Obj::List(_)
            | Obj::Tuple(_)
            | Obj::Dict(_)
            | Obj::Range(_)
            | Obj::Method(_)
            | Obj::Builtin(_)
            | Obj::Class(_)
            | Obj::Instance(_)
            | Obj::Exception(_)
            | Obj::Module(_)
            | Obj::Fixture(_)
            | Obj::MarkMaker
            | Obj::Mark(_)
            | Obj::Hook(_)
            | Obj::Param(_)
            | Obj::Request(_)
            | Obj::Raises(_)
            | Obj::Info(_)
            | Obj::Item(_),
        )
        | None => Ok(Opening::Call),
    }
}

/// The beginning of the object at a place.
fn object_opening(m: &Machine, id: ObjId, args: &[Value]) -> Result<Opening, OutOfMemory>
    ensures { IfOk result (λ x. (f : Value) (given : List Value) → resuming.object_opened core (runs.function_and m.now.heap args.now (slice_get m.now.heap id.at)) f given (runs.start (world_of m.now)) ≡ opening_rest x f given (runs.start (world_of m.now))) }
{
    match m.heap.get(id) {
        Some(Obj::Function(function)) => function_opening(m, function, args),
        Some(Obj::Method(method)) => method_opening(m, method, args),
        Some(
            Obj::Text(_)
            | Obj::List(_)
            | Obj::Tuple(_)
            | Obj::Dict(_)
            | Obj::Range(_)
            | Obj::Builtin(_)
            | Obj::Class(_)
            | Obj::Instance(_)
            | Obj::Exception(_)
            | Obj::Module(_)
            | Obj::Fixture(_)
            | Obj::MarkMaker
            | Obj::Mark(_)
            | Obj::Hook(_)
            | Obj::Param(_)
            | Obj::Request(_)
            | Obj::Raises(_)
            | Obj::Info(_)
            | Obj::Item(_),
        )
        | None => Ok(Opening::Call),
    }
}

/// What begins where the runner begins a value with arguments.
pub fn find_opening(m: &Machine, f: Value, args: &[Value]) -> Result<Opening, OutOfMemory>
    ensures { IfOk result (λ x. resuming.opened_by_runner core f args.now (runs.start (world_of m.now)) ≡ opening_rest x f args.now (runs.start (world_of m.now))) }
{
    match f {
        Value::Ref(id) => object_opening(m, id, args),
        Value::None | Value::Bool(_) | Value::Int(_) => Ok(Opening::Call),
    }
}
