// The arguments of calls.

ghost use Rattle.std.specs.Prelude.{◌≡◌, [], ◌∷◌, IfOk, None, Some, drop, false, slice_get, take};
ghost use Rattle.machine_state.specs.py_world.Arguments.{fitted, with_plain};
ghost use Rattle.machine_state.specs.py_world.Calls as world;
ghost use Rattle.machine_state.specs.Places.{arguments_in};
ghost use Rattle.machine_state.specs.Found.{OnTrue};
ghost use Rattle.machine_arguments.specs.Given.{given_at};

use machine_state::arguments::CallArguments;
use machine_state::locals::Locals;
use py_values::class::ExcClass;
use py_values::end::{Raise, push_ascii};
use py_values::object::FunctionObj;
use py_values::rows::Param;
use py_values::value::Value;
use seq::{OutOfMemory, PyText};
use std::alloc::Global;

/// The value of a parameter: the argument at its place, or else that with its name, which is used up, or else its default.
fn given(param: &Param, args: &[Value], at: usize, named: &mut Locals) -> Option<Value>
    ensures { (result, named.new) ≡ given_at param.now (slice_get args.now at) named.old }
{
    if at < args.len() {
        return Some(args[at]);
    }
    match named.find(&param.name) {
        Some(v) => {
            named.unbind(&param.name);
            Some(v)
        }
        None => param.default,
    }
}

/// The same names.
fn copy_names(alloc: Global, names: &Locals) -> Result<Locals, OutOfMemory>
    ensures { IfOk result (λ copy. copy ≡ names.now) }
{
    let mut copy = Locals::new(alloc);
    for entry in names.entries() {
        copy.push(&entry.0, entry.1)?;
    }
    Ok(copy)
}

/// The local names with which a function begins: each parameter has its argument by position, its argument by name or its default,
/// and each argument has its parameter. There are none where the arguments don't fit (Language Reference, calls).
#[tactic(auto, using(crate::proofs::NamedParameters::fits_given, crate::proofs::NamedParameters::fits_missing))]
fn fit(
    alloc: Global,
    params: &[Param],
    args: &[Value],
    by_name: &Locals,
) -> Result<Option<Locals>, OutOfMemory>
    ensures { IfOk result (λ names. names ≡ fitted params.now args.now by_name.now []) }
{
    let mut named = copy_names(alloc, by_name)?;
    let mut names = Locals::new(alloc);
    for i in 0..params.len() {
        let Some(v) = given(&params[i], args, i, &mut named) else {
            return Ok(None);
        };
        names.bind(&params[i].name, v)?;
    }
    if args.len() > params.len() {
        return Ok(None);
    }
    if !named.is_empty() {
        return Ok(None);
    }
    Ok(Some(names))
}

/// Binds the parameters from a place on, for which there is no argument, to their defaults, in the place of the names behind the first
/// ones; tells whether each has one.
#[tactic(auto, using(crate::proofs::NamedParameters::fits_default, crate::proofs::NamedParameters::fits_undefaulted, crate::proofs::NamedParameters::fits_bare))]
pub fn bind_defaults(params: &[Param], at: usize, bound: &mut Locals) -> Result<bool, OutOfMemory>
    ensures all { IfOk result (λ all. OnTrue all (fitted (drop at params.now) [] [] (take at bound.old) ≡ Some bound.new)) }
    ensures not_all { IfOk result (λ all. all ≡ false → fitted (drop at params.now) [] [] (take at bound.old) ≡ None) }
{
    bound.truncate(at);
    for i in at..params.len() {
        let Some(v) = params[i].default else {
            return Ok(false);
        };
        bound.bind(&params[i].name, v)?;
    }
    Ok(true)
}

/// A raise for arguments that don't fit a function or a class.
pub fn raise_misfit(alloc: Global, name: &PyText) -> Result<Raise, OutOfMemory>
    ensures { IfOk result (λ r. r ≡ world.argument_error name.now) }
{
    let mut text = Vec::new(alloc);
    push_ascii(&mut text, "wrong arguments for ")?;
    text.extend_from_slice(name.chars())?;
    Raise::from_chars(alloc, ExcClass::TypeError, &text)
}

/// A raise for the call of a function that yields.
fn raise_yields(alloc: Global, name: &PyText) -> Result<Raise, OutOfMemory>
    ensures { IfOk result (λ r. r ≡ world.yields_uncalled name.now) }
{
    let mut text = Vec::new(alloc);
    push_ascii(&mut text, "yield function ")?;
    text.extend_from_slice(name.chars())?;
    push_ascii(&mut text, " cannot be called")?;
    Raise::from_chars(alloc, ExcClass::TypeError, &text)
}

/// The local names with which the body of a function begins, or the raise where the arguments don't fit it.
pub fn fitting(
    alloc: Global,
    function: &FunctionObj,
    args: &[Value],
    named: &Locals,
) -> Result<Result<Locals, Raise>, OutOfMemory>
    ensures { IfOk result (λ names. names ≡ world.fitted_or function.now.name (fitted function.now.params args.now named.now [])) }
{
    match fit(alloc, function.params.items(), args, named)? {
        Some(names) => Ok(Ok(names)),
        None => Ok(Err(raise_misfit(alloc, &function.name)?)),
    }
}

/// The local names with which a function begins, or the raise where it yields or the arguments don't fit it.
pub fn arguments_for(
    alloc: Global,
    function: &FunctionObj,
    args: &CallArguments,
) -> Result<Result<Locals, Raise>, OutOfMemory>
    ensures { IfOk result (λ names. names ≡ world.arguments_for function.now (arguments_in args.now)) }
{
    if function.yields {
        return Ok(Err(raise_yields(alloc, &function.name)?));
    }
    fitting(alloc, function, &args.plain, &args.named)
}

/// Values with one before them.
pub fn with_first(alloc: Global, first: Value, values: &[Value]) -> Result<Vec<Value>, OutOfMemory>
    ensures { IfOk result (λ vs. vs.items ≡ first ∷ values.now) }
{
    let mut all = Vec::new(alloc);
    all.push(first)?;
    all.extend_from_slice(values)?;
    Ok(all)
}

/// Arguments with one by position before them.
pub fn with_receiver(
    alloc: Global,
    receiver: Value,
    args: &CallArguments,
) -> Result<CallArguments, OutOfMemory>
    ensures { IfOk result (λ all. arguments_in all ≡ with_plain receiver (arguments_in args.now)) }
{
    let plain = with_first(alloc, receiver, &args.plain)?;
    let named = copy_names(alloc, &args.named)?;
    Ok(CallArguments { plain, named })
}
