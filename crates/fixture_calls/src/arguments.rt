// The arguments of a test's or a fixture's function.

ghost use Rattle.std.specs.Prelude.{◌≡◌, ℕ, List, ◌++◌, ◌∷◌, IfOk, OnOk};
ghost use Rattle.std.specs.List.{list_any};
ghost use Rattle.std.specs.Option.{option_to_list};
ghost use Rattle.fixture_calls.specs.Arguments as arguments;

use py_values::value::Value;
use seq::{OutOfMemory, PyText};
use std::alloc::Global;
use test_suite::BoundArgument;

fn is_spelled(letters: &[char], name: &PyText) -> bool
    ensures { result ≡ name_eq letters.now name.now }
{
    letters == name.chars()
}

ghost use Rattle.py_values.specs.Names.{name_eq};

fn names_request(name: &PyText) -> bool
    ensures { result ≡ arguments.names_request name.now }
{
    is_spelled(&['r', 'e', 'q', 'u', 'e', 's', 't'], name)
}

/// Whether `request` is among these arguments.
pub(crate) fn asks_request(names: &[PyText]) -> bool
    ensures { result ≡ list_any arguments.names_request names.now }
{
    names.iter().any(|name| names_request(name))
}

/// The value that a row binds to a name.
fn bound_to(bound: &[BoundArgument], name: &PyText) -> Option<Value>
    ensures { result ≡ arguments.bound_to bound.now name.now }
{
    for one in bound {
        if is_spelled(one.name.chars(), name) {
            return Some(one.value);
        }
    }
    None
}

fn push_if(args: &mut Vec<Value>, one: Option<Value>) -> Result<(), OutOfMemory>
    ensures { OnOk result (args.new.items ≡ args.old.items ++ option_to_list one) }
{
    if let Some(one) = one {
        args.push(one)?;
    }
    Ok(())
}

/// The next of the values goes behind the others, where there is one. The rest of the values.
fn push_value<'v>(args: &mut Vec<Value>, values: &'v [Value]) -> Result<&'v [Value], OutOfMemory>
    ensures { IfOk result (λ rest. (others : List Value → List Value) → args.new.items ++ others rest.now ≡ args.old.items ++ arguments.value_then others values.now) }
{
    if values.is_empty() {
        return Ok(values);
    }
    args.push(values[0])?;
    Ok(&values[1..])
}

/// A bound value goes behind the others, or else the next of the values. The rest of the values.
fn push_bound<'v>(
    args: &mut Vec<Value>,
    bound: Option<Value>,
    values: &'v [Value],
) -> Result<&'v [Value], OutOfMemory>
    ensures { IfOk result (λ rest. (others : List Value → List Value) → args.new.items ++ others rest.now ≡ args.old.items ++ arguments.bound_then bound others values.now) }
{
    match bound {
        Some(value) => {
            args.push(value)?;
            Ok(values)
        }
        None => push_value(args, values),
    }
}

/// What one argument gets. The rest of the values.
fn push_argument<'v>(
    args: &mut Vec<Value>,
    bound: &[BoundArgument],
    name: &PyText,
    request: Option<Value>,
    values: &'v [Value],
) -> Result<&'v [Value], OutOfMemory>
    ensures { IfOk result (λ rest. (names : List (List ℕ)) → args.new.items ++ arguments.in_order bound.now names request rest.now ≡ args.old.items ++ arguments.in_order bound.now (name.now ∷ names) request values.now) }
{
    if names_request(name) {
        push_if(args, request)?;
        return Ok(values);
    }
    push_bound(args, bound_to(bound, name), values)
}

fn push_in_order(
    args: &mut Vec<Value>,
    bound: &[BoundArgument],
    names: &[PyText],
    request: Option<Value>,
    values: &[Value],
) -> Result<(), OutOfMemory>
    ensures { OnOk result (args.new.items ≡ args.old.items ++ arguments.in_order bound.now names.now request values.now) }
{
    let mut rest = values;
    for name in names {
        rest = push_argument(args, bound, name, request, rest)?;
    }
    Ok(())
}

/// The instance first, where there is one; then what the arguments get.
pub(crate) fn positional(
    alloc: Global,
    own: Option<Value>,
    bound: &[BoundArgument],
    names: &[PyText],
    request: Option<Value>,
    values: &[Value],
) -> Result<Vec<Value>, OutOfMemory>
    ensures { IfOk result (λ args. args.items ≡ arguments.positional own bound.now names.now request values.now) }
{
    let mut args = Vec::new(alloc);
    push_if(&mut args, own)?;
    push_in_order(&mut args, bound, names, request, values)?;
    Ok(args)
}
