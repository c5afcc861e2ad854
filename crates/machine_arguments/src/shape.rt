// The arguments of a call by position and by name.

ghost use Rattle.std.specs.Prelude.{◌≡◌, IfOk, OnOk, is_some, option_copied, slice_get};
ghost use Rattle.std.specs.List.{list_any};
ghost use Rattle.machine_state.specs.py_world.Arguments.{arguments_of};
ghost use Rattle.machine_state.specs.Places.{arguments_in};
ghost use Rattle.machine_arguments.specs.Shapes.{name_given, with_given};

use machine_state::arguments::CallArguments;
use py_core::{ArgName, SrcText};
use py_values::value::Value;
use seq::OutOfMemory;
use std::alloc::Global;

/// Whether an argument of a call has a name.
pub fn has_names(names: &[Option<ArgName>]) -> bool
    ensures { result ≡ list_any (λ n. is_some n) names.now }
{
    names.iter().any(|name| name.is_some())
}

/// The name of the argument at a place, where it has one.
fn name_at(names: &[Option<ArgName>], at: usize) -> Option<&SrcText>
    ensures { option_copied result ≡ name_given (slice_get names.now at) }
{
    match names.get(at) {
        Some(Some(given)) => Some(&given.name),
        _ => None,
    }
}

/// Puts an argument behind those so far: by name where it has one.
fn put(given: &mut CallArguments, name: Option<&SrcText>, v: Value) -> Result<(), OutOfMemory>
    ensures { OnOk result (arguments_in given.new ≡ with_given (option_copied name.entry) v (arguments_in given.old)) }
{
    match name {
        Some(name) => given.named.push(name, v),
        None => {
            given.plain.push(v)?;
            Ok(())
        }
    }
}

/// The arguments of a call, of which some have names.
#[tactic(auto, using(crate::proofs::Shapes::shaped_more, crate::proofs::Shapes::shaped_all))]
fn shape_named(
    alloc: Global,
    names: &[Option<ArgName>],
    values: &[Value],
) -> Result<CallArguments, OutOfMemory>
    ensures { IfOk result (λ args. arguments_in args ≡ arguments_of names.now values.now) }
{
    let mut given = CallArguments::plain(alloc, Vec::new(alloc));
    for i in 0..values.len() {
        put(&mut given, name_at(names, i), values[i])?;
    }
    Ok(given)
}

/// The arguments of a call, given their values in the order of the text and the name of each that has one.
#[tactic(auto, using(crate::proofs::Shapes::without_names))]
pub fn shape(
    alloc: Global,
    names: &[Option<ArgName>],
    values: Vec<Value>,
) -> Result<CallArguments, OutOfMemory>
    ensures { IfOk result (λ args. arguments_in args ≡ arguments_of names.now values.items) }
{
    if has_names(names) {
        shape_named(alloc, names, &values)
    } else {
        Ok(CallArguments::plain(alloc, values))
    }
}
