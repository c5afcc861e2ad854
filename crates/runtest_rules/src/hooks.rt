// The hooks around the phases of items.

ghost use Rattle.std.specs.Prelude.{◌≡◌, ◌++◌, ◌∷◌, [], IfOk, OnOk, codes, option_copied};
ghost use Rattle.std.specs.List.{filter};
ghost use Rattle.fixture_calls.specs.Failing as failing;
ghost use Rattle.runtest_rules.specs.Rules as rules;

use crate::phases::exception_of;
use fixture_calls::{Failure, exception_for};
use hook_order::Impl;
use py_values::class::ExcClass;
use py_values::end::push_ascii;
use py_values::value::Value;
use seq::{OutOfMemory, PyText, Seq};
use std::alloc::Global;
use test_suite::{Hook, HookTable, Item};
use tracebacks::World;

/// The exception that the runner makes for a hook, with this text: `RuntimeError`, with the place of its `def`.
fn wrapper_fault(
    alloc: Global,
    world: &mut World,
    hook: &Hook,
    text: &str,
) -> Result<Failure, OutOfMemory>
    ensures { IfOk result (λ f. (f, world.new) ≡ rules.wrapper_fault hook.now text.now world.old) }
{
    let mut letters = Vec::new(alloc);
    push_ascii(&mut letters, text)?;
    let text = PyText::from_vec(letters);
    let thrown = exception_for(alloc, world, &hook.defined, ExcClass::RuntimeError, text)?;
    Ok(Failure::Exception(thrown))
}

/// The exception of a wrapper that ended without yielding. Behind want of memory the world is spent.
pub fn wrapper_did_not_yield(
    alloc: Global,
    world: &mut World,
    hook: &Hook,
) -> Result<Failure, OutOfMemory>
    ensures { IfOk result (λ f. (f, world.new) ≡ rules.wrapper_fault hook.now (codes "hook wrapper did not yield") world.old) }
{
    wrapper_fault(alloc, world, hook, "hook wrapper did not yield")
}

/// The exception of a wrapper that yields again. Behind want of memory the world is spent.
pub fn wrapper_yielded_again(
    alloc: Global,
    world: &mut World,
    hook: &Hook,
) -> Result<Failure, OutOfMemory>
    ensures { IfOk result (λ f. (f, world.new) ≡ rules.wrapper_fault hook.now (codes "hook wrapper yielded twice") world.old) }
{
    wrapper_fault(alloc, world, hook, "hook wrapper yielded twice")
}

/// A value, unless it is None.
pub fn not_none(value: Value) -> Option<Value>
    ensures { result ≡ rules.not_none value }
{
    match value {
        Value::None => None,
        Value::Bool(b) => Some(Value::Bool(b)),
        Value::Int(n) => Some(Value::Int(n)),
        Value::Ref(id) => Some(Value::Ref(id)),
    }
}

fn is_object_at(at: usize, value: Value) -> bool
    ensures { result ≡ rules.is_object_at at value }
{
    match value {
        Value::Ref(id) => at == id.at,
        Value::None | Value::Bool(_) | Value::Int(_) => false,
    }
}

fn is_same_value(one: Value, other: Value) -> bool
    ensures { result ≡ rules.is_same_value one other }
{
    match one {
        Value::Ref(id) => is_object_at(id.at, other),
        Value::None | Value::Bool(_) | Value::Int(_) => false,
    }
}

/// Whether two failures are of one exception.
pub fn is_same_exception(one: &Failure, other: &Failure) -> bool
    ensures { result ≡ rules.is_same_value (failing.exception_of one.now) (failing.exception_of other.now) }
{
    is_same_value(exception_of(one), exception_of(other))
}

/// Whether the file of an item stands in the folder of a hook, or below.
fn is_in_folder(item: &Item, hook: Option<&Hook>) -> bool
    ensures { result ≡ rules.is_in_folder item.now (option_copied hook.entry) }
{
    match hook {
        Some(hook) => item.file.text().as_bytes().starts_with(hook.folder.items()),
        None => false,
    }
}

/// Whether an implementation serves an item.
fn serves(table: &HookTable, item: &Item, which: &Impl) -> bool
    ensures { result ≡ rules.serves table.now item.now which.now }
{
    which.registered < 4 || is_in_folder(item, table.hook(which.code))
}

/// Pushes an implementation, where it serves an item.
fn push_serving(
    hooks: &mut Seq<Impl>,
    table: &HookTable,
    item: &Item,
    which: &Impl,
) -> Result<(), OutOfMemory>
    ensures { OnOk result (hooks.new ≡ hooks.old ++ filter (rules.serves table.now item.now) (which.now ∷ [])) }
{
    if serves(table, item, which) {
        return hooks.push(*which);
    }
    Ok(())
}

/// Of the implementations of a phase, those that serve an item, in their order.
pub fn hooks_for(
    alloc: Global,
    table: &HookTable,
    item: &Item,
    impls: &[Impl],
) -> Result<Seq<Impl>, OutOfMemory>
    ensures { IfOk result (λ hooks. hooks ≡ rules.hooks_for table.now item.now impls.now) }
{
    let mut hooks = Seq::new(alloc);
    for which in impls {
        push_serving(&mut hooks, table, item, which)?;
    }
    Ok(hooks)
}
