// `hookimpl`.

ghost use Rattle.std.specs.Prelude.{◌≡◌, IfOk, option_copied};
ghost use Rattle.pytest_calls.specs.Hooks as hooks;

use call_products::product::{Product, plain};
use py_values::end::Effect;
use py_values::object::{HookObj, Obj};
use py_values::value::Value;
use py_values::{OutOfMemory, PyText};
use pytest_arguments::form::{Argument, bad_named, named_value};
use pytest_arguments::given::{boolean_given, is_boolean};
use std::alloc::Global;

/// The name of the first argument that is no boolean.
fn first_unflagged(named: &[(PyText, Value)]) -> Option<&PyText>
    ensures { option_copied result ≡ hooks.first_unflagged named.now }
{
    for entry in named {
        if !is_boolean(entry.1) {
            return Some(&entry.0);
        }
    }
    None
}

#[tactic(auto, unfolding(crate::specs::Hooks::hook_object))]
fn hook_object(named: &[(PyText, Value)]) -> HookObj
    ensures { result ≡ hooks.hook_object named.now }
{
    HookObj {
        wrapper: boolean_given(named_value(Argument::Wrapper, named)),
        first: boolean_given(named_value(Argument::TryFirst, named)),
        last: boolean_given(named_value(Argument::TryLast, named)),
    }
}

/// A call of `hookimpl` whose form fits (pytest's reference, `pytest.hookimpl`).
pub(crate) fn hookimpl_called(
    alloc: Global,
    named: &[(PyText, Value)],
) -> Result<Product, OutOfMemory>
    ensures { IfOk result (λ p. p ≡ hooks.hookimpl_called named.now) }
{
    match first_unflagged(named) {
        Some(name) => bad_named(alloc, name.chars()),
        None => Ok(plain(alloc, Effect::New(Obj::Hook(hook_object(named)), 0))),
    }
}
