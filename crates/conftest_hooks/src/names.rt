// The names of hooks, and of what their functions take.

ghost use Rattle.std.specs.Prelude.{◌≡◌, ◌++◌, ◌∷◌, [], IfOk, MatchOption, None as Nothing, OnOk, Some as Just};
ghost use Rattle.py_values.specs.Names.{name_eq};
ghost use Rattle.conftest_hooks.specs.Names as names;

use crate::hook_name::HookName;
use seq::{OutOfMemory, PyText, Seq};
use std::alloc::Global;
use test_suite::HookArgument;

fn is_spelled(letters: &[char], name: &PyText) -> bool
    ensures { result ≡ name_eq letters.now name.now }
{
    letters == name.chars()
}

/// Whether a name begins as those of hooks do.
pub(crate) fn is_plugin_name(name: &PyText) -> bool
    ensures { result ≡ names.is_plugin_name name.now }
{
    name.chars()
        .starts_with(&['p', 'y', 't', 'e', 's', 't', '_'])
}

fn is_set_up(name: &PyText) -> bool
    ensures { result ≡ name_eq (codes "pytest_runtest_setup") name.now }
{
    is_spelled(
        &[
            'p', 'y', 't', 'e', 's', 't', '_', 'r', 'u', 'n', 't', 'e', 's', 't', '_', 's', 'e',
            't', 'u', 'p',
        ],
        name,
    )
}

ghost use Rattle.std.specs.Prelude.{codes};

fn is_call(name: &PyText) -> bool
    ensures { result ≡ name_eq (codes "pytest_runtest_call") name.now }
{
    is_spelled(
        &[
            'p', 'y', 't', 'e', 's', 't', '_', 'r', 'u', 'n', 't', 'e', 's', 't', '_', 'c', 'a',
            'l', 'l',
        ],
        name,
    )
}

fn is_teardown(name: &PyText) -> bool
    ensures { result ≡ name_eq (codes "pytest_runtest_teardown") name.now }
{
    is_spelled(
        &[
            'p', 'y', 't', 'e', 's', 't', '_', 'r', 'u', 'n', 't', 'e', 's', 't', '_', 't', 'e',
            'a', 'r', 'd', 'o', 'w', 'n',
        ],
        name,
    )
}

fn is_make_id(name: &PyText) -> bool
    ensures { result ≡ name_eq (codes "pytest_make_parametrize_id") name.now }
{
    is_spelled(
        &[
            'p', 'y', 't', 'e', 's', 't', '_', 'm', 'a', 'k', 'e', '_', 'p', 'a', 'r', 'a', 'm',
            'e', 't', 'r', 'i', 'z', 'e', '_', 'i', 'd',
        ],
        name,
    )
}

/// The hook of a name, where there is one.
pub(crate) fn hook_named(name: &PyText) -> Option<HookName>
    ensures { result ≡ names.hook_named name.now }
{
    if is_set_up(name) {
        return Some(HookName::SetUp);
    }
    if is_call(name) {
        return Some(HookName::Call);
    }
    if is_teardown(name) {
        return Some(HookName::Teardown);
    }
    if is_make_id(name) {
        return Some(HookName::MakeId);
    }
    None
}

fn is_item(name: &PyText) -> bool
    ensures { result ≡ name_eq (codes "item") name.now }
{
    is_spelled(&['i', 't', 'e', 'm'], name)
}

fn is_next_item(name: &PyText) -> bool
    ensures { result ≡ name_eq (codes "nextitem") name.now }
{
    is_spelled(&['n', 'e', 'x', 't', 'i', 't', 'e', 'm'], name)
}

fn is_value(name: &PyText) -> bool
    ensures { result ≡ name_eq (codes "val") name.now }
{
    is_spelled(&['v', 'a', 'l'], name)
}

fn is_argument_name(name: &PyText) -> bool
    ensures { result ≡ name_eq (codes "argname") name.now }
{
    is_spelled(&['a', 'r', 'g', 'n', 'a', 'm', 'e'], name)
}

/// Whether a hook has an argument of this name.
fn takes(hook: HookName, name: &PyText) -> bool
    ensures { result ≡ names.takes hook name.now }
{
    match hook {
        HookName::SetUp => is_item(name),
        HookName::Call => is_item(name),
        HookName::Teardown => is_item(name) || is_next_item(name),
        HookName::MakeId => is_value(name) || is_argument_name(name),
    }
}

/// The first of these names that a hook doesn't have.
pub(crate) fn first_untaken<'n>(hook: HookName, some: &'n [PyText]) -> Option<&'n PyText>
    ensures { MatchOption result (names.first_untaken hook some.now ≡ Nothing) (λ name. names.first_untaken hook some.now ≡ Just name.now) }
{
    let mut rest = some;
    'names: while let Some((name, others)) = rest.split_first() {
        if !takes(hook, name) {
            return Some(name);
        }
        rest = others;
    }
    None
}

/// Which of the arguments of its hook an argument of this name is.
fn argument_named(name: &PyText) -> Option<HookArgument>
    ensures { result ≡ names.argument_named name.now }
{
    if is_item(name) || is_value(name) {
        return Some(HookArgument::First);
    }
    if is_next_item(name) || is_argument_name(name) {
        return Some(HookArgument::Second);
    }
    None
}

/// Pushes which argument it is, where it is one.
fn push_argument(arguments: &mut Seq<HookArgument>, name: &PyText) -> Result<(), OutOfMemory>
    ensures { OnOk result (arguments.new ≡ arguments.old ++ filter_map names.argument_named (name.now ∷ [])) }
{
    match argument_named(name) {
        Some(argument) => arguments.push(argument),
        None => Ok(()),
    }
}

ghost use Rattle.std.specs.List.{filter_map};

/// What the function of a hook takes, of the names of its arguments.
pub(crate) fn hook_arguments(
    alloc: Global,
    some: &[PyText],
) -> Result<Seq<HookArgument>, OutOfMemory>
    ensures { IfOk result (λ arguments. arguments ≡ names.hook_arguments some.now) }
{
    let mut arguments = Seq::new(alloc);
    for name in some {
        push_argument(&mut arguments, name)?;
    }
    Ok(arguments)
}
