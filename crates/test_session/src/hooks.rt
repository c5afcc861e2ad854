// The implementations of hooks in conftests, as they are shown.

ghost use Rattle.std.specs.Prelude.{◌≡◌, ◌+◌, ◌++◌, IfOk, OnOk, map};
ghost use Rattle.test_session.specs.Collections as shown;

use hook_order::Impl;
use py_values::value::Value;
use seq::{OutOfMemory, Seq};
use std::alloc::Global;
use test_suite::{Fixture, HookTable, Suite};

/// The hooks that a conftest may implement (pytest's reference, "Hooks").
#[derive(Clone, Copy, PartialEq, Eq)]
pub enum Hook {
    Setup,
    Call,
    Teardown,
    MakeId,
}

/// The number of a code behind so many others.
fn code_behind(count: u32, code: u32) -> Result<u32, OutOfMemory>
    ensures { IfOk result (λ n. n ≡ count + code) }
{
    match count.checked_add(code) {
        Some(n) => Ok(n),
        // No memory holds so many.
        None => Err(OutOfMemory),
    }
}

/// Pushes an implementation, unless it is a built-in one.
fn push_shown(
    all: &mut Vec<(Hook, Impl)>,
    count: u32,
    hook: Hook,
    which: Impl,
) -> Result<(), OutOfMemory>
    ensures { OnOk result (all.new.items ≡ all.old.items ++ shown.impl_shown count hook which) }
{
    if which.registered < 4 {
        return Ok(());
    }
    let mut which = which;
    which.code = code_behind(count, which.code)?;
    all.push((hook, which))?;
    Ok(())
}

/// Pushes the implementations of a hook.
fn push_hook(
    all: &mut Vec<(Hook, Impl)>,
    count: u32,
    hook: Hook,
    impls: &[Impl],
) -> Result<(), OutOfMemory>
    ensures { OnOk result (all.new.items ≡ all.old.items ++ shown.impls_shown count hook impls.now) }
{
    for which in impls {
        push_shown(all, count, hook, *which)?;
    }
    Ok(())
}

/// The implementations of conftests; their codes stand behind so many others.
pub(crate) fn hooks_shown(
    alloc: Global,
    count: u32,
    table: &HookTable,
) -> Result<Vec<(Hook, Impl)>, OutOfMemory>
    ensures { IfOk result (λ all. all.items ≡ shown.hooks_shown count table.now) }
{
    let mut all = Vec::new(alloc);
    push_hook(&mut all, count, Hook::Setup, table.set_up.items())?;
    push_hook(&mut all, count, Hook::Call, table.call.items())?;
    push_hook(&mut all, count, Hook::Teardown, table.teardown.items())?;
    push_hook(&mut all, count, Hook::MakeId, table.ids.items())?;
    Ok(all)
}

fn push_functions(codes: &mut Seq<Value>, fixtures: &[Fixture]) -> Result<(), OutOfMemory>
    ensures { OnOk result (codes.new ≡ codes.old ++ map shown.fixture_function fixtures.now) }
{
    for fixture in fixtures {
        codes.push(fixture.function)?;
    }
    Ok(())
}

fn push_hook_functions(
    codes: &mut Seq<Value>,
    hooks: &[test_suite::Hook],
) -> Result<(), OutOfMemory>
    ensures { OnOk result (codes.new ≡ codes.old ++ map shown.hook_function hooks.now) }
{
    for hook in hooks {
        codes.push(hook.function)?;
    }
    Ok(())
}

/// The functions of a suite by their codes: those of its fixtures, and behind them those of its hooks.
pub(crate) fn codes_of(alloc: Global, suite: &Suite) -> Result<Seq<Value>, OutOfMemory>
    ensures { IfOk result (λ codes. codes ≡ shown.codes_of suite.now) }
{
    let mut codes = Seq::new(alloc);
    push_functions(&mut codes, suite.fixtures.items())?;
    push_hook_functions(&mut codes, suite.hooks.hooks.items())?;
    Ok(codes)
}
