// The `request` that a fixture or a test takes.

ghost use Rattle.std.specs.Prelude.{◌≡◌, None, IfOk};
ghost use Rattle.py_machine.specs.runner_values.Given as given;
ghost use Rattle.py_machine.specs.runner_values.Requests as requests;
ghost use Rattle.fixture_calls.specs.Asking as asking;
ghost use Rattle.fixture_calls.specs.Failing as failing;

use crate::arguments::asks_request;
use py_machine::{New, World, close_request, make, take_finalizer};
use py_values::end::push_ascii;
use py_values::value::Value;
use seq::{OutOfMemory, PyText, Seq};
use session_types::Scope;
use std::alloc::Global;
use test_suite::{Fixture, Item};

fn new_request(
    world: &mut World,
    name: Option<PyText>,
    scope: PyText,
    param: Option<Value>,
) -> Result<Value, OutOfMemory>
    ensures { IfOk result (λ v. (v, world.new) ≡ failing.in_heap (given.added_object (given.open_request name scope param) world.old.heap) world.old) }
{
    make(world, &New::Request { name, scope, param })
}

fn scope_name(scope: Scope) -> &'static str
    ensures { result.now ≡ asking.scope_text scope }
{
    match scope {
        Scope::Session => "session",
        Scope::Module => "module",
        Scope::Class => "class",
        Scope::Function => "function",
    }
}

fn scope_text(alloc: Global, scope: Scope) -> Result<PyText, OutOfMemory>
    ensures { IfOk result (λ t. t ≡ asking.scope_text scope) }
{
    let mut text = Vec::new(alloc);
    push_ascii(&mut text, scope_name(scope))?;
    Ok(PyText::from_vec(text))
}

/// The `request` of a fixture, where its function takes one (pytest's reference, `FixtureRequest`): it has this parameter. Behind want of
/// memory the world is spent.
#[tactic(auto, unfolding(crate::specs::Asking::fixture_request))]
pub fn ask(
    alloc: Global,
    world: &mut World,
    fixture: &Fixture,
    param: Option<Value>,
) -> Result<Option<Value>, OutOfMemory>
    ensures { IfOk result (λ request. (request, world.new) ≡ asking.fixture_request fixture.now param world.old) }
{
    if !asks_request(fixture.arguments.items()) {
        return Ok(None);
    }
    let name = PyText::from_chars(alloc, fixture.name.chars())?;
    let scope = scope_text(alloc, fixture.scope)?;
    Ok(Some(new_request(world, Some(name), scope, param)?))
}

/// The `request` of a test, where it takes one: it has no parameter. Behind want of memory the world is spent.
#[tactic(auto, unfolding(crate::specs::Asking::test_request))]
pub fn ask_test(alloc: Global, world: &mut World, item: &Item) -> Result<Option<Value>, OutOfMemory>
    ensures { IfOk result (λ request. (request, world.new) ≡ asking.test_request item.now world.old) }
{
    if !asks_request(item.arguments.items()) {
        return Ok(None);
    }
    let scope = scope_text(alloc, Scope::Function)?;
    Ok(Some(new_request(world, None, scope, None)?))
}

/// The finalizers of a closed request, latest first, which are taken.
fn take_all(alloc: Global, world: &mut World, request: Value) -> Result<Seq<Value>, OutOfMemory>
    requires { requests.request_closed request world.old.heap ≡ world.old.heap }
    ensures { IfOk result (λ finalizers. (finalizers, world.new) ≡ asking.finalizers_taken request world.old) }
{
    let mut finalizers = Seq::new(alloc);
    'taking: while let Some(finalizer) = take_finalizer(world, request) {
        finalizers.push(finalizer)?;
    }
    Ok(finalizers)
}

/// Closes a request, which takes no further finalizers, and gives those that it had, latest first. Another value has none. Behind want of
/// memory the world is spent.
pub fn close(alloc: Global, world: &mut World, request: Value) -> Result<Seq<Value>, OutOfMemory>
    ensures { IfOk result (λ finalizers. (finalizers, world.new) ≡ asking.finalizers_taken request world.old) }
{
    close_request(world, request);
    take_all(alloc, world, request)
}
