// `fixture`.

ghost use Rattle.std.specs.Prelude.{◌≡◌, IfOk, option_copied};
ghost use Rattle.pytest_calls.specs.Fixtures as fixtures;
ghost use Rattle.pytest_arguments.specs.Given as given;

use call_products::product::{Product, plain};
use py_operands::texts::text_of;
use py_values::end::Effect;
use py_values::heap::Heap;
use py_values::object::{FixtureObj, FixtureScope, Obj};
use py_values::value::Value;
use py_values::{OutOfMemory, PyText};
use pytest_arguments::form::{Argument, bad, is_word, named_value};
use pytest_arguments::given::{
    boolean_given, boolean_or_absent, no_other_than_ids, no_other_than_row, no_other_than_text,
    row_given, text_given,
};
use std::alloc::Global;

fn scope_named(name: &[char]) -> Option<FixtureScope>
    ensures { result ≡ fixtures.scope_named name.now }
{
    if is_word("session", name) {
        return Some(FixtureScope::Session);
    }
    if is_word("module", name) {
        return Some(FixtureScope::Module);
    }
    if is_word("class", name) {
        return Some(FixtureScope::Class);
    }
    if is_word("function", name) {
        return Some(FixtureScope::Function);
    }
    None
}

fn scope_in(text: Option<&PyText>) -> Option<FixtureScope>
    ensures { result ≡ fixtures.scope_in (option_copied text.entry) }
{
    match text {
        Some(text) => scope_named(text.chars()),
        None => None,
    }
}

fn scope_at(heap: &Heap, v: Value) -> Option<FixtureScope>
    ensures { result ≡ fixtures.scope_at heap.now v }
{
    scope_in(text_of(heap, v))
}

fn scope_or_absent(heap: &Heap, v: Option<Value>) -> bool
    ensures { result ≡ given.if_given (fixtures.is_scope heap.now) v }
{
    match v {
        Some(v) => scope_at(heap, v).is_some(),
        None => true,
    }
}

fn scope_given(heap: &Heap, v: Option<Value>) -> FixtureScope
    ensures { result ≡ fixtures.scope_given heap.now v }
{
    match v {
        Some(v) => scope_at(heap, v).unwrap_or(FixtureScope::Function),
        None => FixtureScope::Function,
    }
}

/// The first argument that is bad.
#[tactic(auto, unfolding(crate::specs::Fixtures::fixture_bad))]
fn fixture_bad(heap: &Heap, named: &[(PyText, Value)]) -> Option<Argument>
    ensures { result ≡ fixtures.fixture_bad heap.now named.now }
{
    if !scope_or_absent(heap, named_value(Argument::Scope, named)) {
        return Some(Argument::Scope);
    }
    if !no_other_than_row(heap, named_value(Argument::Params, named)) {
        return Some(Argument::Params);
    }
    if !boolean_or_absent(named_value(Argument::AutoUse, named)) {
        return Some(Argument::AutoUse);
    }
    if !no_other_than_ids(heap, named_value(Argument::Ids, named)) {
        return Some(Argument::Ids);
    }
    if !no_other_than_text(heap, named_value(Argument::Name, named)) {
        return Some(Argument::Name);
    }
    None
}

/// A fixture that is applied to no function yet.
#[tactic(auto, unfolding(crate::specs::Fixtures::fixture_object))]
fn fixture_object(
    alloc: Global,
    heap: &Heap,
    named: &[(PyText, Value)],
) -> Result<FixtureObj, OutOfMemory>
    ensures { IfOk result (λ f. f ≡ fixtures.fixture_object heap.now named.now) }
{
    let params = row_given(alloc, heap, named_value(Argument::Params, named))?;
    let ids = row_given(alloc, heap, named_value(Argument::Ids, named))?;
    let name = text_given(alloc, heap, named_value(Argument::Name, named))?;
    Ok(FixtureObj {
        function: None,
        scope: scope_given(heap, named_value(Argument::Scope, named)),
        params,
        autouse: boolean_given(named_value(Argument::AutoUse, named)),
        ids,
        name,
    })
}

/// A call of `fixture` whose form fits (pytest's reference, `pytest.fixture`).
pub(crate) fn fixture_called(
    alloc: Global,
    heap: &Heap,
    named: &[(PyText, Value)],
) -> Result<Product, OutOfMemory>
    ensures { IfOk result (λ p. p ≡ fixtures.fixture_called heap.now named.now) }
{
    match fixture_bad(heap, named) {
        Some(argument) => bad(alloc, argument),
        None => {
            let fixture = fixture_object(alloc, heap, named)?;
            Ok(plain(alloc, Effect::New(Obj::Fixture(fixture), 0)))
        }
    }
}
