// What is known of the definitions of a table.

ghost use Rattle.std.specs.Prelude.{◌≡◌, IfOk, length, option_copied, slice_get};
ghost use Rattle.test_session.specs.Stacks as stacks;

use collect_names::objects::{function_at, object_in};
use fixture_definitions::{arguments_asked, defined_at};
use fixture_table::{FixtureDef, Table};
use py_values::heap::Heap;
use py_values::object::FunctionObj;
use py_values::value::Value;
use seq::{OutOfMemory, PyText, Seq};
use session_types::{DefId, Scope};
use std::alloc::Global;
use test_suite::Fixture;

/// The function of a code; None where there is none.
fn function_or(codes: &[Value], code: u32) -> Value
    ensures { result ≡ stacks.function_or (slice_get codes.now code) }
{
    match codes.get(code as usize) {
        Some(v) => *v,
        None => Value::None,
    }
}

/// The text of a name; an empty one where there is none.
pub(crate) fn text_or(alloc: Global, names: &[PyText], number: u32) -> Result<PyText, OutOfMemory>
    ensures { IfOk result (λ t. t ≡ stacks.text_or (slice_get names.now number)) }
{
    match names.get(number as usize) {
        Some(text) => PyText::from_chars(alloc, text.chars()),
        None => Ok(PyText::from_vec(Vec::new(alloc))),
    }
}

fn is_method(function: Option<&FunctionObj>) -> bool
    ensures { result ≡ stacks.is_method (option_copied function.entry) }
{
    match function {
        Some(function) => function.class.is_some(),
        None => false,
    }
}

fn has_yield(function: Option<&FunctionObj>) -> bool
    ensures { result ≡ stacks.has_yield (option_copied function.entry) }
{
    match function {
        Some(function) => function.yields,
        None => false,
    }
}

/// A fixture with this function.
fn fixture_of(
    alloc: Global,
    function: Option<&FunctionObj>,
    v: Value,
    name: PyText,
    scope: Scope,
) -> Result<Fixture, OutOfMemory>
    ensures { IfOk result (λ f. f ≡ stacks.fixture_of (option_copied function.entry) v name scope) }
{
    let in_class = is_method(function);
    let arguments = arguments_asked(alloc, in_class, function)?;
    let defined = defined_at(alloc, function)?;
    Ok(Fixture {
        name,
        function: v,
        in_class,
        arguments,
        scope,
        yields: has_yield(function),
        defined,
    })
}

/// The fixture that a definition is.
fn fixture_known(
    alloc: Global,
    heap: &Heap,
    codes: &[Value],
    names: &[PyText],
    def: &FixtureDef,
) -> Result<Fixture, OutOfMemory>
    ensures { IfOk result (λ f. f ≡ stacks.fixture_known heap.now codes.now names.now def.now) }
{
    let v = function_or(codes, def.code);
    let name = text_or(alloc, names, def.name)?;
    fixture_of(alloc, function_at(object_in(heap, v)), v, name, def.scope)
}

/// The number of a definition.
fn def_id(number: usize) -> Result<DefId, OutOfMemory>
    ensures { IfOk result (λ id. id ≡ number) }
{
    match u32::try_from(number) {
        Ok(number) => Ok(DefId::new(number)),
        // No table has so many.
        Err(_) => Err(OutOfMemory),
    }
}

/// The fixtures that the definitions of a table are, where there is a code for each.
pub(crate) fn fixtures_known(
    alloc: Global,
    heap: &Heap,
    table: &Table,
    codes: &[Value],
    names: &[PyText],
) -> Result<Seq<Fixture>, OutOfMemory>
    requires many { length codes.now ≡ length table.now.defs }
    ensures { IfOk result (λ fixtures. fixtures ≡ stacks.fixtures_known heap.now codes.now names.now table.now.defs) }
{
    let mut fixtures = Seq::new(alloc);
    for number in 0..codes.len() {
        let id = def_id(number)?;
        let fixture = fixture_known(alloc, heap, codes, names, table.def(id))?;
        fixtures.push(fixture)?;
    }
    Ok(fixtures)
}
