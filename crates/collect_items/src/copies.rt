// Copies of what was found.

ghost use Rattle.std.specs.Prelude.{◌≡◌, IfOk, map};
ghost use Rattle.collect_items.specs.Items.{defined_fixture};

use collect_names::copies::{copied, copied_texts};
use fixture_definitions::Definition;
use py_values::rows::Values;
use py_values::value::Value;
use py_world::TraceFrame;
use report_parts::Text;
use seq::{OutOfMemory, PyText, Seq};
use std::alloc::Global;
use test_suite::{BoundArgument, Fixture, FixtureParam};

/// A copy of values.
pub fn copied_values(alloc: Global, values: &[Value]) -> Result<Values, OutOfMemory>
    ensures { IfOk result (λ copies. copies ≡ values.now) }
{
    let copies = Vec::from_slice(alloc, values)?;
    Ok(Values::from_vec(copies))
}

fn copied_frame(alloc: Global, frame: &TraceFrame) -> Result<TraceFrame, OutOfMemory>
    ensures { IfOk result (λ f. f ≡ frame.now) }
{
    let path = copied(alloc, &frame.path)?;
    Ok(TraceFrame {
        path,
        line: frame.line,
        name: copied(alloc, &frame.name)?,
    })
}

fn copied_fixture(alloc: Global, fixture: &Fixture) -> Result<Fixture, OutOfMemory>
    ensures { IfOk result (λ f. f ≡ fixture.now) }
{
    let name = copied(alloc, &fixture.name)?;
    let arguments = copied_texts(alloc, fixture.arguments.items())?;
    Ok(Fixture {
        name,
        function: fixture.function,
        in_class: fixture.in_class,
        arguments,
        scope: fixture.scope,
        yields: fixture.yields,
        defined: copied_frame(alloc, &fixture.defined)?,
    })
}

fn copied_bound(alloc: Global, one: &BoundArgument) -> Result<BoundArgument, OutOfMemory>
    ensures { IfOk result (λ b. b ≡ one.now) }
{
    Ok(BoundArgument {
        name: copied(alloc, &one.name)?,
        number: one.number,
        value: one.value,
    })
}

/// A copy of what a row binds.
pub fn all_bound(alloc: Global, bound: &[BoundArgument]) -> Result<Seq<BoundArgument>, OutOfMemory>
    ensures { IfOk result (λ copies. copies ≡ bound.now) }
{
    let mut copies = Seq::new(alloc);
    for one in bound {
        let copy = copied_bound(alloc, one)?;
        copies.push(copy)?;
    }
    Ok(copies)
}

fn copied_param(alloc: Global, one: &FixtureParam) -> Result<FixtureParam, OutOfMemory>
    ensures { IfOk result (λ p. p ≡ one.now) }
{
    Ok(FixtureParam {
        def: one.def,
        number: one.number,
        value: one.value,
        id: Text::from_str(alloc, one.id.text())?,
    })
}

/// A copy of the parameters of fixtures.
pub fn all_params(alloc: Global, params: &[FixtureParam]) -> Result<Seq<FixtureParam>, OutOfMemory>
    ensures { IfOk result (λ copies. copies ≡ params.now) }
{
    let mut copies = Seq::new(alloc);
    for one in params {
        let copy = copied_param(alloc, one)?;
        copies.push(copy)?;
    }
    Ok(copies)
}

/// A copy of an id, where there is one.
pub fn copied_id(alloc: Global, id: &Option<PyText>) -> Result<Option<PyText>, OutOfMemory>
    ensures { IfOk result (λ copy. copy ≡ id.now) }
{
    match id {
        Some(id) => Ok(Some(copied(alloc, id)?)),
        None => Ok(None),
    }
}

/// The fixtures of definitions.
pub fn fixtures_of(alloc: Global, definitions: &[Definition]) -> Result<Seq<Fixture>, OutOfMemory>
    ensures { IfOk result (λ fixtures. fixtures ≡ map defined_fixture definitions.now) }
{
    let mut fixtures = Seq::new(alloc);
    for one in definitions {
        let fixture = copied_fixture(alloc, &one.fixture)?;
        fixtures.push(fixture)?;
    }
    Ok(fixtures)
}
