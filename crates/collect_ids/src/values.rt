// The ids of the values of sets.

ghost use Rattle.std.specs.Prelude.{◌≡◌, IfOk, length, replicate};
ghost use Rattle.hook_order.specs.HookOrder.{InHookOrder};
ghost use Rattle.py_operands.specs.Texts.{text_of};
ghost use Rattle.collect_ids.specs.Asking as asking;
ghost use Rattle.collect_ids.specs.Told.{told};

use crate::hook::asked;
use collect_params::{dashed, value_id};
use collect_rows::{RowsFault, fault_at_def};
use fixture_definitions::FoundTest;
use hook_order::Impl;
use param_rows::{ParamSet, PyId};
use py_operands::texts::text_of;
use py_values::end::push_ascii;
use py_values::value::Value;
use py_world::Thrown;
use runtest_rules::{Failure, World, exception_text, heap};
use seq::{OutOfMemory, PyText, Seq};
use std::alloc::Global;
use test_suite::HookTable;

/// What is told of an exception, with its open calls.
fn thrown_fault(alloc: Global, world: &World, thrown: Thrown) -> Result<RowsFault, OutOfMemory>
    ensures { IfOk result (λ f. f ≡ record { trace = thrown.trace; text = exception_text world.now.heap thrown.exc }) }
{
    let Thrown { exc, trace } = thrown;
    match exception_text(alloc, heap(world), exc) {
        Ok(text) => Ok(RowsFault { trace, text }),
        Err(fault) => {
            drop(trace);
            Err(fault)
        }
    }
}

ghost use Rattle.runtest_rules.specs.tracebacks.Texts.{exception_text};

/// The fault that an exception of the hook is.
fn id_exception(alloc: Global, world: &World, failure: Failure) -> Result<RowsFault, OutOfMemory>
    ensures { IfOk result (λ f. f ≡ asking.id_exception failure world.now) }
{
    match failure {
        Failure::Exception(thrown) => thrown_fault(alloc, world, thrown),
        Failure::FixtureFault(thrown, text) => {
            drop(text);
            thrown_fault(alloc, world, thrown)
        }
    }
}

/// The fault of a test whose hook made something other than a text.
fn no_text(alloc: Global, world: &World, test: &FoundTest) -> Result<RowsFault, OutOfMemory>
    ensures { IfOk result (λ f. f ≡ asking.fault_of_test test.now (codes "TypeError: id is not a text") world.now) }
{
    let mut text = Vec::new(alloc);
    push_ascii(&mut text, "TypeError: id is not a text")?;
    fault_at_def(alloc, heap(world), test, PyText::from_vec(text))
}

ghost use Rattle.std.specs.Prelude.{codes};

/// The id that the hook made of a value, which is a text.
fn text_made(
    alloc: Global,
    world: &World,
    test: &FoundTest,
    made: Value,
) -> Result<Result<PyId, RowsFault>, OutOfMemory>
    ensures { IfOk result (λ id. (id, world.now) ≡ asking.id_of_text test.now (text_of world.now.heap made) world.now) }
{
    match text_of(heap(world), made) {
        Some(text) => {
            let id = PyText::from_chars(alloc, text.chars())?;
            Ok(Ok(id))
        }
        None => {
            let fault = no_text(alloc, world, test)?;
            Ok(Err(fault))
        }
    }
}

/// The id of a value for which this was made.
fn id_of(
    alloc: Global,
    world: &World,
    test: &FoundTest,
    name: &PyText,
    number: usize,
    value: Value,
    made: Result<Option<Value>, Failure>,
) -> Result<Result<PyId, RowsFault>, OutOfMemory>
    ensures { IfOk result (λ id. (id, world.now) ≡ asking.id_of test.now name.now number value (made, world.now)) }
{
    match made {
        Ok(Some(made)) => text_made(alloc, world, test, made),
        Ok(None) => {
            let id = value_id(alloc, heap(world), name, number, value)?;
            Ok(Ok(id))
        }
        Err(failure) => {
            let fault = id_exception(alloc, world, failure)?;
            Ok(Err(fault))
        }
    }
}

/// Asks for the id of a value.
fn value_asked(
    alloc: Global,
    world: &mut World,
    limit: u64,
    hooks: &HookTable,
    impls: &[Impl],
    test: &FoundTest,
    name: &PyText,
    number: usize,
    value: Value,
) -> Result<Result<PyId, RowsFault>, OutOfMemory>
    requires order { InHookOrder impls.now }
    ensures { IfOk result (λ id. (id, world.new) ≡ asking.value_asked limit hooks.now impls.now test.now name.now number value world.old) }
{
    let made = asked(alloc, world, limit, hooks, impls, value, name)?;
    id_of(alloc, world, test, name, number, value, made)
}

/// Puts what was asked for behind others, or gives the fault.
fn push_asked(
    ids: &mut Seq<PyId>,
    id: Result<PyId, RowsFault>,
) -> Result<Option<RowsFault>, OutOfMemory>
    ensures { IfOk result (λ fault. (w : SourceWorld) → told fault ids.new w ≡ asking.asked_behind ids.old (asking.one_asked (id, w))) }
{
    match id {
        Ok(id) => {
            ids.push(id)?;
            Ok(None)
        }
        Err(fault) => Ok(Some(fault)),
    }
}

ghost use Rattle.runtest_rules.specs.tracebacks.source_meaning.Meaning.{SourceWorld};

/// Asks for the ids of values, each with the name of its argument.
fn values_asked(
    alloc: Global,
    world: &mut World,
    limit: u64,
    hooks: &HookTable,
    impls: &[Impl],
    test: &FoundTest,
    number: usize,
    names: &[PyText],
    values: &[Value],
) -> Result<Result<Seq<PyId>, RowsFault>, OutOfMemory>
    requires order { InHookOrder impls.now }
    ensures { IfOk result (λ ids. (ids, world.new) ≡ asking.values_asked limit hooks.now impls.now test.now number names.now values.now world.old) }
{
    let mut ids = Seq::new(alloc);
    for at in 0..names.len().min(values.len()) {
        let id = value_asked(
            alloc, world, limit, hooks, impls, test, &names[at], number, values[at],
        )?;
        let fault = push_asked(&mut ids, id)?;
        if let Some(fault) = fault {
            return Ok(Err(fault));
        }
    }
    Ok(Ok(ids))
}

/// Ids side by side.
fn dashed_ids(
    alloc: Global,
    ids: Result<Seq<PyId>, RowsFault>,
) -> Result<Result<PyId, RowsFault>, OutOfMemory>
    ensures { IfOk result (λ id. (w : SourceWorld) → (id, w) ≡ asking.dashed_asked (ids, w)) }
{
    match ids {
        Ok(ids) => {
            let id = dashed(alloc, ids.items())?;
            Ok(Ok(PyText::from_vec(id)))
        }
        Err(fault) => Ok(Err(fault)),
    }
}

/// Asks for the id of a set, unless it has one.
fn set_asked(
    alloc: Global,
    world: &mut World,
    limit: u64,
    hooks: &HookTable,
    impls: &[Impl],
    test: &FoundTest,
    number: usize,
    names: &[PyText],
    set: &ParamSet<Value>,
) -> Result<Result<PyId, RowsFault>, OutOfMemory>
    requires order { InHookOrder impls.now }
    ensures { IfOk result (λ id. (id, world.new) ≡ asking.set_asked limit hooks.now impls.now test.now number names.now set.now.values set.now.id world.old) }
{
    match &set.id {
        Some(id) => {
            let id = PyText::from_chars(alloc, id.chars())?;
            Ok(Ok(id))
        }
        None => {
            let values = set.values.items();
            let ids = values_asked(
                alloc, world, limit, hooks, impls, test, number, names, values,
            )?;
            dashed_ids(alloc, ids)
        }
    }
}

/// Asks for the ids of the sets of a `parametrize` with these names.
pub(crate) fn sets_asked(
    alloc: Global,
    world: &mut World,
    limit: u64,
    hooks: &HookTable,
    impls: &[Impl],
    test: &FoundTest,
    names: &[PyText],
    sets: &[ParamSet<Value>],
) -> Result<Result<Seq<PyId>, RowsFault>, OutOfMemory>
    requires order { InHookOrder impls.now }
    ensures { IfOk result (λ ids. (ids, world.new) ≡ asking.sets_asked limit hooks.now impls.now test.now 0 names.now sets.now world.old) }
{
    let mut ids = Seq::new(alloc);
    for number in 0..sets.len() {
        let id = set_asked(
            alloc,
            world,
            limit,
            hooks,
            impls,
            test,
            number,
            names,
            &sets[number],
        )?;
        let fault = push_asked(&mut ids, id)?;
        if let Some(fault) = fault {
            return Ok(Err(fault));
        }
    }
    Ok(Ok(ids))
}

/// So many times this name.
fn repeated(alloc: Global, name: &PyText, count: usize) -> Result<Seq<PyText>, OutOfMemory>
    ensures { IfOk result (λ names. names ≡ replicate count name.now) }
{
    let mut names = Seq::new(alloc);
    for _ in 0..count {
        names.push(PyText::from_chars(alloc, name.chars())?)?;
    }
    Ok(names)
}

/// Asks for the id of a parameter of a fixture, whose name serves for each value.
fn param_asked(
    alloc: Global,
    world: &mut World,
    limit: u64,
    hooks: &HookTable,
    impls: &[Impl],
    test: &FoundTest,
    number: usize,
    name: &PyText,
    set: &ParamSet<Value>,
) -> Result<Result<PyId, RowsFault>, OutOfMemory>
    requires order { InHookOrder impls.now }
    ensures { IfOk result (λ id. (id, world.new) ≡ asking.set_asked limit hooks.now impls.now test.now number (replicate (length set.now.values) name.now) set.now.values set.now.id world.old) }
{
    let names = repeated(alloc, name, set.values.len())?;
    set_asked(
        alloc,
        world,
        limit,
        hooks,
        impls,
        test,
        number,
        names.items(),
        set,
    )
}

/// Asks for the ids of the parameters of a fixture with this name.
pub(crate) fn params_asked(
    alloc: Global,
    world: &mut World,
    limit: u64,
    hooks: &HookTable,
    impls: &[Impl],
    test: &FoundTest,
    name: &PyText,
    sets: &[ParamSet<Value>],
) -> Result<Result<Seq<PyId>, RowsFault>, OutOfMemory>
    requires order { InHookOrder impls.now }
    ensures { IfOk result (λ ids. (ids, world.new) ≡ asking.params_asked limit hooks.now impls.now test.now 0 name.now sets.now world.old) }
{
    let mut ids = Seq::new(alloc);
    for number in 0..sets.len() {
        let id = param_asked(
            alloc,
            world,
            limit,
            hooks,
            impls,
            test,
            number,
            name,
            &sets[number],
        )?;
        let fault = push_asked(&mut ids, id)?;
        if let Some(fault) = fault {
            return Ok(Err(fault));
        }
    }
    Ok(Ok(ids))
}
