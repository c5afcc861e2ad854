// Why a phase of an item did not pass.

ghost use Rattle.std.specs.Prelude.{◌≡◌, IfOk};
ghost use Rattle.runtest_rules.specs.Failures as failures;

use collect_marks::says::skipped_by;
use fixture_calls::{Failure, exception_for};
use py_values::class::ExcClass;
use py_values::end::push_ascii;
use py_values::heap::Heap;
use seq::{OutOfMemory, PyText};
use std::alloc::Global;
use test_suite::{Item, ItemClosure};
use tracebacks::{World, heap};

fn skip_with(
    alloc: Global,
    world: &mut World,
    item: &Item,
    reason: Option<PyText>,
) -> Result<Option<Failure>, OutOfMemory>
    ensures { IfOk result (λ f. (f, world.new) ≡ failures.skip_made item.now reason world.old) }
{
    match reason {
        Some(reason) => {
            let thrown = exception_for(alloc, world, &item.defined, ExcClass::Skipped, reason)?;
            Ok(Some(Failure::Exception(thrown)))
        }
        None => Ok(None),
    }
}

/// Why an item is skipped, where it is.
fn skip_reason(alloc: Global, heap: &Heap, item: &Item) -> Result<Option<PyText>, OutOfMemory>
    ensures { IfOk result (λ r. r ≡ failures.skip_reason item.now heap.now) }
{
    if item.empty {
        return Ok(Some(PyText::from_vec(Vec::new(alloc))));
    }
    skipped_by(alloc, heap, item.marks.items())
}

/// The skip of an item, where it stands for an empty list of rows or its marks say so: `Skipped` with the reason (pytest's "Skipping test
/// functions"). Behind want of memory the world is spent.
#[tactic(auto, unfolding(crate::specs::Failures::skipped))]
pub fn skip(alloc: Global, world: &mut World, item: &Item) -> Result<Option<Failure>, OutOfMemory>
    ensures { IfOk result (λ f. (f, world.new) ≡ failures.skipped item.now world.old) }
{
    let reason = skip_reason(alloc, heap(world), item)?;
    skip_with(alloc, world, item, reason)
}

fn fault_text(alloc: Global, closure: &ItemClosure) -> Result<PyText, OutOfMemory>
    ensures { IfOk result (λ t. t ≡ failures.fault_text_of closure.now) }
{
    match closure {
        ItemClosure::Fault(text) => PyText::from_chars(alloc, text.chars()),
        ItemClosure::Whole(_) => Ok(PyText::from_vec(Vec::new(alloc))),
    }
}

/// The fault of an item's fixtures: `Failed` with its text. Behind want of memory the world is spent.
#[tactic(auto, unfolding(crate::specs::Failures::fixture_fault))]
pub fn fixture_fault(alloc: Global, world: &mut World, item: &Item) -> Result<Failure, OutOfMemory>
    ensures { IfOk result (λ f. (f, world.new) ≡ failures.fixture_fault item.now world.old) }
{
    let text = fault_text(alloc, &item.closure)?;
    let message = PyText::from_chars(alloc, text.chars())?;
    let thrown = exception_for(alloc, world, &item.defined, ExcClass::Failed, message)?;
    Ok(Failure::FixtureFault(thrown, text))
}

fn wrong_arguments_text(alloc: Global, name: &[char]) -> Result<PyText, OutOfMemory>
    ensures { IfOk result (λ t. t ≡ failures.wrong_arguments_text name.now) }
{
    let mut text = Vec::new(alloc);
    push_ascii(&mut text, "wrong arguments for ")?;
    text.extend_from_slice(name)?;
    Ok(PyText::from_vec(text))
}

/// The exception of a test without a value for one of its arguments: `TypeError`. Behind want of memory the world is spent.
#[tactic(auto, unfolding(crate::specs::Failures::wrong_arguments))]
pub fn wrong_arguments(
    alloc: Global,
    world: &mut World,
    item: &Item,
) -> Result<Failure, OutOfMemory>
    ensures { IfOk result (λ f. (f, world.new) ≡ failures.wrong_arguments item.now world.old) }
{
    let text = wrong_arguments_text(alloc, item.defined.name.chars())?;
    let thrown = exception_for(alloc, world, &item.defined, ExcClass::TypeError, text)?;
    Ok(Failure::Exception(thrown))
}
