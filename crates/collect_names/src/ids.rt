// Node ids and titles of items.

ghost use Rattle.std.specs.Prelude.{◌≡◌, ◌++◌, IfOk, OnOk, option_copied};
ghost use Rattle.collect_names.specs.Ids as ids;

use crate::found::{TestClass, TestFunction};
use py_values::end::push_ascii;
use seq::{OutOfMemory, PyText};
use std::alloc::Global;

fn push_class(
    text: &mut Vec<char>,
    between: &str,
    class: &Option<TestClass>,
) -> Result<(), OutOfMemory>
    ensures { OnOk result (text.new.items ≡ text.old.items ++ ids.class_before between.now class.now) }
{
    if let Some(class) = class {
        text.extend_from_slice(class.name.chars())?;
        push_ascii(text, between)?;
    }
    Ok(())
}

fn push_row(text: &mut Vec<char>, id: Option<&PyText>) -> Result<(), OutOfMemory>
    ensures { OnOk result (text.new.items ≡ text.old.items ++ ids.id_behind (option_copied id.entry)) }
{
    if let Some(id) = id {
        push_ascii(text, "[")?;
        text.extend_from_slice(id.chars())?;
        push_ascii(text, "]")?;
    }
    Ok(())
}

#[tactic(auto, unfolding(crate::specs::Ids::item_name))]
fn push_name(
    text: &mut Vec<char>,
    test: &TestFunction,
    id: Option<&PyText>,
) -> Result<(), OutOfMemory>
    ensures { OnOk result (text.new.items ≡ text.old.items ++ ids.item_name test.now (option_copied id.entry)) }
{
    text.extend_from_slice(test.name.chars())?;
    push_row(text, id)
}

#[tactic(auto, unfolding(crate::specs::Ids::item_part))]
fn push_part(
    text: &mut Vec<char>,
    test: &TestFunction,
    id: Option<&PyText>,
) -> Result<(), OutOfMemory>
    ensures { OnOk result (text.new.items ≡ text.old.items ++ ids.item_part test.now (option_copied id.entry)) }
{
    push_class(text, "::", &test.class)?;
    push_name(text, test, id)
}

/// An item's name: its function's, with the id of its row, where it has one.
pub fn item_name(
    alloc: Global,
    test: &TestFunction,
    id: Option<&PyText>,
) -> Result<PyText, OutOfMemory>
    ensures { IfOk result (λ t. t ≡ ids.item_name test.now (option_copied id.entry)) }
{
    let mut text = Vec::new(alloc);
    push_name(&mut text, test, id)?;
    Ok(PyText::from_vec(text))
}

/// What stands behind the path in an item's node id: `CLASS::NAME`, or `NAME` outside classes.
pub fn item_part(
    alloc: Global,
    test: &TestFunction,
    id: Option<&PyText>,
) -> Result<PyText, OutOfMemory>
    ensures { IfOk result (λ t. t ≡ ids.item_part test.now (option_copied id.entry)) }
{
    let mut text = Vec::new(alloc);
    push_part(&mut text, test, id)?;
    Ok(PyText::from_vec(text))
}

/// An item's node id: `PATH::CLASS::NAME` (pytest's how-to guide, "Specifying which tests to run").
#[tactic(auto, unfolding(crate::specs::Ids::item_id))]
pub fn item_id(
    alloc: Global,
    path: &PyText,
    test: &TestFunction,
    id: Option<&PyText>,
) -> Result<PyText, OutOfMemory>
    ensures { IfOk result (λ t. t ≡ ids.item_id path.now test.now (option_copied id.entry)) }
{
    let mut text = Vec::from_slice(alloc, path.chars())?;
    push_ascii(&mut text, "::")?;
    push_part(&mut text, test, id)?;
    Ok(PyText::from_vec(text))
}

/// An item's title in a report: `CLASS.NAME`.
#[tactic(auto, unfolding(crate::specs::Ids::item_title))]
pub fn item_title(
    alloc: Global,
    test: &TestFunction,
    id: Option<&PyText>,
) -> Result<PyText, OutOfMemory>
    ensures { IfOk result (λ t. t ≡ ids.item_title test.now (option_copied id.entry)) }
{
    let mut text = Vec::new(alloc);
    push_class(&mut text, ".", &test.class)?;
    push_name(&mut text, test, id)?;
    Ok(PyText::from_vec(text))
}
