// Items, as they are shown.

ghost use Rattle.std.specs.Prelude.{◌≡◌, ◌<◌, All, IfOk, length, map};
ghost use Rattle.test_session.specs.Collections as shown;
ghost use Rattle.test_suite.specs.Suites.{numbered_item};

use collect_names::found::TestClass;
use fixture_instances::ItemRef;
use fixture_world::demanding;
use py_values::rows::Values;
use py_values::value::Value;
use report_parts::Text;
use seq::{OutOfMemory, PyText, Seq};
use std::alloc::Global;
use test_suite::ItemClosure;

/// A selected item.
#[derive(Drop)]
pub struct Item {
    pub node_id: Text,
    /// What the title of a block of a report calls it.
    pub title: Text,
    /// The path of its file.
    pub file: Text,
    /// Its node, the values that its row binds, and the parameters that its row gives to fixtures.
    pub at: ItemRef<Value>,
    pub function: Value,
    /// The object of its class, where it has one.
    pub class: Option<Value>,
    /// The arguments of its function, in order, without the instance; `request` may be among them.
    pub arguments: Seq<PyText>,
    /// What its set-up demands, broad scopes first; or the text of the fault of its fixtures.
    pub closure: ItemClosure,
    /// Its marks, nearest first; those of its row stand behind its function's.
    pub marks: Values,
    /// Whether it stands for an empty list of rows.
    pub empty: bool,
}

fn copied(alloc: Global, text: &Text) -> Result<Text, OutOfMemory>
    ensures { IfOk result (λ t. t ≡ text.now) }
{
    Text::from_str(alloc, text.text())
}

fn class_object(class: &Option<TestClass>) -> Option<Value>
    ensures { result ≡ shown.class_object class.now }
{
    match class {
        Some(class) => Some(class.object),
        None => None,
    }
}

fn copied_names(alloc: Global, names: &[PyText]) -> Result<Seq<PyText>, OutOfMemory>
    ensures { IfOk result (λ copies. copies ≡ names.now) }
{
    let mut copies = Seq::new(alloc);
    for name in names {
        copies.push(PyText::from_chars(alloc, name.chars())?)?;
    }
    Ok(copies)
}

fn copied_closure(alloc: Global, closure: &ItemClosure) -> Result<ItemClosure, OutOfMemory>
    ensures { IfOk result (λ c. c ≡ closure.now) }
{
    match closure {
        ItemClosure::Whole(defs) => Ok(ItemClosure::Whole(defs.copied(alloc)?)),
        ItemClosure::Fault(text) => Ok(ItemClosure::Fault(PyText::from_chars(
            alloc,
            text.chars(),
        )?)),
    }
}

fn copied_marks(alloc: Global, marks: &[Value]) -> Result<Values, OutOfMemory>
    ensures { IfOk result (λ copies. copies ≡ marks.now) }
{
    let copies = Vec::from_slice(alloc, marks)?;
    Ok(Values::from_vec(copies))
}

/// An item as it is shown.
fn item_shown(alloc: Global, item: &test_suite::Item) -> Result<Item, OutOfMemory>
    ensures { IfOk result (λ i. i ≡ shown.item_shown item.now) }
{
    let at = demanding(alloc, item, None)?;
    let arguments = copied_names(alloc, item.arguments.items())?;
    let closure = copied_closure(alloc, &item.closure)?;
    let marks = copied_marks(alloc, item.marks.items())?;
    Ok(Item {
        node_id: copied(alloc, &item.node_id)?,
        title: copied(alloc, &item.title)?,
        file: copied(alloc, &item.file)?,
        at,
        function: item.test.function,
        class: class_object(&item.test.class),
        arguments,
        closure,
        marks,
        empty: item.empty,
    })
}

fn item_at<'a>(items: &'a [test_suite::Item], number: u32) -> &'a test_suite::Item
    requires { number < length items.now }
    ensures { result.now ≡ numbered_item items.now number }
{
    &items[number as usize]
}

/// The items with these numbers, as they are shown.
pub(crate) fn items_shown(
    alloc: Global,
    items: &[test_suite::Item],
    selected: &[u32],
) -> Result<Vec<Item>, OutOfMemory>
    requires in_range { All (λ n. n < length items.now) selected.now }
    ensures { IfOk result (λ all. all.items ≡ map (λ n. shown.item_shown (numbered_item items.now n)) selected.now) }
{
    let mut all = Vec::new(alloc);
    for number in selected {
        all.push(item_shown(alloc, item_at(items, *number))?)?;
    }
    Ok(all)
}
