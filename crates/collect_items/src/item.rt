// Items.

ghost use Rattle.std.specs.Prelude.{◌≡◌, ◌+◌, ◌≤◌, ◌<◌, ◌++◌, IfOk, OnOk, chars, encode_utf8_all, length, map};
ghost use Rattle.collect_names.specs.Ids.{item_id, item_title};
ghost use Rattle.collect_names.specs.Objects as objects;
ghost use Rattle.fixture_definitions.specs.Arguments.{defined_at};
ghost use Rattle.collect_items.specs.Items as items;

use crate::copies::{all_bound, all_params, copied_id, copied_values};
use collect_fixtures::{item_asks, item_closure};
use collect_names::copies::{copied_test, copied_texts};
use collect_names::found::TestFunction;
use collect_names::ids::{item_id, item_name, item_title};
use collect_names::objects::{function_at, object_in};
use collect_rows::FoundItem;
use collect_words::Walk;
use collection_nodes::{Mentions, TestFile, classes_of, path_text};
use fixture_definitions::{Definition, defined_at};
use fixture_table::Table;
use py_values::heap::Heap;
use py_world::TraceFrame;
use report_parts::Text;
use seq::{OutOfMemory, PyText, Seq, encoded};
use session_types::DefId;
use std::alloc::Global;
use test_suite::{BoundArgument, Item};

fn node_id(
    alloc: Global,
    path: &str,
    test: &TestFunction,
    id: Option<&PyText>,
) -> Result<Text, OutOfMemory>
    ensures { IfOk result (λ t. t ≡ encode_utf8_all (item_id (chars path.now) test.now (option_copied id.entry))) }
{
    let path = PyText::from_str(alloc, path)?;
    let id = item_id(alloc, &path, test, id)?;
    encoded(alloc, id.chars())
}

fn title(alloc: Global, test: &TestFunction, id: Option<&PyText>) -> Result<Text, OutOfMemory>
    ensures { IfOk result (λ t. t ≡ encode_utf8_all (item_title test.now (option_copied id.entry))) }
{
    let title = item_title(alloc, test, id)?;
    encoded(alloc, title.chars())
}

/// Where a test is defined.
fn def_of_test(alloc: Global, heap: &Heap, test: &TestFunction) -> Result<TraceFrame, OutOfMemory>
    ensures { IfOk result (λ f. f ≡ defined_at (objects.function_at (objects.object_in heap.now test.now.function))) }
{
    defined_at(alloc, function_at(object_in(heap, test.function)))
}

/// The names that a row binds, by number.
fn row_binds(alloc: Global, bound: &[BoundArgument]) -> Result<Seq<u32>, OutOfMemory>
    ensures { IfOk result (λ numbers. numbers ≡ map items.bound_number bound.now) }
{
    let mut numbers = Seq::new(alloc);
    for one in bound {
        numbers.push(one.number)?;
    }
    Ok(numbers)
}

/// What the arguments of an item stand for, whose row binds these names.
fn row_asks(
    alloc: Global,
    table: &Table,
    names: &Mentions,
    node: u32,
    empty: bool,
    bound: &[u32],
    arguments: &[PyText],
) -> Result<Seq<Option<DefId>>, OutOfMemory>
    requires { node < length table.now.nodes }
    ensures { IfOk result (λ asked. asked ≡ asks table.now names.now node (if empty then [] else bound.now) arguments.now) }
{
    if empty {
        return item_asks(alloc, table, names, node, &[], arguments);
    }
    item_asks(alloc, table, names, node, bound, arguments)
}

ghost use Rattle.std.specs.Prelude.{[], if◌then◌else◌, option_copied};
ghost use Rattle.collect_fixtures.specs.Closures.{item_asks as asks};

/// The item of a test's row with a node.
fn item(
    alloc: Global,
    heap: &Heap,
    walk: &Walk,
    table: &Table,
    names: &Mentions,
    definitions: &[Definition],
    node: u32,
    found: &FoundItem,
) -> Result<Item, OutOfMemory>
    requires same { length definitions.now ≡ length table.now.defs }
    requires item { node < length table.now.nodes }
    ensures { IfOk result (λ i. i ≡ items.item heap.now walk.now (items.fixtures_with table.now names.now definitions.now) node found.now) }
{
    let path = path_text(walk, found.place);
    let row = &found.row;
    let binds = row_binds(alloc, row.bound.items())?;
    let asked = row_asks(
        alloc,
        table,
        names,
        node,
        row.empty,
        binds.items(),
        found.arguments.items(),
    )?;
    let closure = item_closure(
        alloc,
        table,
        names,
        definitions,
        node,
        binds.items(),
        found.uses.items(),
        found.arguments.items(),
    )?;
    let arguments = copied_texts(alloc, found.arguments.items())?;
    let bound = all_bound(alloc, row.bound.items())?;
    let params = all_params(alloc, row.params.items())?;
    let id = copied_id(alloc, &row.id)?;
    let title = title(alloc, &found.test, row.id.as_ref())?;
    Ok(Item {
        node_id: node_id(alloc, path, &found.test, row.id.as_ref())?,
        title,
        file: Text::from_str(alloc, path)?,
        name: item_name(alloc, &found.test, row.id.as_ref())?,
        id,
        test: copied_test(alloc, &found.test)?,
        defined: def_of_test(alloc, heap, &found.test)?,
        marks: copied_values(alloc, found.marks.items())?,
        node,
        arguments,
        asked,
        bound,
        params,
        empty: row.empty,
        closure,
    })
}

/// A number behind this one.
fn next(number: u32) -> Result<u32, OutOfMemory>
    ensures { IfOk result (λ n. n ≡ number + 1) }
{
    match number.checked_add(1) {
        Some(next) => Ok(next),
        // No memory holds so many items.
        None => Err(OutOfMemory),
    }
}

fn push_item(
    alloc: Global,
    found: &mut Seq<Item>,
    heap: &Heap,
    walk: &Walk,
    table: &Table,
    names: &Mentions,
    definitions: &[Definition],
    node: u32,
    one: &FoundItem,
) -> Result<(), OutOfMemory>
    requires same { length definitions.now ≡ length table.now.defs }
    requires item { node < length table.now.nodes }
    ensures { OnOk result (found.new ≡ found.old ++ items.item heap.now walk.now (items.fixtures_with table.now names.now definitions.now) node one.now ∷ []) }
{
    let made = item(alloc, heap, walk, table, names, definitions, node, one)?;
    found.push(made)
}

ghost use Rattle.std.specs.Prelude.{◌∷◌, []};

/// Items whose nodes follow one another from this one on.
pub fn items_from(
    alloc: Global,
    heap: &Heap,
    walk: &Walk,
    table: &Table,
    names: &Mentions,
    definitions: &[Definition],
    first: u32,
    all: &[FoundItem],
) -> Result<Seq<Item>, OutOfMemory>
    requires same { length definitions.now ≡ length table.now.defs }
    requires nodes { first + length all.now ≤ length table.now.nodes }
    ensures { IfOk result (λ i. i ≡ items.items_from heap.now walk.now (items.fixtures_with table.now names.now definitions.now) first all.now) }
{
    let mut found = Seq::new(alloc);
    let mut node = first;
    for one in all {
        push_item(
            alloc,
            &mut found,
            heap,
            walk,
            table,
            names,
            definitions,
            node,
            one,
        )?;
        let behind = next(node)?;
        node = behind;
    }
    Ok(found)
}

fn push_encoded(
    alloc: Global,
    texts: &mut Seq<Text>,
    classes: &Mentions,
    number: u32,
) -> Result<(), OutOfMemory>
    ensures { OnOk result (texts.new ≡ texts.old ++ encode_utf8_all (text_numbered classes.now number) ∷ []) }
{
    let text = encoded(alloc, classes.text(number))?;
    texts.push(text)
}

ghost use Rattle.collection_nodes.specs.Texts.{text_numbered};

fn all_encoded(alloc: Global, classes: &Mentions) -> Result<Seq<Text>, OutOfMemory>
    ensures { IfOk result (λ t. t ≡ map encode_utf8_all classes.now) }
{
    let mut texts = Seq::new(alloc);
    for number in 0..classes.count()? {
        push_encoded(alloc, &mut texts, classes, number)?;
    }
    Ok(texts)
}

/// The classes of tests of a file, as words name them.
pub fn classes_in(alloc: Global, heap: &Heap, file: TestFile) -> Result<Seq<Text>, OutOfMemory>
    ensures { IfOk result (λ t. t ≡ items.classes_in heap.now file) }
{
    let classes = classes_of(alloc, heap, file)?;
    all_encoded(alloc, &classes)
}
