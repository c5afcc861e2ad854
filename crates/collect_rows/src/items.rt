// The items of the tests of a file.

ghost use Rattle.std.specs.Prelude.{◌≡◌, ◌++◌, ◌+◌, ◌<◌, ◌≤◌, IfOk, OnOk, drop, length, map, take};
ghost use Rattle.collect_names.specs.Objects as objects;
ghost use Rattle.fixture_definitions.specs.Arguments.{defined_at};
ghost use Rattle.collect_rows.specs.FileItems as items;

use crate::row::{ItemRow, TestRows};
use crate::rows::test_rows;
use collect_names::copies::{copied_test, copied_texts};
use collect_names::found::TestFunction;
use collect_names::objects::{function_at, object_in};
use collection_nodes::{Mentions, TraceFrame, plus};
use fixture_definitions::{Definition, FoundTest, defined_at};
use fixture_table::Table;
use py_values::heap::Heap;
use py_values::rows::Values;
use py_values::value::Value;
use seq::{OutOfMemory, PyText, Seq};
use std::alloc::Global;

/// A test with one of its rows: an item, before it has its node.
#[derive(Drop)]
pub struct FoundItem {
    pub test: TestFunction,
    /// The place of its file in the walk.
    pub place: usize,
    /// The node of its file or its class.
    pub parent: u32,
    /// Its marks, nearest first; those of its row stand behind its function's.
    pub marks: Values,
    /// The names that `usefixtures` marks give, in the order of the marks.
    pub uses: Seq<PyText>,
    /// The arguments of its function, in order, without the instance; `request` may be among them.
    pub arguments: Seq<PyText>,
    pub row: ItemRow,
}

/// What is told of a fault of the rows of a test: its open calls, which are the place of the test's `def` or those of an exception.
#[derive(Drop)]
pub struct RowsFault {
    pub trace: Seq<TraceFrame>,
    pub text: PyText,
}

/// The items of the tests of a file; or the fault of the first test whose rows have one.
#[derive(Drop)]
pub enum FileItems {
    Items(Seq<FoundItem>),
    Fault(RowsFault),
}

/// The marks of a row behind so many of the others.
fn marks_behind(
    alloc: Global,
    near: usize,
    others: &[Value],
    marks: &[Value],
) -> Result<Values, OutOfMemory>
    ensures { IfOk result (λ all. all ≡ take near others.now ++ (marks.now ++ drop near others.now)) }
{
    let at = near.min(others.len());
    let mut all = Vec::from_slice(alloc, &others[..at])?;
    all.extend_from_slice(marks)?;
    all.extend_from_slice(&others[at..])?;
    Ok(Values::from_vec(all))
}

/// The item of a test with a row.
fn found_item(alloc: Global, test: &FoundTest, row: ItemRow) -> Result<FoundItem, OutOfMemory>
    ensures { IfOk result (λ i. i ≡ items.found_item test.now row) }
{
    let marks = marks_behind(alloc, test.near, test.marks.items(), row.marks.items())?;
    let uses = copied_texts(alloc, test.uses.items())?;
    let arguments = copied_texts(alloc, test.arguments.items())?;
    Ok(FoundItem {
        test: copied_test(alloc, &test.test)?,
        place: test.place,
        parent: test.parent,
        marks,
        uses,
        arguments,
        row,
    })
}

/// Pushes the items of a test with these rows.
pub fn push_items(
    alloc: Global,
    found: &mut Seq<FoundItem>,
    test: &FoundTest,
    rows: Seq<ItemRow>,
) -> Result<(), OutOfMemory>
    ensures { OnOk result (found.new ≡ found.old ++ map (items.found_item test.now) rows) }
{
    for row in rows.into_vec() {
        let one = found_item(alloc, test, row)?;
        found.push(one)?;
    }
    Ok(())
}

/// Where a test is defined.
fn def_of_test(alloc: Global, heap: &Heap, test: &TestFunction) -> Result<TraceFrame, OutOfMemory>
    ensures { IfOk result (λ f. f ≡ defined_at (objects.function_at (objects.object_in heap.now test.now.function))) }
{
    defined_at(alloc, function_at(object_in(heap, test.function)))
}

/// A fault that is told at the `def` of a test.
pub fn fault_at_def(
    alloc: Global,
    heap: &Heap,
    test: &FoundTest,
    text: PyText,
) -> Result<RowsFault, OutOfMemory>
    ensures { IfOk result (λ f. f ≡ items.fault_at (defined_at (objects.function_at (objects.object_in heap.now test.now.test.function))) text) }
{
    let mut trace = Seq::new(alloc);
    trace.push(def_of_test(alloc, heap, &test.test)?)?;
    Ok(RowsFault { trace, text })
}

/// Pushes the items of the test at a node; or what is told of the fault of its rows, at its `def`.
fn push_test(
    alloc: Global,
    found: &mut Seq<FoundItem>,
    heap: &Heap,
    table: &Table,
    names: &Mentions,
    definitions: &[Definition],
    node: u32,
    test: &FoundTest,
) -> Result<Option<RowsFault>, OutOfMemory>
    requires same { length definitions.now ≡ length table.now.defs }
    requires node { node < length table.now.nodes }
    ensures { IfOk result (λ fault. (others : FileItems) → items.or_fault fault (items.items_before found.new others) ≡ items.items_before found.old (items.test_before heap.now table.now names.now definitions.now node test.now others)) }
{
    match test_rows(alloc, heap, table, names, definitions, node, test)? {
        TestRows::Rows(rows) => {
            push_items(alloc, found, test, rows)?;
            Ok(None)
        }
        TestRows::Fault(text) => {
            let fault = fault_at_def(alloc, heap, test, text)?;
            Ok(Some(fault))
        }
    }
}

ghost use Rattle.collect_rows.specs.declared.items.FileItems.{FileItems};

/// The items of tests whose nodes follow one another from this one on, or the first fault of their rows.
pub fn items_of_tests(
    alloc: Global,
    heap: &Heap,
    table: &Table,
    names: &Mentions,
    definitions: &[Definition],
    first: u32,
    tests: &[FoundTest],
) -> Result<FileItems, OutOfMemory>
    requires same { length definitions.now ≡ length table.now.defs }
    requires nodes { first + length tests.now ≤ length table.now.nodes }
    ensures { IfOk result (λ i. i ≡ items.items_of_tests heap.now table.now names.now definitions.now first tests.now) }
{
    let mut found = Seq::new(alloc);
    let mut node = first;
    for test in tests {
        let fault = push_test(
            alloc,
            &mut found,
            heap,
            table,
            names,
            definitions,
            node,
            test,
        )?;
        if let Some(fault) = fault {
            return Ok(FileItems::Fault(fault));
        }
        let behind = plus(node, 1)?;
        node = behind;
    }
    Ok(FileItems::Items(found))
}
