// What is found in loaded files.

ghost use Rattle.std.specs.Prelude.{◌≡◌, ◌+◌, ◌≤◌, ◌++◌, ◌∷◌, [], IfOk, OnOk, length, map, replicate};
ghost use Rattle.fixture_definitions.specs.Tests.{all_tests, tests_of};
ghost use Rattle.fixture_table.specs.Tree.{IsTree};
ghost use Rattle.collect_items.specs.Items as items;
ghost use Rattle.collect_items.specs.Nodes as nodes;

use crate::copies::fixtures_of;
use crate::item::{classes_in, items_from};
use crate::nodes::{by_place, file_nodes};
use crate::order::keys_of;
use collect_fixtures::{all_names, table_of};
use collect_rows::{FileItems, FoundItem, RowsFault, items_of_tests};
use collect_words::{FileNodes, Walk};
use collection_nodes::{
    Mentions, PlacedFile, TestFile, all_folders, narrow, outer_nodes, placed_files, plus,
};
use fixture_definitions::{Definition, FoundTest, all_definitions, tests_of};
use fixture_table::{CollectionNode, Table};
use param_rows::ItemKeys;
use py_values::heap::Heap;
use report_parts::Text;
use seq::{OutOfMemory, Seq};
use std::alloc::Global;
use test_suite::{HookTable, Suite};

/// A test file with what was found of it.
#[derive(Drop)]
pub struct FoundFile {
    pub file: TestFile,
    /// Its classes of tests, as words name them.
    pub classes: Seq<Text>,
    /// Its items, or the fault of their rows.
    pub items: FileItems,
}

/// A suite, with the table of its fixtures.
#[derive(Drop)]
pub struct FoundSuite {
    pub suite: Suite,
    pub table: Table,
}

/// What was found in test files.
#[derive(Drop)]
pub struct FoundItems {
    pub found: FoundSuite,
    /// The place of the file of each item.
    pub places: Vec<usize>,
    /// What the order of each item goes by.
    pub keys: Vec<ItemKeys>,
    /// What words can name of each file, in the order of the walk.
    pub nodes: Vec<FileNodes>,
    /// The fault of the rows of each test file, where there is one.
    pub faults: Vec<Option<RowsFault>>,
}

/// What came of the files so far: the items, the nodes of each file beside its place, and the fault of its rows.
#[derive(Drop)]
pub(crate) struct ListedFiles {
    pub(crate) items: Vec<FoundItem>,
    pub(crate) nodes: Vec<(usize, FileNodes)>,
    pub(crate) faults: Vec<Option<RowsFault>>,
}

fn push_tests(
    alloc: Global,
    all: &mut Vec<FoundTest>,
    heap: &Heap,
    placed: PlacedFile,
) -> Result<(), OutOfMemory>
    ensures { OnOk result (all.new.items ≡ all.old.items ++ tests_of heap.now placed) }
{
    let mut tests = tests_of(alloc, heap, placed)?;
    all.append(&mut tests)?;
    Ok(())
}

/// The tests of files.
pub(crate) fn list_tests(
    alloc: Global,
    heap: &Heap,
    placed: &[PlacedFile],
) -> Result<Vec<FoundTest>, OutOfMemory>
    ensures { IfOk result (λ t. t.items ≡ all_tests heap.now placed.now) }
{
    let mut all = Vec::new(alloc);
    for one in placed {
        push_tests(alloc, &mut all, heap, *one)?;
    }
    Ok(all)
}

/// The parents of the nodes of tests.
pub(crate) fn test_parents(alloc: Global, tests: &[FoundTest]) -> Result<Vec<u32>, OutOfMemory>
    ensures { IfOk result (λ parents. parents.items ≡ map items.parent_of_found tests.now) }
{
    let mut parents = Vec::new(alloc);
    for test in tests {
        parents.push(test.parent)?;
    }
    Ok(parents)
}

/// The parents of the nodes of items.
fn item_parents(alloc: Global, found: &[FoundItem]) -> Result<Vec<u32>, OutOfMemory>
    ensures { IfOk result (λ parents. parents.items ≡ map items.parent_of_item found.now) }
{
    let mut parents = Vec::new(alloc);
    for one in found {
        parents.push(one.parent)?;
    }
    Ok(parents)
}

/// The places of the files of items.
fn places_of(alloc: Global, found: &[FoundItem]) -> Result<Vec<usize>, OutOfMemory>
    ensures { IfOk result (λ places. places.items ≡ map nodes.place_of_item found.now) }
{
    let mut places = Vec::new(alloc);
    for one in found {
        places.push(one.place)?;
    }
    Ok(places)
}

/// Puts a file behind the others.
pub(crate) fn list_file(
    alloc: Global,
    listed: &mut ListedFiles,
    found: FoundFile,
) -> Result<(), OutOfMemory>
    ensures items { OnOk result (listed.new.items.items ≡ listed.old.items.items ++ items.items_of_file found) }
    ensures nodes { OnOk result (listed.new.nodes.items ≡ listed.old.nodes.items ++ (found.file.place, nodes.nodes_of (length listed.old.items.items) found) ∷ []) }
    ensures faults { OnOk result (listed.new.faults.items ≡ listed.old.faults.items ++ items.fault_of_file found ∷ []) }
{
    let FoundFile {
        file,
        classes,
        items: came,
    } = found;
    let first = listed.items.len();
    match came {
        FileItems::Items(found) => {
            let one = file_nodes(alloc, first, file, classes, false, found.items())?;
            listed.nodes.push((file.place, one))?;
            listed.faults.push(None)?;
            let mut found = found.into_vec();
            listed.items.append(&mut found)?;
            Ok(())
        }
        FileItems::Fault(fault) => {
            let one = file_nodes(alloc, first, file, classes, true, &[])?;
            listed.nodes.push((file.place, one))?;
            listed.faults.push(Some(fault))?;
            Ok(())
        }
    }
}

/// Whether so many nodes from this one on are among the nodes.
fn is_within(node: u32, many: usize, count: usize) -> bool
    ensures { result ≡ true → node + many ≤ count }
{
    match (node as usize).checked_add(many) {
        Some(end) => end <= count,
        None => false,
    }
}

ghost use Rattle.std.specs.Prelude.{true};

/// Puts what comes of the tests of a file behind the others; their nodes follow one another from this one on. The node behind them.
fn list_one(
    alloc: Global,
    heap: &Heap,
    listed: &mut ListedFiles,
    table: &Table,
    count: usize,
    names: &Mentions,
    definitions: &[Definition],
    node: u32,
    placed: PlacedFile,
) -> Result<u32, OutOfMemory>
    requires same { length definitions.now ≡ length table.now.defs }
    requires count { count ≡ length table.now.nodes }
    ensures items { OnOk result (listed.new.items.items ≡ listed.old.items.items ++ items.items_of_file (items.file_found heap.now (items.fixtures_with table.now names.now definitions.now) node placed)) }
    ensures nodes { OnOk result (listed.new.nodes.items ≡ listed.old.nodes.items ++ (placed.file.place, nodes.nodes_of (length listed.old.items.items) (items.file_found heap.now (items.fixtures_with table.now names.now definitions.now) node placed)) ∷ []) }
    ensures faults { OnOk result (listed.new.faults.items ≡ listed.old.faults.items ++ items.fault_of_file (items.file_found heap.now (items.fixtures_with table.now names.now definitions.now) node placed) ∷ []) }
    ensures behind { IfOk result (λ n. n ≡ node + length (tests_of heap.now placed)) }
{
    let tests = tests_of(alloc, heap, placed)?;
    let many = narrow(tests.len())?;
    if !is_within(node, tests.len(), count) {
        // Each test has a node.
        return Err(OutOfMemory);
    }
    let classes = classes_in(alloc, heap, placed.file)?;
    let found = FoundFile {
        file: placed.file,
        classes,
        items: items_of_tests(alloc, heap, table, names, definitions, node, &tests)?,
    };
    list_file(alloc, listed, found)?;
    plus(node, many)
}

/// What comes of the tests of files, whose nodes follow one another from this one on.
fn list_files(
    alloc: Global,
    heap: &Heap,
    table: &Table,
    count: usize,
    names: &Mentions,
    definitions: &[Definition],
    first: u32,
    placed: &[PlacedFile],
) -> Result<ListedFiles, OutOfMemory>
    requires same { length definitions.now ≡ length table.now.defs }
    requires count { count ≡ length table.now.nodes }
    ensures items { IfOk result (λ l. l.items.items ≡ items.all_items (items.files_found heap.now (items.fixtures_with table.now names.now definitions.now) first placed.now)) }
    ensures nodes { IfOk result (λ l. l.nodes.items ≡ nodes.all_nodes 0 (items.files_found heap.now (items.fixtures_with table.now names.now definitions.now) first placed.now)) }
    ensures faults { IfOk result (λ l. l.faults.items ≡ map items.fault_of_file (items.files_found heap.now (items.fixtures_with table.now names.now definitions.now) first placed.now)) }
{
    let mut listed = ListedFiles {
        items: Vec::new(alloc),
        nodes: Vec::new(alloc),
        faults: Vec::new(alloc),
    };
    let mut node = first;
    for one in placed {
        let behind = list_one(
            alloc,
            heap,
            &mut listed,
            table,
            count,
            names,
            definitions,
            node,
            *one,
        )?;
        node = behind;
    }
    Ok(listed)
}

/// What comes of the tests of files, where each test has a node behind these.
#[tactic(auto, unfolding(crate::specs::Items::files_behind))]
fn files_behind(
    alloc: Global,
    heap: &Heap,
    outer: Vec<CollectionNode>,
    names: &Mentions,
    definitions: &[Definition],
    tests: &[FoundTest],
    placed: &[PlacedFile],
) -> Result<ListedFiles, OutOfMemory>
    ensures items { IfOk result (λ l. l.items.items ≡ items.all_items (items.files_behind heap.now outer.items names.now definitions.now tests.now placed.now)) }
    ensures nodes { IfOk result (λ l. l.nodes.items ≡ nodes.all_nodes 0 (items.files_behind heap.now outer.items names.now definitions.now tests.now placed.now)) }
    ensures faults { IfOk result (λ l. l.faults.items ≡ map items.fault_of_file (items.files_behind heap.now outer.items names.now definitions.now tests.now placed.now)) }
{
    let first = narrow(outer.len())?;
    let parents = test_parents(alloc, tests)?;
    let Some(count) = outer.len().checked_add(parents.len()) else {
        // No memory holds so many nodes.
        drop(outer);
        return Err(OutOfMemory);
    };
    let table = table_of(alloc, outer, names, definitions, &parents)?;
    let listed = list_files(
        alloc,
        heap,
        &table,
        count,
        names,
        definitions,
        first,
        placed,
    );
    drop(table);
    listed
}

/// The suite of items whose nodes stand behind so many others.
fn suite_with(
    alloc: Global,
    heap: &Heap,
    walk: &Walk,
    outer: u32,
    table: &Table,
    names: &Mentions,
    definitions: &[Definition],
    found: &[FoundItem],
) -> Result<Suite, OutOfMemory>
    requires same { length definitions.now ≡ length table.now.defs }
    requires nodes { outer + length found.now ≤ length table.now.nodes }
    ensures { IfOk result (λ s. s ≡ items.suite_with heap.now walk.now outer (items.fixtures_with table.now names.now definitions.now) found.now) }
{
    let fixtures = fixtures_of(alloc, definitions)?;
    match items_from(alloc, heap, walk, table, names, definitions, outer, found) {
        Ok(items) => Ok(Suite {
            items,
            fixtures,
            outer,
            hooks: HookTable::new(alloc),
        }),
        Err(fault) => {
            drop(fixtures);
            Err(fault)
        }
    }
}

/// The suite over a table.
fn suite_over(
    alloc: Global,
    heap: &Heap,
    walk: &Walk,
    outer: u32,
    table: Table,
    names: &Mentions,
    definitions: &[Definition],
    found: &[FoundItem],
) -> Result<FoundSuite, OutOfMemory>
    requires same { length definitions.now ≡ length table.defs }
    requires nodes { outer + length found.now ≤ length table.nodes }
    requires tree { IsTree table.nodes }
    ensures suite { IfOk result (λ f. f ≡ items.suite_over heap.now walk.now outer found.now (items.fixtures_with table names.now definitions.now)) }
    ensures tree { IfOk result (λ f. IsTree f.table.nodes) }
{
    match suite_with(alloc, heap, walk, outer, &table, names, definitions, found) {
        Ok(suite) => Ok(FoundSuite { suite, table }),
        Err(fault) => {
            drop(table);
            Err(fault)
        }
    }
}

/// The suite of these items, behind these nodes.
#[tactic(auto, unfolding(crate::specs::Items::suite_behind))]
fn suite_behind(
    alloc: Global,
    heap: &Heap,
    walk: &Walk,
    outer: Vec<CollectionNode>,
    names: &Mentions,
    definitions: &[Definition],
    found: &[FoundItem],
) -> Result<FoundSuite, OutOfMemory>
    ensures suite { IfOk result (λ f. f ≡ items.suite_behind heap.now walk.now outer.items names.now definitions.now found.now) }
    ensures tree { IfOk result (λ f. IsTree f.table.nodes) }
{
    let count = narrow(outer.len())?;
    let parents = item_parents(alloc, found)?;
    let table = table_of(alloc, outer, names, definitions, &parents)?;
    suite_over(alloc, heap, walk, count, table, names, definitions, found)
}

/// What is found in files that were listed.
pub(crate) fn found_listed(
    alloc: Global,
    heap: &Heap,
    walk: &Walk,
    outer: Vec<CollectionNode>,
    names: &Mentions,
    definitions: &[Definition],
    listed: ListedFiles,
) -> Result<FoundItems, OutOfMemory>
    ensures suite { IfOk result (λ f. f.found ≡ items.suite_behind heap.now walk.now outer.items names.now definitions.now listed.items.items) }
    ensures places { IfOk result (λ f. f.places.items ≡ map nodes.place_of_item listed.items.items) }
    ensures keys { IfOk result (λ f. f.keys.items ≡ map (choice.item_keys definitions.now) listed.items.items) }
    ensures nodes { IfOk result (λ f. f.nodes.items ≡ nodes.with_nodes listed.nodes.items (replicate (length walk.now) nodes.no_nodes)) }
    ensures faults { IfOk result (λ f. f.faults ≡ listed.faults) }
    ensures tree { IfOk result (λ f. IsTree f.found.table.nodes) }
{
    let ListedFiles {
        items: all,
        nodes: beside,
        faults,
    } = listed;
    let found = suite_behind(alloc, heap, walk, outer, names, definitions, &all)?;
    let places = places_of(alloc, &all)?;
    let keys = keys_of(alloc, definitions, &all)?;
    let nodes = by_place(alloc, walk.paths().len(), beside)?;
    Ok(FoundItems {
        found,
        places,
        keys,
        nodes,
        faults,
    })
}

ghost use Rattle.collect_items.specs.Chosen as choice;

/// What is found in test files with these definitions and tests, behind these nodes.
#[tactic(auto, unfolding(crate::specs::Nodes::item_places, crate::specs::Nodes::nodes_by_place))]
fn found_behind(
    alloc: Global,
    heap: &Heap,
    walk: &Walk,
    outer: Vec<CollectionNode>,
    definitions: &[Definition],
    tests: &[FoundTest],
    placed: &[PlacedFile],
) -> Result<FoundItems, OutOfMemory>
    ensures suite { IfOk result (λ f. f.found ≡ (items.findings_behind heap.now walk.now outer.items definitions.now tests.now placed.now).suite) }
    ensures places { IfOk result (λ f. f.places.items ≡ nodes.item_places (items.findings_behind heap.now walk.now outer.items definitions.now tests.now placed.now).files) }
    ensures keys { IfOk result (λ f. f.keys.items ≡ (items.findings_behind heap.now walk.now outer.items definitions.now tests.now placed.now).keys) }
    ensures nodes { IfOk result (λ f. f.nodes.items ≡ nodes.nodes_by_place walk.now (items.findings_behind heap.now walk.now outer.items definitions.now tests.now placed.now).files) }
    ensures faults { IfOk result (λ f. f.faults.items ≡ map items.fault_of_file (items.findings_behind heap.now walk.now outer.items definitions.now tests.now placed.now).files) }
    ensures tree { IfOk result (λ f. IsTree f.found.table.nodes) }
{
    let names = all_names(alloc, definitions, tests)?;
    let copy = Vec::from_slice(alloc, &outer)?;
    let listed = files_behind(alloc, heap, copy, &names, definitions, tests, placed)?;
    found_listed(alloc, heap, walk, outer, &names, definitions, listed)
}

/// What is found in test files at their nodes.
fn found_under(
    alloc: Global,
    heap: &Heap,
    walk: &Walk,
    folders: &Mentions,
    conftests: &[TestFile],
    placed: &[PlacedFile],
) -> Result<FoundItems, OutOfMemory>
    ensures suite { IfOk result (λ f. f.found ≡ (items.findings_under heap.now walk.now folders.now conftests.now placed.now).suite) }
    ensures places { IfOk result (λ f. f.places.items ≡ nodes.item_places (items.findings_under heap.now walk.now folders.now conftests.now placed.now).files) }
    ensures keys { IfOk result (λ f. f.keys.items ≡ (items.findings_under heap.now walk.now folders.now conftests.now placed.now).keys) }
    ensures nodes { IfOk result (λ f. f.nodes.items ≡ nodes.nodes_by_place walk.now (items.findings_under heap.now walk.now folders.now conftests.now placed.now).files) }
    ensures faults { IfOk result (λ f. f.faults.items ≡ map items.fault_of_file (items.findings_under heap.now walk.now folders.now conftests.now placed.now).files) }
    ensures tree { IfOk result (λ f. IsTree f.found.table.nodes) }
{
    let tests = list_tests(alloc, heap, placed)?;
    let definitions = all_definitions(alloc, heap, walk, folders, conftests, placed)?;
    let outer = outer_nodes(alloc, heap, walk, folders, placed)?;
    found_behind(alloc, heap, walk, outer, &definitions, &tests, placed)
}

/// What is found in test files and the conftests above them, with the objects as they are behind all loads.
#[tactic(auto, unfolding(crate::specs::Items::findings))]
pub fn found_items(
    alloc: Global,
    heap: &Heap,
    walk: &Walk,
    conftests: &[TestFile],
    files: &[TestFile],
) -> Result<FoundItems, OutOfMemory>
    ensures suite { IfOk result (λ f. f.found ≡ (items.findings heap.now walk.now conftests.now files.now).suite) }
    ensures places { IfOk result (λ f. f.places.items ≡ nodes.item_places (items.findings heap.now walk.now conftests.now files.now).files) }
    ensures keys { IfOk result (λ f. f.keys.items ≡ (items.findings heap.now walk.now conftests.now files.now).keys) }
    ensures nodes { IfOk result (λ f. f.nodes.items ≡ nodes.nodes_by_place walk.now (items.findings heap.now walk.now conftests.now files.now).files) }
    ensures faults { IfOk result (λ f. f.faults.items ≡ map items.fault_of_file (items.findings heap.now walk.now conftests.now files.now).files) }
    ensures tree { IfOk result (λ f. IsTree f.found.table.nodes) }
{
    let folders = all_folders(alloc, walk, files)?;
    let placed = placed_files(alloc, heap, &folders, files)?;
    found_under(alloc, heap, walk, &folders, conftests, &placed)
}
