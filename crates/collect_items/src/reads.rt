// What is read of loaded files before rows are made, and what is found in files that came of it.

ghost use Rattle.std.specs.Prelude.{◌≡◌, ◌+◌, IfOk, length, map};
ghost use Rattle.fixture_table.specs.Tree.{IsTree};
ghost use Rattle.collect_items.specs.Items as items;
ghost use Rattle.collect_items.specs.Nodes as nodes;
ghost use Rattle.collect_items.specs.Reads as reads;

use crate::found::{
    FoundFile, FoundItems, ListedFiles, found_listed, list_file, list_tests, test_parents,
};
use crate::item::classes_in;
use collect_fixtures::{all_names, table_of};
use collect_words::Walk;
use collection_nodes::{Mentions, PlacedFile, TestFile, all_folders, outer_nodes, placed_files};
use fixture_definitions::{Definition, FoundTest, all_definitions, tests_of};
use fixture_table::{CollectionNode, Table};
use py_values::heap::Heap;
use report_parts::Text;
use seq::{OutOfMemory, Seq};
use std::alloc::Global;

/// A test file with its tests.
#[derive(Drop)]
pub struct FileTests {
    pub placed: PlacedFile,
    /// Its classes of tests, as words name them.
    pub classes: Seq<Text>,
    pub tests: Seq<FoundTest>,
}

/// What rows and items are made over.
#[derive(Drop)]
pub struct ItemBasis {
    /// The nodes of folders, files and classes.
    pub outer: Seq<CollectionNode>,
    /// The names that stand for fixtures, by number.
    pub names: Mentions,
    /// The definitions of fixtures, by number.
    pub definitions: Seq<Definition>,
    /// The parents of the nodes of the tests, which stand behind the others.
    pub parents: Seq<u32>,
}

/// What is read of loaded files.
#[derive(Drop)]
pub struct FilesRead {
    pub basis: ItemBasis,
    pub files: Seq<FileTests>,
}

fn file_tests(alloc: Global, heap: &Heap, placed: PlacedFile) -> Result<FileTests, OutOfMemory>
    ensures { IfOk result (λ f. f ≡ reads.file_tests heap.now placed) }
{
    let classes = classes_in(alloc, heap, placed.file)?;
    let tests = tests_of(alloc, heap, placed)?;
    Ok(FileTests {
        placed,
        classes,
        tests: Seq::from_vec(tests),
    })
}

/// The files with their tests.
fn all_tests_of(
    alloc: Global,
    heap: &Heap,
    placed: &[PlacedFile],
) -> Result<Seq<FileTests>, OutOfMemory>
    ensures { IfOk result (λ files. files ≡ map (reads.file_tests heap.now) placed.now) }
{
    let mut files = Seq::new(alloc);
    for one in placed {
        let file = file_tests(alloc, heap, *one)?;
        files.push(file)?;
    }
    Ok(files)
}

/// What rows and items are made over, with the nodes of these tests behind these nodes.
fn basis_of(
    alloc: Global,
    outer: Vec<CollectionNode>,
    definitions: Vec<Definition>,
    tests: &[FoundTest],
) -> Result<ItemBasis, OutOfMemory>
    ensures { IfOk result (λ b. b ≡ reads.basis_of outer.items definitions.items tests.now) }
{
    let names = all_names(alloc, &definitions, tests)?;
    let parents = test_parents(alloc, tests)?;
    Ok(ItemBasis {
        outer: Seq::from_vec(outer),
        names,
        definitions: Seq::from_vec(definitions),
        parents: Seq::from_vec(parents),
    })
}

/// What is read of test files at their nodes.
fn read_under(
    alloc: Global,
    heap: &Heap,
    walk: &Walk,
    folders: &Mentions,
    conftests: &[TestFile],
    placed: &[PlacedFile],
) -> Result<FilesRead, OutOfMemory>
    ensures { IfOk result (λ r. r ≡ reads.read_under heap.now walk.now folders.now conftests.now placed.now) }
{
    let tests = list_tests(alloc, heap, placed)?;
    let definitions = all_definitions(alloc, heap, walk, folders, conftests, placed)?;
    let outer = outer_nodes(alloc, heap, walk, folders, placed)?;
    let basis = basis_of(alloc, outer, definitions, &tests)?;
    let files = all_tests_of(alloc, heap, placed)?;
    Ok(FilesRead { basis, files })
}

/// What is read of test files and the conftests above them, with the objects as they are behind all loads.
#[tactic(auto, unfolding(crate::specs::Reads::files_read))]
pub fn read_files(
    alloc: Global,
    heap: &Heap,
    walk: &Walk,
    conftests: &[TestFile],
    files: &[TestFile],
) -> Result<FilesRead, OutOfMemory>
    ensures { IfOk result (λ r. r ≡ reads.files_read heap.now walk.now conftests.now files.now) }
{
    let folders = all_folders(alloc, walk, files)?;
    let placed = placed_files(alloc, heap, &folders, files)?;
    read_under(alloc, heap, walk, &folders, conftests, &placed)
}

/// The table of the definitions, with a node for each test.
pub fn table_in(alloc: Global, basis: &ItemBasis) -> Result<Table, OutOfMemory>
    ensures table { IfOk result (λ t. t ≡ (reads.table_in basis.now).table) }
    ensures defs { IfOk result (λ t. length basis.now.definitions ≡ length t.defs) }
    ensures nodes { IfOk result (λ t. length t.nodes ≡ length basis.now.outer + length basis.now.parents) }
{
    let outer = Vec::from_slice(alloc, basis.outer.items())?;
    let definitions = basis.definitions.items();
    table_of(
        alloc,
        outer,
        &basis.names,
        definitions,
        basis.parents.items(),
    )
}

/// Lists files.
fn list_found(alloc: Global, files: Seq<FoundFile>) -> Result<ListedFiles, OutOfMemory>
    ensures items { IfOk result (λ l. l.items.items ≡ items.all_items files) }
    ensures nodes { IfOk result (λ l. l.nodes.items ≡ nodes.all_nodes 0 files) }
    ensures faults { IfOk result (λ l. l.faults.items ≡ map items.fault_of_file files) }
{
    let mut listed = ListedFiles {
        items: Vec::new(alloc),
        nodes: Vec::new(alloc),
        faults: Vec::new(alloc),
    };
    for file in files.into_vec() {
        list_file(alloc, &mut listed, file)?;
    }
    Ok(listed)
}

/// What is found in files that came of what was read.
#[tactic(auto, unfolding(crate::specs::Nodes::item_places, crate::specs::Nodes::nodes_by_place))]
pub fn found_in(
    alloc: Global,
    heap: &Heap,
    walk: &Walk,
    basis: &ItemBasis,
    files: Seq<FoundFile>,
) -> Result<FoundItems, OutOfMemory>
    ensures suite { IfOk result (λ f. f.found ≡ (reads.findings_in heap.now walk.now basis.now files).suite) }
    ensures places { IfOk result (λ f. f.places.items ≡ nodes.item_places files) }
    ensures keys { IfOk result (λ f. f.keys.items ≡ (reads.findings_in heap.now walk.now basis.now files).keys) }
    ensures nodes { IfOk result (λ f. f.nodes.items ≡ nodes.nodes_by_place walk.now files) }
    ensures faults { IfOk result (λ f. f.faults.items ≡ map items.fault_of_file files) }
    ensures tree { IfOk result (λ f. IsTree f.found.table.nodes) }
{
    let listed = list_found(alloc, files)?;
    let outer = Vec::from_slice(alloc, basis.outer.items())?;
    let definitions = basis.definitions.items();
    found_listed(alloc, heap, walk, outer, &basis.names, definitions, listed)
}
