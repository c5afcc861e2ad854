// The tree of collection.

ghost use Rattle.std.specs.Prelude.{◌≡◌, ◌+◌, ◌++◌, ◌∷◌, [], IfOk, MatchOption, OnOk, length, map, replicate};
ghost use Rattle.std.specs.List.{flat_map};
ghost use Rattle.collect_names.specs.Found.{class_nodes};
ghost use Rattle.collection_nodes.specs.Tree as tree;
ghost use Rattle.fixture_table.specs.declared.types.NodeKind.TheVariants as kind;

use crate::folders::{file_path, outer_node};
use crate::mentions::{Mentions, narrow};
use crate::placed_file::PlacedFile;
use crate::test_file::TestFile;
use collect_names::names::class_nodes;
use collect_names::objects::object_in;
use collect_words::Walk;
use fixture_table::{CollectionNode, NodeKind};
use py_values::heap::Heap;
use py_values::names::Names;
use py_values::object::Obj;
use py_values::value::Value;
use seq::OutOfMemory;
use std::alloc::Global;

/// The names of the module that an object is.
fn names_at<'a>(obj: Option<&'a Obj>) -> Option<&'a Names>
    ensures { MatchOption result (names_in (option_copied obj.entry) ≡ []) (λ names. names_in (option_copied obj.entry) ≡ names.now) }
{
    match obj {
        Some(Obj::Module(object)) => Some(&object.names),
        Some(
            Obj::Text(_)
            | Obj::List(_)
            | Obj::Tuple(_)
            | Obj::Dict(_)
            | Obj::Range(_)
            | Obj::Function(_)
            | Obj::Method(_)
            | Obj::Builtin(_)
            | Obj::Class(_)
            | Obj::Instance(_)
            | Obj::Exception(_)
            | Obj::Fixture(_)
            | Obj::MarkMaker
            | Obj::Mark(_)
            | Obj::Hook(_)
            | Obj::Param(_)
            | Obj::Request(_)
            | Obj::Raises(_)
            | Obj::Info(_)
            | Obj::Item(_),
        )
        | None => None,
    }
}

ghost use Rattle.std.specs.Prelude.{option_copied};
ghost use Rattle.py_world.specs.Names.{names_in};

/// The names of a file's module, where it has one.
pub fn names_of_file<'a>(heap: &'a Heap, file: TestFile) -> Option<&'a Names>
    ensures { MatchOption result (tree.names_of_file heap.now file ≡ []) (λ names. tree.names_of_file heap.now file ≡ names.now) }
{
    match file.object {
        Some(v) => names_at(object_in(heap, v)),
        None => None,
    }
}

/// The classes of tests among some names, each once.
fn classes_among(alloc: Global, heap: &Heap, names: &Names) -> Result<Mentions, OutOfMemory>
    ensures { IfOk result (λ classes. classes ≡ with_mentions [] (class_nodes heap.now names.now)) }
{
    let found = class_nodes(alloc, heap, names)?;
    let mut classes = Mentions::new(alloc);
    classes.mention_all(alloc, &found)?;
    Ok(classes)
}

ghost use Rattle.collection_nodes.specs.Texts.{with_mentions};

/// The classes of tests of a file, by name, each once.
pub fn classes_of(alloc: Global, heap: &Heap, file: TestFile) -> Result<Mentions, OutOfMemory>
    ensures { IfOk result (λ classes. classes ≡ tree.classes_of heap.now file) }
{
    match names_of_file(heap, file) {
        Some(names) => classes_among(alloc, heap, names),
        None => Ok(Mentions::new(alloc)),
    }
}

fn count_classes(alloc: Global, heap: &Heap, file: TestFile) -> Result<u32, OutOfMemory>
    ensures { IfOk result (λ n. n ≡ length (tree.classes_of heap.now file)) }
{
    let classes = classes_of(alloc, heap, file)?;
    classes.count()
}

/// A number behind others.
pub fn plus(number: u32, more: u32) -> Result<u32, OutOfMemory>
    ensures { IfOk result (λ n. n ≡ number + more) }
{
    match number.checked_add(more) {
        Some(sum) => Ok(sum),
        // No memory holds so many.
        None => Err(OutOfMemory),
    }
}

/// The files whose nodes and whose classes' nodes follow one another from these on.
fn files_placed(
    alloc: Global,
    heap: &Heap,
    first_node: u32,
    first_class: u32,
    files: &[TestFile],
) -> Result<Vec<PlacedFile>, OutOfMemory>
    ensures { IfOk result (λ placed. placed.items ≡ tree.files_placed heap.now first_node first_class files.now) }
{
    let mut placed = Vec::new(alloc);
    let mut node = first_node;
    let mut first = first_class;
    for file in files {
        placed.push(PlacedFile {
            file: *file,
            node,
            first,
        })?;
        let behind = plus(node, 1)?;
        let more = count_classes(alloc, heap, *file)?;
        let next = plus(first, more)?;
        node = behind;
        first = next;
    }
    Ok(placed)
}

/// The files with their nodes: the files stand behind the folders, and all classes behind the files.
#[tactic(auto, unfolding(crate::specs::Tree::placed_files))]
pub fn placed_files(
    alloc: Global,
    heap: &Heap,
    folders: &Mentions,
    files: &[TestFile],
) -> Result<Vec<PlacedFile>, OutOfMemory>
    ensures { IfOk result (λ placed. placed.items ≡ tree.placed_files heap.now folders.now files.now) }
{
    let node = folders.count()?;
    let first = plus(node, narrow(files.len())?)?;
    files_placed(alloc, heap, node, first, files)
}

/// The node of a class of a file, by its name; these are the file's classes.
pub fn class_node(
    alloc: Global,
    placed: PlacedFile,
    classes: &Mentions,
    name: &[char],
) -> Result<u32, OutOfMemory>
    ensures { IfOk result (λ n. n ≡ placed.first + number_among classes.now name.now) }
{
    let number = classes.number(alloc, name)?;
    plus(placed.first, number)
}

ghost use Rattle.collection_nodes.specs.Texts.{number_among};

fn folder_kind(folder: &[char]) -> NodeKind
    ensures { result ≡ tree.folder_kind folder.now }
{
    match folder {
        [] => NodeKind::Session,
        [_, ..] => NodeKind::Directory,
    }
}

fn node_of_folder(
    alloc: Global,
    folders: &Mentions,
    folder: &[char],
) -> Result<CollectionNode, OutOfMemory>
    ensures { IfOk result (λ node. node ≡ tree.node_of_folder folders.now folder.now) }
{
    Ok(CollectionNode {
        kind: folder_kind(folder),
        parent: outer_node(alloc, folders, folder)?,
    })
}

fn push_folders(
    alloc: Global,
    nodes: &mut Vec<CollectionNode>,
    folders: &Mentions,
) -> Result<(), OutOfMemory>
    ensures { OnOk result (nodes.new.items ≡ nodes.old.items ++ map (tree.node_of_folder folders.now) folders.now) }
{
    for number in 0..folders.count()? {
        let node = node_of_folder(alloc, folders, folders.text(number))?;
        nodes.push(node)?;
    }
    Ok(())
}

fn node_of_file(
    alloc: Global,
    walk: &Walk,
    folders: &Mentions,
    placed: PlacedFile,
) -> Result<CollectionNode, OutOfMemory>
    ensures { IfOk result (λ node. node ≡ tree.node_of_file walk.now folders.now placed) }
{
    let path = file_path(alloc, walk, placed.file)?;
    Ok(CollectionNode {
        kind: NodeKind::File,
        parent: outer_node(alloc, folders, path.chars())?,
    })
}

fn push_file(
    alloc: Global,
    nodes: &mut Vec<CollectionNode>,
    walk: &Walk,
    folders: &Mentions,
    placed: PlacedFile,
) -> Result<(), OutOfMemory>
    ensures { OnOk result (nodes.new.items ≡ nodes.old.items ++ tree.node_of_file walk.now folders.now placed ∷ []) }
{
    let node = node_of_file(alloc, walk, folders, placed)?;
    nodes.push(node)?;
    Ok(())
}

fn push_files(
    alloc: Global,
    nodes: &mut Vec<CollectionNode>,
    walk: &Walk,
    folders: &Mentions,
    placed: &[PlacedFile],
) -> Result<(), OutOfMemory>
    ensures { OnOk result (nodes.new.items ≡ nodes.old.items ++ map (tree.node_of_file walk.now folders.now) placed.now) }
{
    for one in placed {
        push_file(alloc, nodes, walk, folders, *one)?;
    }
    Ok(())
}

fn push_same(
    nodes: &mut Vec<CollectionNode>,
    count: u32,
    node: CollectionNode,
) -> Result<(), OutOfMemory>
    ensures { OnOk result (nodes.new.items ≡ nodes.old.items ++ replicate count node) }
{
    for _ in 0..count {
        nodes.push(node)?;
    }
    Ok(())
}

/// Pushes the nodes of the classes of a file.
fn push_classes(
    alloc: Global,
    nodes: &mut Vec<CollectionNode>,
    heap: &Heap,
    placed: PlacedFile,
) -> Result<(), OutOfMemory>
    ensures { OnOk result (nodes.new.items ≡ nodes.old.items ++ tree.nodes_of_classes heap.now placed) }
{
    let count = count_classes(alloc, heap, placed.file)?;
    let node = CollectionNode {
        kind: NodeKind::Class,
        parent: placed.node,
    };
    push_same(nodes, count, node)
}

fn push_all_classes(
    alloc: Global,
    nodes: &mut Vec<CollectionNode>,
    heap: &Heap,
    placed: &[PlacedFile],
) -> Result<(), OutOfMemory>
    ensures { OnOk result (nodes.new.items ≡ nodes.old.items ++ flat_map (tree.nodes_of_classes heap.now) placed.now) }
{
    for one in placed {
        push_classes(alloc, nodes, heap, *one)?;
    }
    Ok(())
}

/// The nodes in front of those of the tests: the folders, the files, their classes of tests.
#[tactic(auto, unfolding(crate::specs::Tree::outer_nodes))]
pub fn outer_nodes(
    alloc: Global,
    heap: &Heap,
    walk: &Walk,
    folders: &Mentions,
    placed: &[PlacedFile],
) -> Result<Vec<CollectionNode>, OutOfMemory>
    ensures { IfOk result (λ nodes. nodes.items ≡ tree.outer_nodes heap.now walk.now folders.now placed.now) }
{
    let mut nodes = Vec::new(alloc);
    push_folders(alloc, &mut nodes, folders)?;
    push_files(alloc, &mut nodes, walk, folders, placed)?;
    push_all_classes(alloc, &mut nodes, heap, placed)?;
    Ok(nodes)
}
