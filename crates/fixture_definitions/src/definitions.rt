// What defines fixtures.

ghost use Rattle.std.specs.Prelude.{◌≡◌, ◌++◌, IfOk, OnOk, Some, option_copied};
ghost use Rattle.std.specs.List.{flat_map};
ghost use Rattle.collect_names.specs.Objects as objects;
ghost use Rattle.collection_nodes.specs.Tree as tree;
ghost use Rattle.fixture_definitions.specs.Definitions as definitions;

use crate::arguments::{asked_params, def_place, is_request};
use crate::found::Definition;
use collect_names::copies::copied;
use collect_names::names::is_class_node;
use collect_names::objects::{class_at, function_at, object_in};
use collect_params::fixture_params;
use collect_words::{Walk, is_conftest};
use collection_nodes::{
    Mentions, PlacedFile, TestFile, class_node, classes_of, file_path, names_of_file, outer_node,
    path_text,
};
use py_values::heap::Heap;
use py_values::names::Names;
use py_values::object::{FixtureObj, FixtureScope, FunctionObj, Obj};
use py_values::value::{ObjId, Value};
use seq::{OutOfMemory, PyText};
use session_types::Scope;
use std::alloc::Global;
use test_suite::Fixture;

/// What `fixture` made, where an object is that.
pub fn fixture_in<'a>(obj: Option<&'a Obj>) -> Option<&'a FixtureObj>
    ensures { option_copied result ≡ definitions.fixture_in (option_copied obj.entry) }
{
    match obj {
        Some(Obj::Fixture(fixture)) => Some(fixture),
        Some(
            Obj::Text(_)
            | Obj::List(_)
            | Obj::Tuple(_)
            | Obj::Dict(_)
            | Obj::Range(_)
            | Obj::Function(_)
            | Obj::Method(_)
            | Obj::Builtin(_)
            | Obj::Class(_)
            | Obj::Instance(_)
            | Obj::Exception(_)
            | Obj::Module(_)
            | Obj::MarkMaker
            | Obj::Mark(_)
            | Obj::Hook(_)
            | Obj::Param(_)
            | Obj::Request(_)
            | Obj::Raises(_)
            | Obj::Info(_)
            | Obj::Item(_),
        )
        | None => None,
    }
}

fn scope_kept(scope: FixtureScope) -> Scope
    ensures { result ≡ definitions.scope_kept scope }
{
    match scope {
        FixtureScope::Session => Scope::Session,
        FixtureScope::Module => Scope::Module,
        FixtureScope::Class => Scope::Class,
        FixtureScope::Function => Scope::Function,
    }
}

/// The name that `name=` gives, or else the name that is bound.
fn name_or(alloc: Global, bound: &PyText, name: &Option<PyText>) -> Result<PyText, OutOfMemory>
    ensures { IfOk result (λ t. t ≡ definitions.name_or bound.now name.now) }
{
    match name {
        Some(name) => copied(alloc, name),
        None => copied(alloc, bound),
    }
}

fn fixture_made(
    alloc: Global,
    in_class: bool,
    bound: &PyText,
    fixture: &FixtureObj,
    id: ObjId,
    function: &FunctionObj,
) -> Result<Fixture, OutOfMemory>
    ensures { IfOk result (λ f. f ≡ definitions.fixture_made in_class bound.now fixture.now id function.now) }
{
    let name = name_or(alloc, bound, &fixture.name)?;
    let arguments = asked_params(alloc, in_class, function.params.items())?;
    Ok(Fixture {
        name,
        function: Value::Ref(id),
        in_class,
        arguments,
        scope: scope_kept(fixture.scope),
        yields: function.yields,
        defined: def_place(alloc, function)?,
    })
}

/// Pushes a definition, unless its name is `request`.
fn push_definition(found: &mut Vec<Definition>, one: Definition) -> Result<(), OutOfMemory>
    ensures { OnOk result (found.new.items ≡ found.old.items ++ definitions.unless_request one) }
{
    if is_request(&one.fixture.name) {
        drop(one);
        return Ok(());
    }
    found.push(one)?;
    Ok(())
}

fn push_made(
    alloc: Global,
    found: &mut Vec<Definition>,
    heap: &Heap,
    node: u32,
    in_class: bool,
    bound: &PyText,
    fixture: &FixtureObj,
    id: ObjId,
    function: &FunctionObj,
) -> Result<(), OutOfMemory>
    ensures { OnOk result (found.new.items ≡ found.old.items ++ definitions.for_function heap.now node in_class bound.now fixture.now id (Some function.now)) }
{
    let params = fixture_params(alloc, heap, fixture)?;
    let made = fixture_made(alloc, in_class, bound, fixture, id, function)?;
    push_definition(
        found,
        Definition {
            fixture: made,
            autouse: fixture.autouse,
            node,
            params,
        },
    )
}

/// Pushes what a name defines at a node.
fn push_defined(
    alloc: Global,
    found: &mut Vec<Definition>,
    heap: &Heap,
    node: u32,
    in_class: bool,
    bound: &PyText,
    v: Value,
) -> Result<(), OutOfMemory>
    ensures { OnOk result (found.new.items ≡ found.old.items ++ definitions.defined_by heap.now node in_class (bound.now, v)) }
{
    let Some(fixture) = fixture_in(object_in(heap, v)) else {
        return Ok(());
    };
    let Some(id) = fixture.function else {
        return Ok(());
    };
    let Some(function) = function_at(heap.get(id)) else {
        return Ok(());
    };
    push_made(
        alloc, found, heap, node, in_class, bound, fixture, id, function,
    )
}

/// Pushes what names define at a node, in order of first binding.
fn push_among(
    alloc: Global,
    found: &mut Vec<Definition>,
    heap: &Heap,
    node: u32,
    in_class: bool,
    names: &Names,
) -> Result<(), OutOfMemory>
    ensures { OnOk result (found.new.items ≡ found.old.items ++ definitions.defined_among heap.now node in_class names.now) }
{
    for at in 0..usize::MAX {
        let Some((name, v)) = names.entry(at) else {
            return Ok(());
        };
        push_defined(alloc, found, heap, node, in_class, name.text(), *v)?;
    }
    // No memory holds so many names.
    Err(OutOfMemory)
}

/// Pushes what the class that a value is defines at a node.
fn push_in_class(
    alloc: Global,
    found: &mut Vec<Definition>,
    heap: &Heap,
    node: u32,
    v: Value,
) -> Result<(), OutOfMemory>
    ensures { OnOk result (found.new.items ≡ found.old.items ++ definitions.defined_among heap.now node true (objects.names_of_class (objects.class_at (objects.object_in heap.now v)))) }
{
    match class_at(object_in(heap, v)) {
        Some(class) => push_among(alloc, found, heap, node, true, &class.names),
        None => Ok(()),
    }
}

ghost use Rattle.std.specs.Prelude.{true, false};

/// Pushes what a name of a test file defines in a class of tests; these are the file's classes.
fn push_class(
    alloc: Global,
    found: &mut Vec<Definition>,
    heap: &Heap,
    placed: PlacedFile,
    classes: &Mentions,
    name: &PyText,
    v: Value,
) -> Result<(), OutOfMemory>
    requires { classes.now ≡ tree.classes_of heap.now placed.file }
    ensures { OnOk result (found.new.items ≡ found.old.items ++ definitions.class_defines heap.now placed (name.now, v)) }
{
    if !is_class_node(alloc, heap, name, v)? {
        return Ok(());
    }
    let node = class_node(alloc, placed, classes, name.chars())?;
    push_in_class(alloc, found, heap, node, v)
}

/// Pushes what the classes of tests among the names of a file define.
fn push_classes(
    alloc: Global,
    found: &mut Vec<Definition>,
    heap: &Heap,
    placed: PlacedFile,
    classes: &Mentions,
    names: &Names,
) -> Result<(), OutOfMemory>
    requires { classes.now ≡ tree.classes_of heap.now placed.file }
    ensures { OnOk result (found.new.items ≡ found.old.items ++ flat_map (definitions.class_defines heap.now placed) names.now) }
{
    for at in 0..usize::MAX {
        let Some((name, v)) = names.entry(at) else {
            return Ok(());
        };
        push_class(alloc, found, heap, placed, classes, name.text(), *v)?;
    }
    // No memory holds so many names.
    Err(OutOfMemory)
}

/// Pushes what the module of a test file defines, at the file's node; a conftest defines at its folder.
fn push_module(
    alloc: Global,
    found: &mut Vec<Definition>,
    heap: &Heap,
    walk: &Walk,
    placed: PlacedFile,
    names: &Names,
) -> Result<(), OutOfMemory>
    requires { tree.names_of_file heap.now placed.file ≡ names.now }
    ensures { OnOk result (found.new.items ≡ found.old.items ++ definitions.defined_in_module heap.now walk.now placed) }
{
    if is_conftest(path_text(walk, placed.file.place).as_bytes()) {
        return Ok(());
    }
    push_among(alloc, found, heap, placed.node, false, names)
}

/// Pushes what a test file with these names defines: its module, then its classes.
fn push_named_file(
    alloc: Global,
    found: &mut Vec<Definition>,
    heap: &Heap,
    walk: &Walk,
    placed: PlacedFile,
    names: &Names,
) -> Result<(), OutOfMemory>
    requires { tree.names_of_file heap.now placed.file ≡ names.now }
    ensures { OnOk result (found.new.items ≡ found.old.items ++ definitions.defined_in_file heap.now walk.now placed) }
{
    let classes = classes_of(alloc, heap, placed.file)?;
    push_module(alloc, found, heap, walk, placed, names)?;
    push_classes(alloc, found, heap, placed, &classes, names)
}

/// Pushes what a test file defines.
fn push_file(
    alloc: Global,
    found: &mut Vec<Definition>,
    heap: &Heap,
    walk: &Walk,
    placed: PlacedFile,
) -> Result<(), OutOfMemory>
    ensures { OnOk result (found.new.items ≡ found.old.items ++ definitions.defined_in_file heap.now walk.now placed) }
{
    match names_of_file(heap, placed.file) {
        Some(names) => push_named_file(alloc, found, heap, walk, placed, names),
        None => Ok(()),
    }
}

fn push_files(
    alloc: Global,
    found: &mut Vec<Definition>,
    heap: &Heap,
    walk: &Walk,
    placed: &[PlacedFile],
) -> Result<(), OutOfMemory>
    ensures { OnOk result (found.new.items ≡ found.old.items ++ flat_map (definitions.defined_in_file heap.now walk.now) placed.now) }
{
    for one in placed {
        push_file(alloc, found, heap, walk, *one)?;
    }
    Ok(())
}

/// Pushes what a conftest defines, at its folder's node.
fn push_conftest(
    alloc: Global,
    found: &mut Vec<Definition>,
    heap: &Heap,
    walk: &Walk,
    folders: &Mentions,
    conftest: TestFile,
) -> Result<(), OutOfMemory>
    ensures { OnOk result (found.new.items ≡ found.old.items ++ definitions.defined_in_conftest heap.now walk.now folders.now conftest) }
{
    let path = file_path(alloc, walk, conftest)?;
    let node = outer_node(alloc, folders, path.chars())?;
    match names_of_file(heap, conftest) {
        Some(names) => push_among(alloc, found, heap, node, false, names),
        None => Ok(()),
    }
}

fn push_conftests(
    alloc: Global,
    found: &mut Vec<Definition>,
    heap: &Heap,
    walk: &Walk,
    folders: &Mentions,
    conftests: &[TestFile],
) -> Result<(), OutOfMemory>
    ensures { OnOk result (found.new.items ≡ found.old.items ++ flat_map (definitions.defined_in_conftest heap.now walk.now folders.now) conftests.now) }
{
    for one in conftests {
        push_conftest(alloc, found, heap, walk, folders, *one)?;
    }
    Ok(())
}

/// The definitions, by number: those of the conftests in the order of their loads, and then file by file.
#[tactic(auto, unfolding(crate::specs::Definitions::all_definitions))]
pub fn all_definitions(
    alloc: Global,
    heap: &Heap,
    walk: &Walk,
    folders: &Mentions,
    conftests: &[TestFile],
    placed: &[PlacedFile],
) -> Result<Vec<Definition>, OutOfMemory>
    ensures { IfOk result (λ found. found.items ≡ definitions.all_definitions heap.now walk.now folders.now conftests.now placed.now) }
{
    let mut found = Vec::new(alloc);
    push_conftests(alloc, &mut found, heap, walk, folders, conftests)?;
    push_files(alloc, &mut found, heap, walk, placed)?;
    Ok(found)
}
