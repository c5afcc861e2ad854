// The tests of a file.

ghost use Rattle.std.specs.Prelude.{◌≡◌, ◌++◌, ◌∷◌, [], IfOk, OnOk, codes, map, option_copied};
ghost use Rattle.std.specs.List.{filter, filter_map};
ghost use Rattle.collect_marks.specs.Given.{item_marks};
ghost use Rattle.collect_marks.specs.Says.{is_called};
ghost use Rattle.collect_names.specs.Found.{test_functions};
ghost use Rattle.collect_names.specs.Objects as objects;
ghost use Rattle.collection_nodes.specs.Tree as tree;
ghost use Rattle.fixture_definitions.specs.Arguments.{but_request};
ghost use Rattle.fixture_definitions.specs.Tests as tests;

use crate::arguments::{arguments_asked, but_request};
use crate::found::FoundTest;
use collect_marks::given::{item_marks, mark_in};
use collect_names::copies::{copied, copied_test};
use collect_names::found::{TestClass, TestFunction};
use collect_names::names::test_functions;
use collect_names::objects::{function_at, object_in};
use collect_params::parametrizations;
use collection_nodes::{Mentions, PlacedFile, class_node, classes_of, names_of_file};
use py_values::heap::Heap;
use py_values::names::Names;
use py_values::object::{FunctionObj, MarkObj, Obj};
use py_values::rows::Values;
use py_values::value::Value;
use seq::{OutOfMemory, PyText, Seq};
use std::alloc::Global;

/// The text that an object is, where it is one.
fn text_in<'a>(obj: Option<&'a Obj>) -> Option<&'a PyText>
    ensures { option_copied result ≡ tests.text_in (option_copied obj.entry) }
{
    match obj {
        Some(Obj::Text(text)) => Some(text),
        Some(
            Obj::List(_)
            | Obj::Tuple(_)
            | Obj::Dict(_)
            | Obj::Range(_)
            | Obj::Function(_)
            | Obj::Method(_)
            | Obj::Builtin(_)
            | Obj::Class(_)
            | Obj::Instance(_)
            | Obj::Exception(_)
            | Obj::Module(_)
            | Obj::Fixture(_)
            | Obj::MarkMaker
            | Obj::Mark(_)
            | Obj::Hook(_)
            | Obj::Param(_)
            | Obj::Request(_)
            | Obj::Raises(_)
            | Obj::Info(_)
            | Obj::Item(_),
        )
        | None => None,
    }
}

fn push_text(
    alloc: Global,
    names: &mut Seq<PyText>,
    heap: &Heap,
    v: Value,
) -> Result<(), OutOfMemory>
    ensures { OnOk result (names.new ≡ names.old ++ filter_map (λ (w : Value). tests.text_in (objects.object_in heap.now w)) (v ∷ [])) }
{
    match text_in(object_in(heap, v)) {
        Some(text) => names.push(copied(alloc, text)?),
        None => Ok(()),
    }
}

ghost use Rattle.py_values.specs.declared.value.Value.{Value};

fn push_texts(
    alloc: Global,
    names: &mut Seq<PyText>,
    heap: &Heap,
    values: &[Value],
) -> Result<(), OutOfMemory>
    ensures { OnOk result (names.new ≡ names.old ++ filter_map (λ (w : Value). tests.text_in (objects.object_in heap.now w)) values.now) }
{
    for v in values {
        push_text(alloc, names, heap, *v)?;
    }
    Ok(())
}

fn is_use(mark: &MarkObj) -> bool
    ensures { result ≡ is_called (codes "usefixtures") mark.now }
{
    is_named(
        &['u', 's', 'e', 'f', 'i', 'x', 't', 'u', 'r', 'e', 's'],
        mark,
    )
}

fn is_named(letters: &[char], mark: &MarkObj) -> bool
    ensures { result ≡ is_called letters.now mark.now }
{
    letters == mark.name.chars()
}

/// Pushes what a mark uses, where it is a `usefixtures`.
fn push_uses(
    alloc: Global,
    names: &mut Seq<PyText>,
    heap: &Heap,
    v: Value,
) -> Result<(), OutOfMemory>
    ensures { OnOk result (names.new ≡ names.old ++ tests.used_among heap.now (v ∷ [])) }
{
    let Some(mark) = mark_in(heap, v) else {
        return Ok(());
    };
    if !is_use(mark) {
        return Ok(());
    }
    push_texts(alloc, names, heap, mark.args.items())
}

fn used_among(alloc: Global, heap: &Heap, marks: &[Value]) -> Result<Seq<PyText>, OutOfMemory>
    ensures { IfOk result (λ names. names ≡ tests.used_among heap.now marks.now) }
{
    let mut names = Seq::new(alloc);
    for v in marks {
        push_uses(alloc, &mut names, heap, *v)?;
    }
    Ok(names)
}

/// The names that marks use, in the order of the marks.
fn uses_of(alloc: Global, heap: &Heap, marks: &[Value]) -> Result<Seq<PyText>, OutOfMemory>
    ensures { IfOk result (λ names. names ≡ tests.uses_of heap.now marks.now) }
{
    let used = used_among(alloc, heap, marks)?;
    but_request(alloc, used.items())
}

/// The node of the class or the file of a test; these are the file's classes.
fn parent_of_test(
    alloc: Global,
    placed: PlacedFile,
    classes: &Mentions,
    class: &Option<TestClass>,
    heap: &Heap,
) -> Result<u32, OutOfMemory>
    requires { classes.now ≡ tree.classes_of heap.now placed.file }
    ensures { IfOk result (λ n. n ≡ tests.parent_of_test heap.now placed class.now) }
{
    match class {
        Some(class) => class_node(alloc, placed, classes, class.name.chars()),
        None => Ok(placed.node),
    }
}

fn stands_in_class(class: &Option<TestClass>) -> bool
    ensures { result ≡ tests.stands_in_class class.now }
{
    class.is_some()
}

/// The arguments of a test.
fn arguments_of_test(
    alloc: Global,
    heap: &Heap,
    test: &TestFunction,
) -> Result<Seq<PyText>, OutOfMemory>
    ensures { IfOk result (λ names. names ≡ arguments_asked (tests.stands_in_class test.now.class) (objects.function_at (objects.object_in heap.now test.now.function))) }
{
    let in_class = stands_in_class(&test.class);
    arguments_asked(alloc, in_class, function_at(object_in(heap, test.function)))
}

ghost use Rattle.fixture_definitions.specs.Arguments.{arguments_asked};

fn marks_among(heap: &Heap, values: &[Value]) -> usize
    ensures { result ≡ count_by (is_mark_value heap.now) values.now }
{
    values
        .iter()
        .filter(|v| mark_in(heap, **v).is_some())
        .count()
}

ghost use Rattle.std.specs.Prelude.{count_by};
ghost use Rattle.collect_marks.specs.Given.{is_mark_value};

/// How many marks a function has.
fn near_count(heap: &Heap, function: Option<&FunctionObj>) -> usize
    ensures { result ≡ tests.near_count heap.now (option_copied function.entry) }
{
    match function {
        Some(function) => marks_among(heap, function.marks.items()),
        None => 0,
    }
}

/// A test with these marks; these are the file's classes.
fn found_test(
    alloc: Global,
    heap: &Heap,
    placed: PlacedFile,
    classes: &Mentions,
    marks: Vec<Value>,
    test: &TestFunction,
) -> Result<FoundTest, OutOfMemory>
    requires { classes.now ≡ tree.classes_of heap.now placed.file }
    ensures { IfOk result (λ t. t ≡ tests.found_test heap.now placed marks.items test.now) }
{
    let parent = parent_of_test(alloc, placed, classes, &test.class, heap)?;
    let uses = uses_of(alloc, heap, &marks)?;
    let parametrized = parametrizations(alloc, heap, &marks)?;
    let arguments = arguments_of_test(alloc, heap, test)?;
    Ok(FoundTest {
        test: copied_test(alloc, test)?,
        place: placed.file.place,
        parent,
        marks: Values::from_vec(marks),
        near: near_count(heap, function_at(object_in(heap, test.function))),
        parametrized: Seq::from_vec(parametrized),
        uses,
        arguments,
    })
}

/// A test of a file with these names and these classes.
fn test_in(
    alloc: Global,
    heap: &Heap,
    placed: PlacedFile,
    classes: &Mentions,
    names: &Names,
    test: &TestFunction,
) -> Result<FoundTest, OutOfMemory>
    requires classes { classes.now ≡ tree.classes_of heap.now placed.file }
    requires names { tree.names_of_file heap.now placed.file ≡ names.now }
    ensures { IfOk result (λ t. t ≡ tests.test_in heap.now placed test.now) }
{
    let marks = item_marks(alloc, heap, test, names)?;
    found_test(alloc, heap, placed, classes, marks, test)
}

/// Some tests of a file with these names and these classes.
fn tests_from(
    alloc: Global,
    heap: &Heap,
    placed: PlacedFile,
    classes: &Mentions,
    names: &Names,
    functions: &[TestFunction],
) -> Result<Vec<FoundTest>, OutOfMemory>
    requires classes { classes.now ≡ tree.classes_of heap.now placed.file }
    requires names { tree.names_of_file heap.now placed.file ≡ names.now }
    ensures { IfOk result (λ found. found.items ≡ map (tests.test_in heap.now placed) functions.now) }
{
    let mut found = Vec::new(alloc);
    for test in functions {
        let one = test_in(alloc, heap, placed, classes, names, test)?;
        found.push(one)?;
    }
    Ok(found)
}

fn tests_among(
    alloc: Global,
    heap: &Heap,
    placed: PlacedFile,
    classes: &Mentions,
    names: &Names,
) -> Result<Vec<FoundTest>, OutOfMemory>
    requires classes { classes.now ≡ tree.classes_of heap.now placed.file }
    requires names { tree.names_of_file heap.now placed.file ≡ names.now }
    ensures { IfOk result (λ found. found.items ≡ map (tests.test_in heap.now placed) (test_functions heap.now names.now)) }
{
    let functions = test_functions(alloc, heap, names)?;
    tests_from(alloc, heap, placed, classes, names, &functions)
}

/// The tests of a file, in order.
#[tactic(auto, unfolding(crate::specs::Tests::tests_of))]
pub fn tests_of(
    alloc: Global,
    heap: &Heap,
    placed: PlacedFile,
) -> Result<Vec<FoundTest>, OutOfMemory>
    ensures { IfOk result (λ found. found.items ≡ tests.tests_of heap.now placed) }
{
    let Some(names) = names_of_file(heap, placed.file) else {
        return Ok(Vec::new(alloc));
    };
    let classes = classes_of(alloc, heap, placed.file)?;
    tests_among(alloc, heap, placed, &classes, names)
}
