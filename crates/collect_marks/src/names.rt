// The names of an item by which it is selected.

ghost use Rattle.std.specs.Prelude.{◌≡◌, ◌++◌, ◌∷◌, ◌<◌, [], IfOk, MatchOption, OnOk, drop, length, map, option_copied, position, take, ◌+◌};
ghost use Rattle.std.specs.List.{slice_split};
ghost use Rattle.collect_marks.specs.Names as keys;

use crate::given::mark_in;
use collect_names::found::{TestClass, TestFunction};
use collect_names::ids::item_name;
use py_values::heap::Heap;
use py_values::value::Value;
use seq::{OutOfMemory, PyText};
use std::alloc::Global;

fn push_mark(
    alloc: Global,
    names: &mut Vec<PyText>,
    heap: &Heap,
    v: Value,
) -> Result<(), OutOfMemory>
    ensures { OnOk result (names.new.items ≡ names.old.items ++ map keys.mark_name (keys.marks_in heap.now (v ∷ []))) }
{
    if let Some(mark) = mark_in(heap, v) {
        let name = PyText::from_chars(alloc, mark.name.chars())?;
        names.push(name)?;
    }
    Ok(())
}

#[tactic(auto, unfolding(crate::specs::Names::mark_names))]
fn push_marks(
    alloc: Global,
    names: &mut Vec<PyText>,
    heap: &Heap,
    marks: &[Value],
) -> Result<(), OutOfMemory>
    ensures { OnOk result (names.new.items ≡ names.old.items ++ keys.mark_names heap.now marks.now) }
{
    for v in marks {
        push_mark(alloc, names, heap, *v)?;
    }
    Ok(())
}

/// What `-m` looks at: the names of an item's marks.
pub fn mark_names(alloc: Global, heap: &Heap, marks: &[Value]) -> Result<Vec<PyText>, OutOfMemory>
    ensures { IfOk result (λ n. n.items ≡ keys.mark_names heap.now marks.now) }
{
    let mut names = Vec::new(alloc);
    push_marks(alloc, &mut names, heap, marks)?;
    Ok(names)
}

/// Where the first slash of a path stands.
fn slash_place(path: &[char]) -> Option<usize>
    ensures { result ≡ position keys.parts_path path.now }
{
    path.iter().position(|letter| *letter == '/')
}

/// Where the first part of a path ends, if there are more.
fn part_end(path: &[char]) -> Option<usize>
    ensures { MatchOption result (slice_split keys.parts_path path.now ≡ path.now ∷ []) (λ at. (at < length path.now) × (slice_split keys.parts_path path.now ≡ take at path.now ∷ slice_split keys.parts_path (drop (at + 1) path.now))) }
{
    slash_place(path)
}

fn push_path(alloc: Global, names: &mut Vec<PyText>, path: &[char]) -> Result<(), OutOfMemory>
    ensures { OnOk result (names.new.items ≡ names.old.items ++ slice_split keys.parts_path path.now) }
{
    let mut rest = path;
    while let Some(at) = part_end(rest) {
        let part = PyText::from_chars(alloc, &rest[..at])?;
        names.push(part)?;
        rest = &rest[at + 1..];
    }
    let last = PyText::from_chars(alloc, rest)?;
    names.push(last)?;
    Ok(())
}

fn push_class(
    alloc: Global,
    names: &mut Vec<PyText>,
    class: &Option<TestClass>,
) -> Result<(), OutOfMemory>
    ensures { OnOk result (names.new.items ≡ names.old.items ++ keys.class_name_of class.now) }
{
    if let Some(class) = class {
        let name = PyText::from_chars(alloc, class.name.chars())?;
        names.push(name)?;
    }
    Ok(())
}

/// What `-k` looks at: the names of the folders on the file's path and of the file, of the class, of the item with its id, and of its marks.
#[tactic(auto, unfolding(crate::specs::Names::keyword_names))]
pub fn keyword_names(
    alloc: Global,
    heap: &Heap,
    path: &PyText,
    test: &TestFunction,
    id: Option<&PyText>,
    marks: &[Value],
) -> Result<Vec<PyText>, OutOfMemory>
    ensures { IfOk result (λ n. n.items ≡ keys.keyword_names heap.now path.now test.now (option_copied id.entry) marks.now) }
{
    let mut names = Vec::new(alloc);
    push_path(alloc, &mut names, path.chars())?;
    push_class(alloc, &mut names, &test.class)?;
    let name = item_name(alloc, test, id)?;
    names.push(name)?;
    push_marks(alloc, &mut names, heap, marks)?;
    Ok(names)
}
