// What words can name of a file.

ghost use Rattle.std.specs.Prelude.{◌≡◌, ◌++◌, ◌∷◌, ◌+◌, [], IfOk, OnOk, option_map, replicate, slice_set};
ghost use Rattle.collect_items.specs.Nodes as nodes;

use collect_names::found::TestClass;
use collect_rows::FoundItem;
use collect_words::{FileNodes, ItemNames};
use collection_nodes::TestFile;
use report_parts::Text;
use seq::{OutOfMemory, PyText, Seq, encoded};
use std::alloc::Global;

fn class_name(alloc: Global, class: &Option<TestClass>) -> Result<Option<Text>, OutOfMemory>
    ensures { IfOk result (λ name. name ≡ option_map nodes.class_name class.now) }
{
    match class {
        Some(class) => Ok(Some(encoded(alloc, class.name.chars())?)),
        None => Ok(None),
    }
}

fn id_text(alloc: Global, id: &Option<PyText>) -> Result<Option<Text>, OutOfMemory>
    ensures { IfOk result (λ text. text ≡ option_map encode_utf8_all id.now) }
{
    match id {
        Some(id) => Ok(Some(encoded(alloc, id.chars())?)),
        None => Ok(None),
    }
}

ghost use Rattle.std.specs.Prelude.{encode_utf8_all};

/// The names of an item with this number.
fn names_of(alloc: Global, number: usize, test: &FoundItem) -> Result<ItemNames, OutOfMemory>
    ensures { IfOk result (λ names. names ≡ nodes.names_of number test.now) }
{
    Ok(ItemNames {
        number,
        class: class_name(alloc, &test.test.class)?,
        function: encoded(alloc, test.test.name.chars())?,
        id: id_text(alloc, &test.row.id)?,
    })
}

fn push_names(
    alloc: Global,
    names: &mut Seq<ItemNames>,
    number: usize,
    test: &FoundItem,
) -> Result<(), OutOfMemory>
    ensures { OnOk result (names.new ≡ names.old ++ nodes.names_of number test.now ∷ []) }
{
    let one = names_of(alloc, number, test)?;
    names.push(one)
}

/// The number behind this one.
fn next(number: usize) -> Result<usize, OutOfMemory>
    ensures { IfOk result (λ n. n ≡ number + 1) }
{
    match number.checked_add(1) {
        Some(next) => Ok(next),
        // No memory holds so many items.
        None => Err(OutOfMemory),
    }
}

/// The names of items that are numbered from this one on.
fn numbered(alloc: Global, first: usize, tests: &[FoundItem]) -> Result<Seq<ItemNames>, OutOfMemory>
    ensures { IfOk result (λ names. names ≡ nodes.numbered first tests.now) }
{
    let mut names = Seq::new(alloc);
    let mut number = first;
    for test in tests {
        push_names(alloc, &mut names, number, test)?;
        let more = next(number)?;
        number = more;
    }
    Ok(names)
}

/// What words can name of a file with these classes and these items, whose numbers go from this one on; with none where it failed.
pub fn file_nodes(
    alloc: Global,
    first: usize,
    file: TestFile,
    classes: Seq<Text>,
    faulty: bool,
    found: &[FoundItem],
) -> Result<FileNodes, OutOfMemory>
    ensures { IfOk result (λ n. n ≡ record { failed = not (is_some file.object) || faulty; classes = classes; items = nodes.numbered first found.now }) }
{
    let items = numbered(alloc, first, found)?;
    Ok(FileNodes {
        failed: file.object.is_none() || faulty,
        classes,
        items,
    })
}

ghost use Rattle.std.specs.Prelude.{◌||◌, is_some, not};

fn no_nodes(alloc: Global) -> FileNodes
    ensures { result ≡ nodes.no_nodes }
{
    FileNodes {
        failed: false,
        classes: Seq::new(alloc),
        items: Seq::new(alloc),
    }
}

/// So many files without nodes.
fn without_nodes(alloc: Global, count: usize) -> Result<Vec<FileNodes>, OutOfMemory>
    ensures { IfOk result (λ n. n.items ≡ replicate count nodes.no_nodes) }
{
    let mut all = Vec::new(alloc);
    for _ in 0..count {
        all.push(no_nodes(alloc))?;
    }
    Ok(all)
}

/// Other nodes at a place; nothing changes where there is none.
fn set(all: &mut Vec<FileNodes>, place: usize, file: FileNodes)
    ensures { all.new.items ≡ slice_set all.old.items place file }
{
    if place < all.len() {
        all[place] = file;
    } else {
        drop(file);
    }
}

/// Files with their nodes, each at its place among so many.
pub fn by_place(
    alloc: Global,
    count: usize,
    files: Vec<(usize, FileNodes)>,
) -> Result<Vec<FileNodes>, OutOfMemory>
    ensures { IfOk result (λ n. n.items ≡ nodes.with_nodes files.items (replicate count nodes.no_nodes)) }
{
    let mut all = without_nodes(alloc, count)?;
    let mut left = files;
    while let Some((place, file)) = left.pop() {
        set(&mut all, place, file);
    }
    Ok(all)
}
