// Rows on modules: of each item its node id, its part of it, its title, the names for `-m`, those for `-k`, why it is skipped, and its
// `xfail`; then the classes of tests.

mod marks;
mod modules;
pub mod verdicts;

use crate::collection::modules::{Module, module_of};
use crate::shown::push_text;
use crate::spelled::{MemoryResult, text};
use collect_marks::given::item_marks;
use collect_marks::names::{keyword_names, mark_names};
use collect_marks::says::{skipped_by, xfail_of};
use collect_names::found::TestFunction;
use collect_names::ids::{item_id, item_part, item_title};
use collect_names::names::{class_nodes, test_functions};
use py_values::PyText;
use py_values::heap::Heap;
use py_values::value::Value;
use std::alloc::Global;

/// The path of the rows' modules.
const PATH: &str = "a/b c/test_m.py";

/// A text that was made.
fn push_made(all: &mut String, made: MemoryResult<PyText>) -> MemoryResult<()> {
    let text = made?;
    push_text(all, &text)?;
    Ok(all.push('|')?)
}

/// Texts that were made, with a comma behind each.
fn push_texts(all: &mut String, made: MemoryResult<Vec<PyText>>) -> MemoryResult<()> {
    for text in &made? {
        push_text(all, text)?;
        all.push(',')?;
    }
    Ok(())
}

/// What `skip` and `skipif` say.
fn push_skip(alloc: Global, all: &mut String, heap: &Heap, marks: &[Value]) -> MemoryResult<()> {
    match skipped_by(alloc, heap, marks)? {
        Some(reason) => {
            all.push_str("skip ")?;
            push_text(all, &reason)
        }
        None => Ok(()),
    }
}

/// What `xfail` says.
fn push_xfail(alloc: Global, all: &mut String, heap: &Heap, marks: &[Value]) -> MemoryResult<()> {
    match xfail_of(alloc, heap, marks)? {
        Some(xfail) => {
            all.push_str(if xfail.strict { "strict " } else { "xfail " })?;
            if xfail.raises.is_some() {
                all.push_str("raises ")?;
            }
            push_text(all, &xfail.reason)
        }
        None => Ok(()),
    }
}

fn push_item(
    alloc: Global,
    all: &mut String,
    module: &Module,
    path: &PyText,
    test: &TestFunction,
) -> MemoryResult<()> {
    let heap = &module.heap;
    let marks = item_marks(alloc, heap, test, &module.names)?;
    push_made(all, item_id(alloc, path, test, None))?;
    push_made(all, item_part(alloc, test, None))?;
    push_made(all, item_title(alloc, test, None))?;
    push_texts(all, mark_names(alloc, heap, &marks))?;
    all.push('|')?;
    push_texts(all, keyword_names(alloc, heap, path, test, None, &marks))?;
    all.push('|')?;
    push_skip(alloc, all, heap, &marks)?;
    all.push('|')?;
    push_xfail(alloc, all, heap, &marks)?;
    Ok(all.push(';')?)
}

/// What is told of a module.
fn module_told(alloc: Global, module: &Module) -> MemoryResult<String> {
    let path = text(alloc, PATH)?;
    let mut all = String::new(alloc);
    for test in &test_functions(alloc, &module.heap, &module.names)? {
        push_item(alloc, &mut all, module, &path, test)?;
    }
    all.push('|')?;
    push_texts(&mut all, class_nodes(alloc, &module.heap, &module.names))?;
    Ok(all)
}

/// What is told of the module that a row spells.
pub fn collected(alloc: Global, spelled: &str) -> MemoryResult<String> {
    let module = module_of(alloc, spelled)?;
    let told = module_told(alloc, &module);
    drop(module);
    told
}
