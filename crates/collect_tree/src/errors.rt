// The errors of collection.

ghost use Rattle.std.specs.Prelude.{◌≡◌, ◌++◌, IfOk, OnOk};
ghost use Rattle.collect_tree.specs.Errors as errors;

use crate::loads::LoadEnd;
use collect_items::RowsFault;
use collect_words::Walk;
use collection_nodes::{TestFile, path_text};
use fixture_world::{World, told};
use report_parts::{CollectReport, OutOfMemory, Text};
use seq::PyText;
use std::alloc::Global;

fn copied_text(alloc: Global, text: &PyText) -> Result<PyText, OutOfMemory>
    ensures { IfOk result (λ t. t ≡ text.now) }
{
    PyText::from_chars(alloc, text.chars())
}

/// What is told of a fault of rows.
fn rows_error(
    alloc: Global,
    world: &World,
    path: &str,
    captured: Text,
    fault: &RowsFault,
) -> Result<CollectReport, OutOfMemory>
    ensures { IfOk result (λ r. r ≡ errors.rows_error path.now captured fault.now world.now) }
{
    let text = copied_text(alloc, &fault.text)?;
    let told = told(alloc, world, &fault.trace, text)?;
    Ok(CollectReport {
        file: Text::from_str(alloc, path)?,
        told,
        captured,
    })
}

fn push_rows(
    alloc: Global,
    all: &mut Vec<CollectReport>,
    world: &World,
    path: &str,
    captured: Text,
    fault: &Option<RowsFault>,
) -> Result<(), OutOfMemory>
    ensures { OnOk result (all.new.items ≡ all.old.items ++ errors.rows_errors path.now captured fault.now world.now) }
{
    if let Some(fault) = fault {
        let report = rows_error(alloc, world, path, captured, fault)?;
        all.push(report)?;
    }
    Ok(())
}

/// Pushes the errors of a file.
fn push_errors(
    alloc: Global,
    all: &mut Vec<CollectReport>,
    world: &World,
    walk: &Walk,
    file: TestFile,
    end: LoadEnd,
    fault: &Option<RowsFault>,
) -> Result<(), OutOfMemory>
    ensures { OnOk result (all.new.items ≡ all.old.items ++ errors.file_errors walk.now world.now file end fault.now) }
{
    let LoadEnd { error, captured } = end;
    match error {
        Some(error) => {
            all.push(error)?;
            Ok(())
        }
        None => push_rows(
            alloc,
            all,
            world,
            path_text(walk, file.place),
            captured,
            fault,
        ),
    }
}

/// The errors of all files, in order.
pub fn all_errors(
    alloc: Global,
    world: &World,
    walk: &Walk,
    files: &[TestFile],
    ends: Vec<LoadEnd>,
    faults: &[Option<RowsFault>],
) -> Result<Vec<CollectReport>, OutOfMemory>
    ensures { IfOk result (λ all. all.items ≡ errors.all_errors walk.now world.now files.now ends.items faults.now) }
{
    let mut all = Vec::new(alloc);
    let mut left = ends;
    for at in 0..files.len().min(faults.len()) {
        if left.is_empty() {
            return Ok(all);
        }
        let end = left.remove(0);
        push_errors(alloc, &mut all, world, walk, files[at], end, &faults[at])?;
    }
    Ok(all)
}
