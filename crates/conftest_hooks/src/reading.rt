// The hooks of a conftest.

ghost use Rattle.std.specs.Prelude.{◌≡◌, ◌++◌, ◌∷◌, [], IfOk, List, OnErr, OnOk};
ghost use Rattle.conftest_hooks.specs.Reading as reading;
ghost use Rattle.conftest_hooks.specs.Told.{hooks_told};

use crate::looking::{FoundHook, HookFault, Looked, looked_at};
use py_values::heap::Heap;
use py_values::names::Names;
use py_values::value::Value;
use seq::{OutOfMemory, PyText};
use std::alloc::Global;

/// The hooks of a conftest among its names, for the items in its folder, or the first fault; the names of a conftest without module
/// are none.
pub fn hooks_among(
    alloc: Global,
    heap: &Heap,
    folder: &[u8],
    names: &Names,
) -> Result<Result<Vec<FoundHook>, HookFault>, OutOfMemory>
    ensures { IfOk result (λ end. hooks_told end ≡ reading.hooks_among heap.now folder.now names.now) }
{
    let mut found = Vec::new(alloc);
    for at in 0..usize::MAX {
        let Some((name, v)) = names.entry(at) else {
            return Ok(Ok(found));
        };
        match looked_at(alloc, heap, folder, name.text(), *v)? {
            Looked::Other => {}
            Looked::Found(hook) => found.push(hook)?,
            Looked::Faulty(fault) => {
                drop(found);
                return Ok(Err(fault));
            }
        }
    }
    // No memory holds so many names.
    Err(OutOfMemory)
}

/// The folder of a conftest, with its slash.
pub fn conftest_folder(path: &[u8]) -> &[u8]
    ensures { result.now ≡ reading.conftest_folder path.now }
{
    let end = path.len().saturating_sub(11);
    &path[..end]
}
