// The code of texts.

ghost use Rattle.std.specs.Prelude.{IfOk};
ghost use Rattle.assert_rewrite.specs.lower_law.Lowered.{LoweredModule};
ghost use Rattle.assert_rewrite.specs.lower_law.Sourced.{module_of};
ghost use Rattle.py_machine.specs.Worlds.{IsLowered};

use crate::told::MemoryResult;
use assert_rewrite::lower;
use file_source::source_of;
use py_core::Core;
use py_source::SourceFault;
use py_tree::Module;
use read_law::every_tree_can_be_lowered;
use std::alloc::Global;

/// The code of a tree.
fn lowered(alloc: Global, explains: bool, module: &Module) -> MemoryResult<Core>
    ensures { IfOk result (λ core. LoweredModule (module_of core) core) }
{
    every_tree_can_be_lowered();
    let core = lower(alloc, explains, module)?;
    Ok(core)
}

/// The code of a text, whose asserts are explained or not, or its fault.
pub fn code_of(alloc: Global, explains: bool, text: &str) -> MemoryResult<Result<Core, SourceFault>>
    ensures { IfOk result (λ c. IsLowered c) }
{
    match source_of(alloc, text.as_bytes())? {
        Ok(module) => Ok(Ok(lowered(alloc, explains, &module)?)),
        Err(fault) => Ok(Err(fault)),
    }
}
