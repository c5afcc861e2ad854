// The sources of a world.

ghost use Rattle.std.specs.Prelude.{◌≡◌, [], IfOk, OnOk, map, string_bytes};
ghost use Rattle.collect_tree.specs.py_load.Prepared.{IsPrepared};
ghost use Rattle.edge_io.specs.Files.{InOrder, paths_of};

use edge_io::Files;
use py_machine::World;
use report_parts::Text;
use seq::OutOfMemory;
use std::alloc::Global;

fn texts(alloc: Global, strings: &[String]) -> Result<Vec<Text>, OutOfMemory>
    ensures { IfOk result (λ all. all.items ≡ map string_bytes strings.now) }
{
    let mut all = Vec::new(alloc);
    for string in strings {
        all.push(Text::from_str(alloc, string.as_str())?)?;
    }
    Ok(all)
}

/// Gives a world without sources the source of every file, in their order: its code, or its fault. The asserts of test files, of conftests
/// and of the files with these paths are explained.
pub fn prepare(
    alloc: Global,
    world: &mut World,
    files: &Files,
    explicit: &[String],
) -> Result<(), OutOfMemory>
    requires none { world.old.sources ≡ [] }
    requires order { InOrder (paths_of files.now) }
    ensures { OnOk result (IsPrepared (map string_bytes explicit.now) files.now world.old world.new) }
{
    let named = texts(alloc, explicit)?;
    py_load::prepare(alloc, world, files, &named)
}
