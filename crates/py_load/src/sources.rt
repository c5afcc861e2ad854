// The sources of a world, from files.

ghost use Rattle.std.specs.Prelude.{◌≡◌, [], ◌∷◌, None, OnOk, bytes_eq, chars, Ok as Given, Err as Fault};
ghost use Rattle.edge_io.specs.Files.{InOrder, paths_of};
ghost use Rattle.py_tree.specs.Statements.{module_tree};
ghost use Rattle.py_world.specs.Runs.{source_at};
ghost use Rattle.std.specs.List.{list_any};
ghost use Rattle.py_load.specs.Prepared.{IsFileAdded, IsPrepared, with_sources, source_as, is_explained as explained};

use assert_rewrite::lower;
use collect_words::{is_conftest, is_test_file};
use edge_io::Files;
use file_source::source_of;
use py_machine::{World, add_source};
use py_source::SourceFault;
use py_tree::Module;
use read_law::every_tree_can_be_lowered;
use seq::{ByteText, OutOfMemory};
use std::alloc::Global;

/// Adds the code of a tree.
fn add_tree(
    alloc: Global,
    world: &mut World,
    explains: bool,
    path: &str,
    bytes: &[u8],
    module: &Module,
) -> Result<(), OutOfMemory>
    requires absent { source_at (chars path.now) world.old.sources ≡ None }
    ensures { OnOk result (world.new ≡ with_sources (source_as explains path.now bytes.now (Given (module_tree «module».now)) ∷ []) world.old) }
{
    every_tree_can_be_lowered();
    let code = lower(alloc, explains, module)?;
    add_source(world, path, bytes, Ok(code))
}

/// Adds a source that has a fault.
fn add_fault(
    world: &mut World,
    explains: bool,
    path: &str,
    bytes: &[u8],
    fault: SourceFault,
) -> Result<(), OutOfMemory>
    requires absent { source_at (chars path.now) world.old.sources ≡ None }
    ensures { OnOk result (world.new ≡ with_sources (source_as explains path.now bytes.now (Fault fault) ∷ []) world.old) }
{
    add_source(world, path, bytes, Err(fault))
}

/// Adds the source of a file: its code or its fault.
fn add_file(
    alloc: Global,
    world: &mut World,
    explains: bool,
    path: &str,
    bytes: &[u8],
) -> Result<(), OutOfMemory>
    requires absent { source_at (chars path.now) world.old.sources ≡ None }
    ensures { OnOk result (IsFileAdded explains path.now bytes.now world.old world.new) }
{
    match source_of(alloc, bytes)? {
        Ok(module) => add_tree(alloc, world, explains, path, bytes, &module),
        Err(fault) => add_fault(world, explains, path, bytes, fault),
    }
}

fn is_path(path: &str, other: &ByteText) -> bool
    ensures { result ≡ bytes_eq path.now other.now }
{
    path == other.text()
}

/// Whether a file's path is one of these.
fn is_named(named: &[ByteText], path: &str) -> bool
    ensures { result ≡ list_any (bytes_eq path.now) named.now }
{
    named.iter().any(|other| is_path(path, other))
}

/// Whether a file's asserts are explained: a test file's, a conftest's, and those of a file that a word names.
fn is_explained(named: &[ByteText], path: &str) -> bool
    ensures { result ≡ explained named.now path.now }
{
    is_test_file(path.as_bytes()) || is_conftest(path.as_bytes()) || is_named(named, path)
}

/// Gives a world without sources the source of every file, in their order: its code, whose asserts are explained in test files,
/// conftests and the files that words name, and show nothing beside their messages in others; or its fault. `named` has the paths of
/// the files that words name.
pub fn prepare(
    alloc: Global,
    world: &mut World,
    files: &Files,
    named: &[ByteText],
) -> Result<(), OutOfMemory>
    requires none { world.old.sources ≡ [] }
    requires order { InOrder (paths_of files.now) }
    ensures { OnOk result (IsPrepared named.now files.now world.old world.new) }
{
    let pairs = files.items();
    for (path, bytes) in pairs {
        let path = path.as_str();
        let explains = is_explained(named, path);
        add_file(alloc, world, explains, path, bytes)?;
    }
    Ok(())
}
