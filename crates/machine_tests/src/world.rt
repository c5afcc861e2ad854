// Worlds of a row's sources.

ghost use Rattle.std.specs.Prelude.{◌≡◌, OnOk};
ghost use Rattle.std.specs.List.{list_any};
ghost use Rattle.py_values.specs.Names.{name_eq};
ghost use Rattle.py_world.specs.Imports.{source_paths};

use crate::code::code_of;
use crate::row::Source;
use crate::told::MemoryResult;
use py_machine::{World, add_source};
use seq::PyText;
use std::alloc::Global;

fn is_same(path: &PyText, other: &PyText) -> bool
    ensures { result ≡ name_eq path.now other.now }
{
    path.chars() == other.chars()
}

fn is_among(paths: &[PyText], path: &PyText) -> bool
    ensures { result ≡ list_any (name_eq path.now) paths.now }
{
    paths.iter().any(|other| is_same(path, other))
}

/// Adds a source, unless its path has one.
#[tactic(auto, using(crate::proofs::Sources::absent_of, crate::proofs::Sources::paths_behind))]
fn add(
    alloc: Global,
    world: &mut World,
    paths: &mut Vec<PyText>,
    source: &Source,
) -> MemoryResult<()>
    requires { source_paths world.old.sources ≡ paths.old.items }
    ensures { OnOk result (source_paths world.new.sources ≡ paths.new.items) }
{
    let path = PyText::from_str(alloc, source.path.as_str())?;
    if is_among(paths, &path) {
        return Ok(());
    }
    let text = source.text.as_str();
    let code = code_of(alloc, source.explains, text)?;
    add_source(world, source.path.as_str(), text.as_bytes(), code)?;
    paths.push(path)?;
    Ok(())
}

/// A world of sources.
pub fn world_of(alloc: Global, sources: &[Source]) -> MemoryResult<World> {
    let mut world = World::new(alloc)?;
    let mut paths = Vec::new(alloc);
    for source in sources {
        add(alloc, &mut world, &mut paths, source)?;
    }
    Ok(world)
}
