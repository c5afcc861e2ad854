// The walk of files.

ghost use Rattle.std.specs.Prelude.{◌≡◌, IfOk, List, ℕ};
ghost use Rattle.edge_io.specs.Files.{paths_of};
ghost use Rattle.collect_words.specs.Walks.{IsWalk};
ghost use Rattle.collect_tree.specs.Collection.{paths_at};
ghost use Rattle.collect_tree.specs.Walk.{walk_of};

use collect_words::{Walk, one_walk};
use collection_nodes::path_text;
use edge_io::Files;
use report_parts::{OutOfMemory, Text};
use seq::Seq;
use std::alloc::Global;

fn file_paths(alloc: Global, files: &Files) -> Result<Vec<Text>, OutOfMemory>
    ensures { IfOk result (λ paths. paths.items ≡ paths_of files.now) }
{
    let pairs = files.items();
    let mut paths = Vec::new(alloc);
    for pair in pairs {
        paths.push(Text::from_str(alloc, pair.0.as_str())?)?;
    }
    Ok(paths)
}

/// A law: paths that are put in their places are a walk.
fn is_walk()
    ensures { (paths : List (List ℕ)) → IsWalk paths (walk_of paths) }
{}

/// The walk of the files of a tree.
pub fn walk_of_files(alloc: Global, files: &Files) -> Result<Walk, OutOfMemory>
    ensures { IfOk result (λ walk. walk ≡ walk_of (paths_of files.now)) }
{
    is_walk();
    one_walk();
    let paths = file_paths(alloc, files)?;
    let walk = Walk::new(alloc, &paths)?;
    Ok(walk)
}

/// The paths at places of the walk.
pub fn paths_at(alloc: Global, walk: &Walk, places: &[usize]) -> Result<Seq<Text>, OutOfMemory>
    ensures { IfOk result (λ paths. paths ≡ paths_at walk.now places.now) }
{
    let mut paths = Seq::new(alloc);
    for place in places {
        paths.push(Text::from_str(alloc, path_text(walk, *place))?)?;
    }
    Ok(paths)
}
