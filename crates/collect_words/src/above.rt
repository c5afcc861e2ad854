ghost use Rattle.std.specs.Prelude.{◌≡◌, ◌++◌, take, codes, OnOk, IfOk};
ghost use Rattle.std.specs.List.{flat_map};
ghost use Rattle.collect_words.specs.Files.{conftest_in, conftests, conftests_above, each_once};

use crate::paths::folder_ends;
use crate::taken::NumberSet;
use crate::walk::Walk;
use seq::{OutOfMemory, Seq};
use std::alloc::Global;

/// The path of a folder's conftest; the folder is given with its slash.
fn conftest_path(alloc: Global, folder: &[u8]) -> Result<Vec<u8>, OutOfMemory>
    ensures { IfOk result (λ path. path.items ≡ folder.now ++ codes "conftest.py") }
{
    let mut path = Vec::from_slice(alloc, folder)?;
    path.extend_from_slice(b"conftest.py")?;
    Ok(path)
}

/// Takes the conftest of a folder, where it has one.
fn take_conftest(
    alloc: Global,
    taken: &mut NumberSet,
    walk: &Walk,
    folder: &[u8],
) -> Result<(), OutOfMemory>
    ensures { OnOk result (taken.new ≡ each_once taken.old (conftest_in walk.now folder.now)) }
{
    let path = conftest_path(alloc, folder)?;
    match walk.place_of(&path) {
        Some(place) => taken.take(place),
        None => Ok(()),
    }
}

fn take_end(
    alloc: Global,
    taken: &mut NumberSet,
    walk: &Walk,
    path: &[u8],
    end: usize,
) -> Result<(), OutOfMemory>
    ensures { OnOk result (taken.new ≡ each_once taken.old (conftest_in walk.now (take end path.now))) }
{
    take_conftest(alloc, taken, walk, &path[..end.min(path.len())])
}

fn take_ends(
    alloc: Global,
    taken: &mut NumberSet,
    walk: &Walk,
    path: &[u8],
    ends: &[usize],
) -> Result<(), OutOfMemory>
    ensures { OnOk result (taken.new ≡ each_once taken.old (flat_map (λ end. conftest_in walk.now (take end path.now)) ends.now)) }
{
    for end in ends {
        take_end(alloc, taken, walk, path, *end)?;
    }
    Ok(())
}

/// Takes the conftests of the folders above a file, from the root down.
fn take_above(
    alloc: Global,
    taken: &mut NumberSet,
    walk: &Walk,
    path: &[u8],
) -> Result<(), OutOfMemory>
    ensures { OnOk result (taken.new ≡ each_once taken.old (conftests_above walk.now path.now)) }
{
    let ends = folder_ends(alloc, path)?;
    take_ends(alloc, taken, walk, path, &ends)
}

/// The conftests that are loaded before test files, by their places: those of the folders above them, parents before children.
#[tactic(auto, unfolding(crate::specs::Files::conftests))]
pub fn conftests(alloc: Global, walk: &Walk, files: &[usize]) -> Result<Seq<usize>, OutOfMemory>
    ensures { IfOk result (λ places. places ≡ conftests walk.now files.now) }
{
    let mut taken = NumberSet::new(alloc);
    for place in files {
        take_above(alloc, &mut taken, walk, walk.path_at(*place))?;
    }
    Ok(taken.into_seq())
}
