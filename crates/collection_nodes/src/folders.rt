// Folders.

ghost use Rattle.std.specs.Prelude.{◌≡◌, ◌<◌, [], ◌∷◌, IfOk, OnOk, length, map, take};
ghost use Rattle.std.specs.List.{filter};
ghost use Rattle.collect_words.specs.Walks.{path_at};
ghost use Rattle.collection_nodes.specs.Texts.{with_mentions};
ghost use Rattle.collection_nodes.specs.Tree as tree;

use crate::mentions::Mentions;
use crate::test_file::TestFile;
use collect_words::Walk;
use seq::{OutOfMemory, PyText};
use std::alloc::Global;

/// The path at a place of the walk, or an empty one.
pub fn path_text<'a>(walk: &'a Walk, place: usize) -> &'a str
    ensures { result.now ≡ path_at walk.now place }
{
    match walk.paths().get(place) {
        Some(path) => path.text(),
        None => "",
    }
}

/// The path of a file.
pub fn file_path(alloc: Global, walk: &Walk, file: TestFile) -> Result<PyText, OutOfMemory>
    ensures { IfOk result (λ path. path ≡ tree.file_path walk.now file) }
{
    PyText::from_str(alloc, path_text(walk, file.place))
}

fn is_parting(letter: char) -> bool
    ensures { result ≡ tree.is_parting letter }
{
    letter == '/'
}

/// Mentions what stands before a place of a path, where a slash stands there.
fn mention_at(
    alloc: Global,
    folders: &mut Mentions,
    path: &[char],
    at: usize,
) -> Result<(), OutOfMemory>
    requires { at < length path.now }
    ensures { OnOk result (folders.new ≡ with_mentions folders.old (map (λ end. take end path.now) (filter (tree.parts_at path.now) (at ∷ [])))) }
{
    if is_parting(path[at]) {
        folders.mention(alloc, &path[..at])?;
    }
    Ok(())
}

/// Mentions the folders above a file, outer ones first.
fn mention_above(alloc: Global, folders: &mut Mentions, path: &[char]) -> Result<(), OutOfMemory>
    ensures { OnOk result (folders.new ≡ tree.with_folders folders.old path.now) }
{
    for at in 0..path.len() {
        mention_at(alloc, folders, path, at)?;
    }
    Ok(())
}

fn mention_file(
    alloc: Global,
    folders: &mut Mentions,
    walk: &Walk,
    file: TestFile,
) -> Result<(), OutOfMemory>
    ensures { OnOk result (folders.new ≡ tree.with_folders folders.old (tree.file_path walk.now file)) }
{
    let path = file_path(alloc, walk, file)?;
    mention_above(alloc, folders, path.chars())
}

/// The root, and the folders above these files, each once.
#[tactic(auto, unfolding(crate::specs::Tree::all_folders))]
pub fn all_folders(alloc: Global, walk: &Walk, files: &[TestFile]) -> Result<Mentions, OutOfMemory>
    ensures { IfOk result (λ folders. folders ≡ tree.all_folders walk.now files.now) }
{
    let mut folders = Mentions::new(alloc);
    folders.mention(alloc, &[])?;
    for file in files {
        mention_file(alloc, &mut folders, walk, *file)?;
    }
    Ok(folders)
}

/// The folder in which a file or a folder stands; the root is the empty path.
pub fn outer_folder(path: &[char]) -> &[char]
    ensures { result.now ≡ tree.outer_folder path.now }
{
    let mut rest = path;
    while let Some((last, front)) = rest.split_last() {
        if is_parting(*last) {
            return front;
        }
        rest = front;
    }
    rest
}

/// The node of the folder in which a file or a folder stands.
pub fn outer_node(alloc: Global, folders: &Mentions, path: &[char]) -> Result<u32, OutOfMemory>
    ensures { IfOk result (λ n. n ≡ tree.folder_node folders.now (tree.outer_folder path.now)) }
{
    folders.number(alloc, outer_folder(path))
}
