ghost use Rattle.std.specs.Prelude.{min, bytes_eq, ◌⊎◌, ◌≡◌, ◌<◌, ◌≤◌, ◌+◌, ℕ, List, Option, Some, None, map, length, string_bytes, filter, All, IfOk, IfErr, IfSome, IsSome, IsErrOf, MatchOption, Contains};
ghost use Rattle.std.specs.Option.{ForSome};
ghost use Rattle.std.specs.List.{list_any};
ghost use Rattle.edge_io.specs.Causes.{HasCause};
ghost use Rattle.edge_io.specs.LoadFaults.{limit_of};
ghost use Rattle.edge_io.specs.Files.{skipped_names, File, InOrder, IsKept, ListsKept, file_at, file_most, tree_most, files_of, folders_of, is_kept, is_skipped_folder, limit_at, paths_of, size_limit, tree_limit, with_bytes};

use crate::memory::bytes_in;
use crate::order::in_order;
use crate::tree::{Tree, TreeFail};
use std::alloc::{AllocError, AllocFailed, Global};
use std::marker::Model;

/// So many files of a tree may be kept.
pub const FILES_MOST: usize = 4096;

/// So many bytes may a kept file have: 1 MiB.
pub const FILE_MOST: usize = 1_048_576;

/// So many bytes may the kept files have together: 8 MiB.
pub const TREE_MOST: usize = 8_388_608;

/// Why the files of a tree were not loaded.
#[derive(Debug, Drop)]
pub enum LoadFault {
    /// The tree failed, and its count of faults rose.
    Tree,
    /// More than 4,096 files are kept.
    TooManyFiles,
    /// The path of the first file of more than 1 MiB (2^20 bytes).
    TooLarge(String),
    /// The files pass 8 MiB together.
    TreeTooLarge,
    OutOfMemory,
}

impl From<TreeFail> for LoadFault {
    ghost use Rattle.std.specs.Prelude.{◌≡◌};
    ghost use Rattle.edge_io.specs.LoadFaults.{load_fault};

    ghost from_gives = { λ e f. f ≡ load_fault e };

    fn from(e: TreeFail) -> LoadFault {
        match e {
            TreeFail::Failed => LoadFault::Tree,
            TreeFail::OutOfMemory => LoadFault::OutOfMemory,
        }
    }
}

impl From<AllocError> for LoadFault {
    ghost use Rattle.std.specs.Prelude.{◌≡◌};
    ghost use Rattle.edge_io.specs.declared.files.LoadFault.TheVariants.{OutOfMemory};

    ghost from_gives = { λ _ e. e ≡ OutOfMemory };

    fn from(_e: AllocError) -> LoadFault {
        LoadFault::OutOfMemory
    }
}

impl<T: Drop> From<AllocFailed<T>> for LoadFault {
    ghost use Rattle.std.specs.Prelude.{◌≡◌};
    ghost use Rattle.edge_io.specs.declared.files.LoadFault.TheVariants.{OutOfMemory};

    ghost from_gives = { λ _ e. e ≡ OutOfMemory };

    fn from(_e: AllocFailed<T>) -> LoadFault {
        LoadFault::OutOfMemory
    }
}

/// The kept files of a tree, seen as pairs of a path and its bytes in the order of the paths' bytes,
/// each path once.
#[derive(Drop)]
pub struct Files {
    pairs: Vec<(String, Vec<u8>)>,
}

impl Model for Files {
    ghost use Rattle.std.specs.Prelude.{List, ℕ};
    ghost use Rattle.edge_io.specs.Files.{files_of};

    ghost Value = { List (List ℕ × List ℕ) };

    ghost view = { λ f. files_of f.pairs.items };
}

impl Files {
    /// Takes over the files, which are in the order of their paths, each path once.
    pub fn from_vec(pairs: Vec<(String, Vec<u8>)>) -> Self
        requires { InOrder (paths_of (files_of pairs.items)) }
        ensures { result ≡ files_of pairs.items }
    {
        Files { pairs }
    }

    /// The files in the order of their paths, each with its bytes.
    pub fn items(&self) -> &[(String, Vec<u8>)]
        ensures { files_of result.now ≡ self.now }
    {
        &self.pairs
    }

    /// The bytes of the file with a path, or None where there is none.
    pub fn bytes_at(&self, path: &str) -> Option<&Vec<u8>>
        ensures { MatchOption result (file_at path.now self.now ≡ None) (λ v. file_at path.now self.now ≡ Some v.now.items) }
    {
        bytes_in(&self.pairs, path)
    }
}

fn has_skipped_name(name: &str) -> bool
    ensures { result ≡ list_any (λ skipped. bytes_eq name.now skipped) skipped_names }
{
    name == "_darcs"
        || name == "build"
        || name == "CVS"
        || name == "dist"
        || name == "node_modules"
        || name == "venv"
        || name == "__pycache__"
        || name == "{arch}"
}

#[tactic(auto, unfolding(crate::specs::Files::is_skipped_folder))]
fn is_skipped(name: &str) -> bool
    ensures { result ≡ is_skipped_folder name.now }
{
    let bytes = name.as_bytes();
    bytes.starts_with(b".") || bytes.ends_with(b".egg") || has_skipped_name(name)
}

fn has_skipped_folder(path: &str) -> bool
    ensures { result ≡ list_any is_skipped_folder (folders_of path.now) }
{
    let mut rest = path;
    while let Some((folder, behind)) = rest.split_once('/') {
        if is_skipped(folder) {
            return true;
        }
        rest = behind;
    }
    false
}

#[tactic(auto, unfolding(crate::specs::Files::is_kept))]
fn is_kept_path(path: &str) -> bool
    ensures { result ≡ is_kept path.now }
{
    path.as_bytes().ends_with(b".py") && !has_skipped_folder(path)
}

fn keep(alloc: Global, listed: &[String]) -> Result<Vec<String>, AllocError>
    ensures { IfOk result (λ kept. map string_bytes kept.items ≡ filter is_kept (map string_bytes listed.now)) }
{
    let mut kept = Vec::new(alloc);
    for path in listed {
        if is_kept_path(path.as_str()) {
            kept.push(path.clone()?)?;
        }
    }
    Ok(kept)
}

fn kept_paths<T: Tree>(alloc: Global, tree: &mut T) -> Result<Vec<String>, LoadFault>
    ensures same { T.files tree.new ≡ T.files tree.old }
    ensures kept { IfOk result (λ paths. IfSome (T.files tree.old) (λ fs. ListsKept fs (map string_bytes paths.items))) }
    ensures order { IfOk result (λ paths. InOrder (map string_bytes paths.items)) }
    ensures limit { IfErr result (λ e. limit_of e ≡ None) }
    ensures cause { HasCause LoadFault.Tree (T.faults tree.old) (T.faults tree.new) result }
{
    let listed = tree.list()?;
    let kept = keep(alloc, &listed)?;
    Ok(in_order(kept)?)
}

/// The size of all files up to one of which at most `FILE_MOST + 1` bytes were read.
fn sum_of_sizes(before: usize, path: &String, size: usize) -> Result<usize, LoadFault>
    requires { before ≤ tree_most }
    ensures fits { IfOk result (λ sum. (size ≤ file_most) × (sum ≡ before + size) × (sum ≤ tree_most)) }
    ensures limit { IfErr result (λ e. IfSome (limit_of e) (λ l. (whole : List ℕ) → size ≡ min (length whole) (file_most + 1) → limit_at before (string_bytes path.now, whole) ≡ Some l)) }
    ensures tree { ¬ (IsErrOf result LoadFault.Tree) }
{
    if size > FILE_MOST {
        return Err(LoadFault::TooLarge(path.clone()?));
    }
    if before + size > TREE_MOST {
        return Err(LoadFault::TreeTooLarge);
    }
    Ok(before + size)
}

/// The bytes of a file, and the size of all files up to it.
fn read_one<T: Tree>(
    tree: &mut T,
    path: &String,
    before: usize,
) -> Result<(Vec<u8>, usize), LoadFault>
    requires small { before ≤ tree_most }
    requires found { ForSome (T.files tree.old) (λ fs. IsSome (file_at (string_bytes path.now) fs)) }
    ensures same { T.files tree.new ≡ T.files tree.old }
    ensures read { IfOk result (λ r. IfSome (T.files tree.old) (λ fs. file_at (string_bytes path.now) fs ≡ Some r.0.items)) }
    ensures fits { IfOk result (λ r. (limit_at before (string_bytes path.now, r.0.items) ≡ None) × (r.1 ≡ before + length r.0.items) × (r.1 ≤ tree_most)) }
    ensures limit { IfErr result (λ e. IfSome (limit_of e) (λ l. IfSome (T.files tree.old) (λ fs. IfSome (file_at (string_bytes path.now) fs) (λ whole. limit_at before (string_bytes path.now, whole) ≡ Some l)))) }
    ensures cause { HasCause LoadFault.Tree (T.faults tree.old) (T.faults tree.new) result }
{
    let bytes = tree.read(path.as_str(), FILE_MOST + 1)?;
    let sum = sum_of_sizes(before, path, bytes.len())?;
    Ok((bytes, sum))
}

/// The files at the paths, in their order, up to the first that passes a limit.
fn read_all<T: Tree>(
    alloc: Global,
    tree: &mut T,
    paths: &[String],
) -> Result<Vec<(String, Vec<u8>)>, LoadFault>
    requires { ForSome (T.files tree.old) (λ fs. All (λ p. IsSome (file_at p fs)) (map string_bytes paths.now)) }
    ensures same { T.files tree.new ≡ T.files tree.old }
    ensures paths { IfOk result (λ pairs. paths_of (files_of pairs.items) ≡ map string_bytes paths.now) }
    ensures read { IfOk result (λ pairs. IfSome (T.files tree.old) (λ fs. files_of pairs.items ≡ with_bytes fs (map string_bytes paths.now))) }
    ensures fits { IfOk result (λ pairs. size_limit 0 (files_of pairs.items) ≡ None) }
    ensures limit { IfErr result (λ e. IfSome (limit_of e) (λ l. IfSome (T.files tree.old) (λ fs. size_limit 0 (with_bytes fs (map string_bytes paths.now)) ≡ Some l))) }
    ensures cause { HasCause LoadFault.Tree (T.faults tree.old) (T.faults tree.new) result }
{
    let mut pairs = Vec::new(alloc);
    let mut sum = 0;
    for path in paths {
        let (bytes, up_to) = read_one(tree, path, sum)?;
        pairs.push((path.clone()?, bytes))?;
        sum = up_to;
    }
    Ok(pairs)
}

/// The files of a tree that are kept: those whose path ends in `.py`, but for those below a folder
/// that is passed over (one whose name begins with `.`, ends in `.egg` or is one of eight names).
///
/// They are read in the order of their paths, and each limit is tested in this order.
pub fn load_files<T: Tree>(alloc: Global, tree: &mut T) -> Result<Files, LoadFault>
    ensures same { T.files tree.new ≡ T.files tree.old }
    ensures order { IfOk result (λ files. InOrder (paths_of files)) }
    ensures fits { IfOk result (λ files. tree_limit files ≡ None) }
    ensures kept { IfOk result (λ files. IfSome (T.files tree.old) (λ fs. IsKept fs files)) }
    ensures limit { IfErr result (λ e. IfSome (limit_of e) (λ l. IfSome (T.files tree.old) (λ fs. (kept : List File) × IsKept fs kept × (tree_limit kept ≡ Some l)))) }
    ensures cause { HasCause LoadFault.Tree (T.faults tree.old) (T.faults tree.new) result }
{
    let paths = kept_paths(alloc, tree)?;
    if paths.len() > FILES_MOST {
        return Err(LoadFault::TooManyFiles);
    }
    let pairs = read_all(alloc, tree, &paths)?;
    Ok(Files { pairs })
}

/// A law: a tree has one list of kept files.
pub fn one_list_of_kept_files()
    ensures { (tree files others : List File) → IsKept tree files → IsKept tree others → files ≡ others }
{}
