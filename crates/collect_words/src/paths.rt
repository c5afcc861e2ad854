ghost use Rattle.std.specs.Prelude.{◌≡◌, ◌∷◌, ◌++◌, [], List, ℕ, map, IfOk, OnOk, bytes_eq, codes};
ghost use Rattle.std.specs.List.{filter, list_any};
ghost use Rattle.collect_words.specs.Keys.{parts_with};
ghost use Rattle.collect_words.specs.Paths.{ends_folder, folder_ends, is_below, is_conftest, is_test_file, leads_up, name_of, parts, plain_path, without_end, without_front};

use seq::OutOfMemory;
use std::alloc::Global;
use std::mem::replace;

fn without_front<'a>(front: &[u8], text: &'a [u8]) -> &'a [u8]
    ensures { result.now ≡ without_front front.now text.now }
{
    if text.starts_with(front) {
        &text[front.len()..]
    } else {
        text
    }
}

fn without_end<'a>(end: &[u8], text: &'a [u8]) -> &'a [u8]
    ensures { result.now ≡ without_end end.now text.now }
{
    if text.ends_with(end) {
        &text[..text.len() - end.len()]
    } else {
        text
    }
}

/// A word's path: a leading `./` and a trailing `/` are dropped, each once, and `.` is the root.
#[tactic(auto, unfolding(crate::specs::Paths::plain_path))]
pub fn plain_path(word: &[u8]) -> &[u8]
    ensures { result.now ≡ plain_path word.now }
{
    let path = without_end(b"/", without_front(b"./", word));
    if path == b".".as_slice() { &[] } else { path }
}

/// A byte behind a name, or a slash, behind which the next name begins.
fn push_byte(
    alloc: Global,
    names: &mut Vec<Vec<u8>>,
    name: &mut Vec<u8>,
    byte: u8,
) -> Result<(), OutOfMemory>
    ensures { OnOk result ((rest : List ℕ) → parts_with names.old.items name.old.items (byte ∷ rest) ≡ parts_with names.new.items name.new.items rest) }
{
    if byte == b'/' {
        let whole = replace(name, Vec::new(alloc));
        names.push(whole)?;
        return Ok(());
    }
    name.push(byte)?;
    Ok(())
}

/// The names on a path: of its folders, and of the file.
pub fn parts(alloc: Global, path: &[u8]) -> Result<Vec<Vec<u8>>, OutOfMemory>
    ensures { IfOk result (λ names. map (λ name. name.items) names.items ≡ parts path.now) }
{
    let mut names = Vec::new(alloc);
    let mut name = Vec::new(alloc);
    for byte in path {
        push_byte(alloc, &mut names, &mut name, *byte)?;
    }
    names.push(name)?;
    Ok(names)
}

fn is_up(names: &[Vec<u8>]) -> bool
    ensures { result ≡ list_any (λ part. bytes_eq part (codes "..")) (map (λ name. name.items) names.now) }
{
    for name in names {
        if name.as_slice() == b"..".as_slice() {
            return true;
        }
    }
    false
}

/// Whether a part of a path is `..`.
#[tactic(auto, unfolding(crate::specs::Paths::leads_up))]
pub fn leads_up(alloc: Global, path: &[u8]) -> Result<bool, OutOfMemory>
    ensures { IfOk result (λ up. up ≡ leads_up path.now) }
{
    let names = parts(alloc, path)?;
    Ok(is_up(&names))
}

/// What stands behind the last slash.
fn name_of(path: &[u8]) -> &[u8]
    ensures { result.now ≡ name_of path.now }
{
    let mut start = 0;
    for at in 0..path.len() {
        if path[at] == b'/' {
            start = at + 1;
        }
    }
    &path[start..]
}

/// Whether pytest's `python_files` takes it: `test_*.py` and `*_test.py`.
#[tactic(auto, unfolding(crate::specs::Paths::is_test_file))]
pub fn is_test_file(path: &[u8]) -> bool
    ensures { result ≡ is_test_file path.now }
{
    path.ends_with(b".py") && (name_of(path).starts_with(b"test_") || path.ends_with(b"_test.py"))
}

/// Whether it is a `conftest.py`.
#[tactic(auto, unfolding(crate::specs::Paths::is_conftest))]
pub fn is_conftest(path: &[u8]) -> bool
    ensures { result ≡ is_conftest path.now }
{
    name_of(path) == b"conftest.py".as_slice()
}

/// Whether a path is below a folder.
#[tactic(auto, unfolding(crate::specs::Paths::is_below))]
pub fn is_below(folder: &[u8], path: &[u8]) -> bool
    ensures { result ≡ is_below folder.now path.now }
{
    folder.len() == 0 || (path.starts_with(folder) && path[folder.len()..].starts_with(b"/"))
}

fn ends_folder(path: &[u8], at: usize) -> bool
    ensures { result ≡ ends_folder path.now at }
{
    at == 0 || (at <= path.len() && path[at - 1] == b'/')
}

fn push_end(ends: &mut Vec<usize>, path: &[u8], at: usize) -> Result<(), OutOfMemory>
    ensures { OnOk result (ends.new.items ≡ ends.old.items ++ filter (ends_folder path.now) (at ∷ [])) }
{
    if !ends_folder(path, at) {
        return Ok(());
    }
    ends.push(at)?;
    Ok(())
}

/// How long the fronts of a path are that are its folders, from the root down, each with its slash.
#[tactic(auto, unfolding(crate::specs::Paths::folder_ends))]
pub fn folder_ends(alloc: Global, path: &[u8]) -> Result<Vec<usize>, OutOfMemory>
    ensures { IfOk result (λ ends. ends.items ≡ folder_ends path.now) }
{
    let mut ends = Vec::new(alloc);
    for at in 0..path.len() {
        push_end(&mut ends, path, at)?;
    }
    Ok(ends)
}
