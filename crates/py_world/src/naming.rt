// The names of modules.

ghost use Rattle.std.specs.Prelude.{◌≡◌, IfOk, codes, map};
ghost use Rattle.py_world.specs.ModuleNames as names;

use seq::{OutOfMemory, PyText};
use std::alloc::{AllocError, Global};

/// A text without these characters at its end, where it ends with them.
fn without_tail<'a>(tail: &[char], text: &'a [char]) -> &'a [char]
    ensures { result.now ≡ names.without_tail tail.now text.now }
{
    match text.strip_suffix(tail) {
        Some(front) => front,
        None => text,
    }
}

/// A path without a last part `__init__`.
fn without_init<'a>(path: &'a [char]) -> &'a [char]
    ensures { result.now ≡ names.without_init path.now }
{
    let whole = ['_', '_', 'i', 'n', 'i', 't', '_', '_'];
    let part = ['/', '_', '_', 'i', 'n', 'i', 't', '_', '_'];
    if path == whole.as_slice() {
        return &[];
    }
    without_tail(&part, path)
}

fn dot_for_slash(c: char) -> char
    ensures { result ≡ names.dot_for_slash c }
{
    if c == '/' { '.' } else { c }
}

fn dotted(alloc: Global, path: &[char]) -> Result<Vec<char>, AllocError>
    ensures { IfOk result (λ name. name.items ≡ map names.dot_for_slash path.now) }
{
    path.iter().map(|c| dot_for_slash(*c)).collect(alloc)
}

/// The name of the module of a path: the path without `.py` and without a last part `__init__`, with `.` for `/` (Language
/// Reference, import-related module attributes).
pub fn module_name(alloc: Global, path: &[char]) -> Result<PyText, OutOfMemory>
    ensures { IfOk result (λ name. name ≡ names.module_name path.now) }
{
    let end = ['.', 'p', 'y'];
    let name = dotted(alloc, without_init(without_tail(&end, path)))?;
    PyText::from_chars(alloc, &name)
}
