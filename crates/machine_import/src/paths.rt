// The sources that imports name.

ghost use Rattle.std.specs.Prelude.{◌≡◌, ◌++◌, IfOk, OnOk, [], codes};
ghost use Rattle.std.specs.List.{flat_map};
ghost use Rattle.std.specs.Option.{option_or};
ghost use Rattle.py_bind.specs.Modules.{folder_of};
ghost use Rattle.machine_state.specs.py_world.Imports as imports;
ghost use Rattle.machine_state.specs.Places.{path_in};
ghost use Rattle.machine_import.specs.Lookups.{Leads, path_letters, place_among, slashed_letters, slashed_part};

use machine_state::machine::Machine;
use machine_state::sources::know_text;
use py_core::SrcText;
use py_values::end::push_ascii;
use seq::{OutOfMemory, PyText};
use std::alloc::Global;

/// Puts names behind others, with a `/` before each.
fn push_slashed(out: &mut Vec<char>, names: &[SrcText]) -> Result<(), OutOfMemory>
    ensures { OnOk result (out.new.items ≡ out.old.items ++ flat_map slashed_part names.now) }
{
    for name in names {
        push_ascii(out, "/")?;
        out.extend_from_slice(name.chars())?;
    }
    Ok(())
}

/// Puts a dotted name behind what is there, with `/` for its dots.
#[tactic(auto, using(crate::proofs::Lookups::slashed_cut, crate::proofs::Lookups::slashed_none))]
fn push_dotted(out: &mut Vec<char>, dotted: &[SrcText]) -> Result<(), OutOfMemory>
    ensures { OnOk result (out.new.items ≡ out.old.items ++ slashed_letters dotted.now) }
{
    match dotted {
        [first, others @ ..] => {
            out.extend_from_slice(first.chars())?;
            push_slashed(out, others)
        }
        [] => Ok(()),
    }
}

/// The path of a dotted name in a folder, with this end.
fn path_letters(
    alloc: Global,
    folder: &[char],
    dotted: &[SrcText],
    end: &str,
) -> Result<PyText, OutOfMemory>
    ensures { IfOk result (λ path. path ≡ path_letters folder.now dotted.now end.now) }
{
    let mut path = Vec::new(alloc);
    path.extend_from_slice(folder)?;
    push_dotted(&mut path, dotted)?;
    push_ascii(&mut path, end)?;
    PyText::from_chars(alloc, &path)
}

/// The path of a dotted name in a folder, with this end, where there is a source of it.
fn path_with(
    m: &Machine,
    folder: &[char],
    dotted: &[SrcText],
    end: &str,
) -> Result<Option<PyText>, OutOfMemory>
    ensures { IfOk result (λ path. Leads m.now.sources (place_among m.now.sources (path_letters folder.now dotted.now end.now)) path) }
{
    let path = path_letters(m.alloc, folder, dotted, end)?;
    know_text(path.chars());
    m.sources.know_paths();
    match m.sources.find(&path) {
        Some(_) => Ok(Some(path)),
        None => {
            drop(path);
            Ok(None)
        }
    }
}

/// The path of a dotted name in a folder: that of the package, or else that of the module.
#[tactic(auto, using(crate::proofs::Lookups::leads_first, crate::proofs::Lookups::leads_second))]
fn path_within(
    m: &Machine,
    folder: &[char],
    dotted: &[SrcText],
) -> Result<Option<PyText>, OutOfMemory>
    ensures { IfOk result (λ path. Leads m.now.sources
        (option_or (place_among m.now.sources (path_letters folder.now dotted.now (codes "/__init__.py"))) (place_among m.now.sources (path_letters folder.now dotted.now (codes ".py")))) path) }
{
    match path_with(m, folder, dotted, "/__init__.py")? {
        Some(path) => Ok(Some(path)),
        None => path_with(m, folder, dotted, ".py"),
    }
}

/// The folder of a file, with the `/` behind it.
fn folder_of(path: &[char]) -> &[char]
    ensures { result.now ≡ folder_of path.now }
{
    let mut rest = path;
    while let Some((last, front)) = rest.split_last() {
        if *last == '/' {
            return rest;
        }
        rest = front;
    }
    rest
}

/// Whether a dotted name is that of the built-in module.
pub fn is_pytest(dotted: &[SrcText]) -> bool
    ensures { result ≡ imports.is_pytest dotted.now }
{
    match dotted {
        [name] => name.chars() == ['p', 'y', 't', 'e', 's', 't'].as_slice(),
        [] => false,
        [_, _, ..] => false,
    }
}

/// The path that an import names here: that of a package or of a module (Language Reference, the import system).
pub fn import_path(m: &Machine, dotted: &[SrcText]) -> Result<Option<PyText>, OutOfMemory>
    ensures { IfOk result (λ path. path ≡ imports.import_path (imports.source_paths m.now.sources) (path_in m.now.here.place) dotted.now) }
{
    let folder = folder_of(m.here.path().chars());
    let first = path_within(m, folder, dotted)?;
    match first {
        Some(path) => Ok(Some(path)),
        None => path_within(m, &[], dotted),
    }
}
